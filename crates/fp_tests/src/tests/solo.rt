//! The solver of one worker, beside the plain one.
ghost use Rattle.std.specs.Prelude.{◌≡◌, ◌<◌};
ghost use Rattle.fp_tests.specs.Rising.{next_bits as bits_after};

use crate::tests::eqs::Idle;
use fp_eqs::{Ask, Bound, Counted, Demo, Gives, Solved, Start, System, rounds};
use fp_solo::{law_end, law_evaluation, law_few, solve_one};
use std::alloc::{AllocError, Global};
use std::marker::Brand;
use std::sync::ledger::{Blank, Ledger};
use std::test::Fail;

/// A task gives place 0 one bit where it has none, and two where it has one.
#[derive(Drop)]
struct Rising;

impl System for Rising {
    ghost use Rattle.fp_tests.specs.Rising.{rising, rising-laws};

    ghost equations = { λ _. rising };

    ghost monotone = { λ _. rising-laws };

    fn places(&self) -> u32 {
        1
    }

    fn tasks(&self) -> u32 {
        1
    }

    fn start(&self, _task: u32) -> Start {
        Start::Always
    }

    fn bound(&self, _task: u32) -> Bound {
        Bound { asks: 1, gives: 1 }
    }

    fn fixed(&self, _place: u32) -> u64 {
        0
    }

    fn shown(&self, place: u32) -> bool {
        place == 0
    }

    fn maker(&self, _place: u32, _k: u32) -> Option<u32> {
        None
    }

    fn eval<A: Ask>(&self, _task: u32, ask: &mut A, give: &mut Gives) {
        let value = ask.read(0);
        give.add(0, next_bits(value));
    }
}

fn next_bits(value: u64) -> u64
    ensures { result ≡ bits_after value }
{
    if value == 0 { 1 } else { 3 }
}

fn solve_counted<S: System, L: Ledger>(
    alloc: Global,
    system: &S,
    blank: Blank,
) -> Result<Solved, AllocError>
    requires name { blank.name ≡ L.name }
    requires parts { blank.parts ≡ L.parts }
    requires some { 0 < blank.parts }
{
    let mut counted: Counted<'_, S, L> = Counted::new(system, blank);
    solve_one(alloc, &mut counted)
}

fn solve<S: System>(alloc: Global, system: &S) -> Result<Solved, AllocError> {
    solve_counted::<S, Brand>(alloc, system, Blank::new(1))
}

/// The values of a solved system and which places are wanted, and whether the plain solver wants the same places and has the same
/// values there.
fn solved_text<S: System>(alloc: Global, system: &S) -> Result<String, AllocError> {
    let solved = solve(alloc, system)?;
    let plain = rounds(alloc, system)?;
    format!(in alloc;
        "{:?} {:?} {}",
        solved.values.as_slice(),
        solved.wanted.as_slice(),
        are_same(&solved, &plain)
    )
}

fn are_same(first: &Solved, second: &Solved) -> bool {
    let (values, wanted) = (first.values.as_slice(), first.wanted.as_slice());
    let (others, also) = (second.values.as_slice(), second.wanted.as_slice());
    wanted == also
        && values
            .iter()
            .zip(others)
            .zip(wanted)
            .all(|((value, other), wanted)| !*wanted || value == other)
}

#[test]
fn a_chain_is_solved(rt: HostRuntime) -> Result<(), Fail> {
    for system in [Demo::chain(3), Demo::apart(3)] {
        let text = solved_text(rt.alloc(), &system)?;
        assert_eq!(rt; text.as_str(), "[1, 1, 1] [true, true, true] true");
    }
    law_few();
    law_evaluation();
    law_end();
    Ok(())
}

#[test]
fn an_idle_task_is_not_evaluated(rt: HostRuntime) -> Result<(), Fail> {
    let text = solved_text(rt.alloc(), &Idle)?;
    assert_eq!(rt; text.as_str(), "[1, 0] [true, false] true");
    Ok(())
}

#[test]
fn a_task_wakes_itself(rt: HostRuntime) -> Result<(), Fail> {
    let text = solved_text(rt.alloc(), &Rising)?;
    assert_eq!(rt; text.as_str(), "[3] [true] true");
    Ok(())
}
