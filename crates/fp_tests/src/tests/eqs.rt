//! Systems of monotone equations, their sums, and the plain solver.
use fp_eqs::{
    Analysis, Ask, Both, Bound, Demo, Gives, Start, System, law_demand, law_solution, rounds,
};
use std::alloc::{AllocError, Global};
use std::test::Fail;

/// Place 0 is made and shown. A lazy task would copy it to place 1, which nobody wants.
#[derive(Drop)]
pub struct Idle;

impl System for Idle {
    ghost use Rattle.fp_eqs.specs.Idle.{idle, idle-laws};

    ghost equations = { λ _. idle };

    ghost monotone = { λ _. idle-laws };

    fn places(&self) -> u32 {
        2
    }

    fn tasks(&self) -> u32 {
        2
    }

    fn start(&self, task: u32) -> Start {
        if task == 0 {
            Start::Always
        } else {
            Start::Lazy
        }
    }

    fn bound(&self, task: u32) -> Bound {
        let asks = if task == 0 { 0 } else { 1 };
        Bound { asks, gives: 1 }
    }

    fn fixed(&self, _place: u32) -> u64 {
        0
    }

    fn shown(&self, place: u32) -> bool {
        place == 0
    }

    fn maker(&self, place: u32, k: u32) -> Option<u32> {
        if place == 0 {
            return None;
        }
        if k == 0 { Some(1) } else { None }
    }

    fn eval<A: Ask>(&self, task: u32, ask: &mut A, give: &mut Gives) {
        if task == 0 {
            give.add(0, 1);
        } else {
            let value = ask.read(0);
            give.add(1, value);
        }
    }
}

/// One task, which gives 1 to place 0.
#[derive(Drop)]
struct One;

impl Analysis for One {
    ghost use Rattle.fp_eqs.specs.Idle.{one_task, one_task-laws};

    ghost meaning = { λ _. one_task };

    ghost places = { λ _. 1 };

    ghost lawful = { λ _. one_task-laws };

    fn tasks(&self) -> u32 {
        1
    }

    fn start(&self, _task: u32) -> Start {
        Start::Always
    }

    fn bound(&self, _task: u32) -> Bound {
        Bound { asks: 0, gives: 1 }
    }

    fn maker(&self, _place: u32, _k: u32) -> Option<u32> {
        None
    }

    fn eval<A: Ask>(&self, _task: u32, _ask: &mut A, give: &mut Gives) {
        give.add(0, 1);
    }
}

/// The values of a solved system, and which places are wanted.
fn solved_text<S: System>(alloc: Global, system: &S) -> Result<String, AllocError> {
    let solved = rounds(alloc, system)?;
    format!(in alloc;
        "{:?} {:?}",
        solved.values.as_slice(),
        solved.wanted.as_slice()
    )
}

#[test]
fn rounds_solve_a_chain(rt: HostRuntime) -> Result<(), Fail> {
    for system in [Demo::chain(3), Demo::apart(3)] {
        let text = solved_text(rt.alloc(), &system)?;
        assert_eq!(rt; text.as_str(), "[1, 1, 1] [true, true, true]");
    }
    law_solution();
    law_demand();
    Ok(())
}

#[test]
fn an_idle_place_is_solved_and_not_wanted(rt: HostRuntime) -> Result<(), Fail> {
    let text = solved_text(rt.alloc(), &Idle)?;
    assert_eq!(rt; text.as_str(), "[1, 1] [true, false]");
    Ok(())
}

#[test]
fn two_analyses_are_one() -> Result<(), Fail> {
    let both = Both::new(One, One);
    prove!(both.tasks() == 2);
    prove!(both.start(1) == Start::Always);
    prove!(both.maker(0, 0).is_none());
    Ok(())
}

#[test]
fn contributions_keep_their_room(rt: HostRuntime) -> Result<(), Fail> {
    let mut gives = Gives::new(rt.alloc());
    gives.reserve(2)?;
    gives.add(4, 1);
    gives.add(5, 3);
    assert_eq!(rt; gives.list(), [(4, 1), (5, 3)].as_slice());
    gives.clear();
    gives.add(6, 7);
    gives.add(6, 8);
    assert_eq!(rt; gives.list(), [(6, 7), (6, 8)].as_slice());
    Ok(())
}
