ghost use Rattle.std.specs.Prelude.{◌≡◌, ◌≤◌, ◌<◌, ℕ, false, IsTrue, IfNone, IfSome, IfOk, Contains, [], length, slice_index, vec_capacity};
ghost use Rattle.fp_eqs.specs.Answers.{asked, distinct, Agrees, IsGiven};
ghost use Rattle.fp_eqs.specs.Equations.{IsForced};
ghost use Rattle.fp_eqs.specs.Reading.{ReadingBase};

use crate::ask::Ask;
use crate::gives::Gives;
use crate::system::System;
use std::alloc::{AllocError, Global};

/// An asker over a list of values, with room for all the answers that its task may want.
#[derive(Drop)]
struct Known<'a, S: System> {
    system: &'a S,
    task: u32,
    values: &'a [u64],
    answers: Vec<(u32, u64)>,
    ghost task_in: { task < (S.equations system.now).tasks },
    ghost long: { length values.now ≡ (S.equations system.now).places },
    ghost same: { Agrees (slice_index values.now) answers.items },
    ghost used: { (p : ℕ) → IsTrue (asked answers.items p) →
        IsTrue (((S.equations system.now).task task).uses (slice_index values.now) p) },
    ghost once: { IsTrue (distinct answers.items) },
    ghost room: { ((S.equations system.now).task task).asks ≤ vec_capacity answers },
}

impl<S: System> Ask for Known<'_, S> {
    ghost Base = { ReadingBase };

    ghost base = { λ r. record { equations = S.equations r.system.now; task = r.task; values = r.values.now } };

    ghost allows = { λ b es p. IsForced (b.equations.task b.task).uses es p };

    ghost answers = { λ r. r.answers.items };

    fn read(&mut self, place: u32) -> u64 {
        if let Some(value) = answer_of(&self.answers, place) {
            return value;
        }
        let value = self.values[place as usize];
        self.answers.push_reserved((place, value));
        value
    }
}

/// The answer that a place was given before.
fn answer_of(answers: &[(u32, u64)], place: u32) -> Option<u64>
    ensures none { IfNone result (asked answers.now place ≡ false) }
    ensures some { IfSome result (λ value. Contains answers.now (place, value)) }
{
    for (asked, value) in answers {
        if *asked == place {
            return Some(*value);
        }
    }
    None
}

/// What an evaluation asked, and what it contributed.
#[derive(Drop)]
pub struct Evaluation {
    pub answers: Vec<(u32, u64)>,
    pub given: Gives,
}

/// Evaluates a task at a list of values.
pub fn evaluate<S: System>(
    alloc: Global,
    system: &S,
    values: &[u64],
    task: u32,
) -> Result<Evaluation, AllocError>
    requires task { task < (S.equations system.now).tasks }
    requires long { length values.now ≡ (S.equations system.now).places }
    ensures asks { let k = (S.equations system.now).task task in
        IfOk result (λ v. (p : ℕ) → asked v.answers.items p ≡ k.uses (slice_index values.now) p) }
    ensures gives { let k = (S.equations system.now).task task in
        IfOk result (λ v. IsGiven [] v.given.list k.gives k.makes (k.out (slice_index values.now))) }
{
    let bound = system.bound(task);
    let answers = Vec::with_capacity(alloc, bound.asks as usize)?;
    let mut given = Gives::new(alloc);
    given.reserve(bound.gives)?;
    let mut ask = Known {
        system,
        task,
        values,
        answers,
    };
    system.eval(task, &mut ask, &mut given);
    let Known {
        system: _,
        task: _,
        values: _,
        answers,
    } = ask;
    Ok(Evaluation { answers, given })
}
