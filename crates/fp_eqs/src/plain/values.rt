ghost use Rattle.std.specs.Prelude.{◌≡◌, ◌<◌, ℕ, Contains, IfOk, IsTrue, bit_or, length, slice_index};
ghost use Rattle.fp_eqs.specs.Answers.{bits_of};
ghost use Rattle.fp_eqs.specs.Solution.{round, solution};

use crate::plain::known::evaluate;
use crate::system::System;
use std::alloc::{AllocError, Global};

/// The value of each place at the least solution, by whole rounds from what is fixed, up to the first that changes nothing.
pub fn solved_values<S: System>(alloc: Global, system: &S) -> Result<Vec<u64>, AllocError>
    ensures long { IfOk result (λ v. length v.items ≡ (S.equations system.now).places) }
    ensures solution { IfOk result (λ v. slice_index v.items ≡ solution (S.equations system.now)) }
{
    let mut values = fixed_values(alloc, system)?;
    for _round in 0..64 * u64::from(system.places()) + 1 {
        let next = next_values(alloc, system, &values)?;
        if are_same(&next, &values) {
            return Ok(values);
        }
        values = next;
    }
    Ok(values)
}

/// Whether two lists hold the same values.
fn are_same(first: &[u64], second: &[u64]) -> bool
    ensures { IsTrue result → first.now ≡ second.now }
{
    first == second
}

/// The value that each place starts with.
fn fixed_values<S: System>(alloc: Global, system: &S) -> Result<Vec<u64>, AllocError>
    ensures long { IfOk result (λ v. length v.items ≡ (S.equations system.now).places) }
    ensures fixed { IfOk result (λ v. slice_index v.items ≡ (S.equations system.now).fixed) }
{
    let mut values = Vec::new(alloc);
    for place in 0..system.places() {
        values.push(system.fixed(place))?;
    }
    Ok(values)
}

/// The values after one round: those before it, joined with every task's contributions there.
fn next_values<S: System>(alloc: Global, system: &S, values: &[u64]) -> Result<Vec<u64>, AllocError>
    requires { length values.now ≡ (S.equations system.now).places }
    ensures long { IfOk result (λ v. length v.items ≡ (S.equations system.now).places) }
    ensures round { IfOk result (λ v. slice_index v.items ≡ round (S.equations system.now) (slice_index values.now)) }
{
    let mut next = Vec::from_slice(alloc, values)?;
    for task in 0..system.tasks() {
        let evaluation = evaluate(alloc, system, values, task)?;
        join_pairs(&mut next, evaluation.given.list());
    }
    Ok(next)
}

/// Joins each contribution to its place.
fn join_pairs(values: &mut Vec<u64>, pairs: &[(u32, u64)])
    requires { (p w : ℕ) → Contains pairs.now (p, w) → p < length values.old.items }
    ensures long { length values.new.items ≡ length values.old.items }
    ensures words { (p : ℕ) → slice_index values.new.items p ≡
        bit_or (slice_index values.old.items p) (bits_of pairs.now p) }
{
    for (place, bits) in pairs {
        let at = *place as usize;
        let word = values[at];
        values[at] = word | *bits;
    }
}
