//! Contributions joined to the values, and the readers of what changes made due.
ghost use Rattle.std.specs.Prelude.{◌≡◌, ◌<◌, ◌==◌, ◌||◌, ℕ, Contains, bit_or, length, slice_index, IsTrue, OnOk, if◌then◌else◌};
ghost use Rattle.fp_eqs.specs.Answers.{bits_of};
ghost use Rattle.fp_eqs.specs.Solved.{flag_at};
ghost use Rattle.fp_solo.specs.Queued.{IsDue};
ghost use Rattle.fp_solo.specs.Recorded.{AreReads, is_read};
ghost use Rattle.fp_solo.specs.Solving.{Wakes};

use crate::agenda::is_wide;
use crate::due::Due;
use fp_eqs::{Counted, System};
use fp_links::Links;
use std::alloc::AllocError;
use std::sync::ledger::Ledger;

/// Makes each task due that reads a place.
fn wake<S: System, L: Ledger>(
    system: &Counted<'_, S, L>,
    reads: &Links,
    due: &mut Due,
    place: u32,
) -> Result<(), AllocError>
    requires place { place < (S.equations system.now.system).places }
    requires reads { AreReads (S.equations system.now.system) reads.now }
    requires due { IsDue (S.equations system.now.system).tasks due.old }
    ensures due { OnOk result (IsDue (S.equations system.now.system).tasks due.new) }
    ensures woken { OnOk result ((t : ℕ) → flag_at due.new.flags.items t ≡ (flag_at due.old.flags.items t || is_read reads.now t place)) }
{
    let mut next = reads.first_of_place(place);
    while let Some(edge) = next {
        let task = reads.task_of(edge);
        due.mark(task, is_wide(system, task))?;
        next = reads.next_of_place(edge);
    }
    Ok(())
}

/// Joins one contribution to its place, and wakes the readers of the place if it changes.
fn join_one<S: System, L: Ledger>(
    system: &Counted<'_, S, L>,
    values: &mut Vec<u64>,
    reads: &Links,
    due: &mut Due,
    place: u32,
    bits: u64,
) -> Result<(), AllocError>
    requires place { place < (S.equations system.now.system).places }
    requires values { length values.old.items ≡ (S.equations system.now.system).places }
    requires reads { AreReads (S.equations system.now.system) reads.now }
    requires due { IsDue (S.equations system.now.system).tasks due.old }
    ensures long { OnOk result (length values.new.items ≡ (S.equations system.now.system).places) }
    ensures due { OnOk result (IsDue (S.equations system.now.system).tasks due.new) }
    ensures values { OnOk result ((p : ℕ) → slice_index values.new.items p ≡ bit_or (slice_index values.old.items p) (if place == p then bits else 0)) }
    ensures wakes { OnOk result (Wakes (S.equations system.now.system).places (is_read reads.now) (slice_index values.old.items) (slice_index values.new.items)
        (flag_at due.old.flags.items) (flag_at due.new.flags.items)) }
{
    let value = values[place as usize];
    let joined = value | bits;
    if joined == value {
        return Ok(());
    }
    values[place as usize] = joined;
    wake(system, reads, due, place)?;
    Ok(())
}

/// Joins each contribution to its place, and wakes the readers of the places that change.
pub fn join_all<S: System, L: Ledger>(
    system: &Counted<'_, S, L>,
    values: &mut Vec<u64>,
    reads: &Links,
    due: &mut Due,
    pairs: &[(u32, u64)],
) -> Result<(), AllocError>
    requires places { (p w : ℕ) → Contains pairs.now (p, w) → p < (S.equations system.now.system).places }
    requires values { length values.old.items ≡ (S.equations system.now.system).places }
    requires reads { AreReads (S.equations system.now.system) reads.now }
    requires due { IsDue (S.equations system.now.system).tasks due.old }
    ensures long { OnOk result (length values.new.items ≡ (S.equations system.now.system).places) }
    ensures due { OnOk result (IsDue (S.equations system.now.system).tasks due.new) }
    ensures values { OnOk result ((p : ℕ) → slice_index values.new.items p ≡ bit_or (slice_index values.old.items p) (bits_of pairs.now p)) }
    ensures wakes { OnOk result (Wakes (S.equations system.now.system).places (is_read reads.now) (slice_index values.old.items) (slice_index values.new.items)
        (flag_at due.old.flags.items) (flag_at due.new.flags.items)) }
{
    for (place, bits) in pairs {
        join_one(system, values, reads, due, *place, *bits)?;
    }
    Ok(())
}
