ghost use Rattle.std.specs.Prelude.{◌≡◌, ◌+◌, ◌≤◌, IfOk};
ghost use Rattle.fp_eqs.specs.Bounds.{evaluation_bound};
ghost use Rattle.fp_eqs.specs.Solved.{IsSolved};

use crate::work::{open, step};
use fp_eqs::{Counted, Solved, System};
use sqlite_items::Items;
use std::alloc::{AllocError, Global};
use std::sync::ledger::Ledger;

/// Solves a system on demand: it starts the tasks that wanted places call for, and evaluates a task anew only where a place that it
/// read has changed. The values are the least solution's at the places of the least demand, and within it elsewhere.
///
/// A task is evaluated once, and once more at most for each bit that a place which it uses gains, also where the call ends for want
/// of memory. An evaluation costs the questions that it asks, the contributions that it makes, and the readers that it wakes.
pub fn solve_one<S: System, L: Ledger>(
    alloc: Global,
    system: &mut Counted<'_, S, L>,
) -> Result<Solved, AllocError>
    ensures system { system.new.system ≡ system.old.system }
    ensures solved { IfOk result (IsSolved (S.equations system.old.system)) }
    ensures few { system.new.evals ≤ system.old.evals + evaluation_bound (S.equations system.old.system) }
{
    let mut work = open(alloc, system)?;
    while step(alloc, system, &mut work)? {}
    let values = Items::from_vec(work.values);
    let wanted = Items::from_vec(work.agenda.wanted);
    Ok(Solved { values, wanted })
}
