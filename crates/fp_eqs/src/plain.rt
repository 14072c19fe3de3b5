ghost use Rattle.std.specs.Prelude.{◌≡◌, IfOk, slice_index};
ghost use Rattle.fp_eqs.specs.Demand.{IsLeastDemand};
ghost use Rattle.fp_eqs.specs.Solution.{IsLeastSolution, solution};
ghost use Rattle.fp_eqs.specs.Solved.{IsSolved, flag_at};

mod known;
mod needs;
mod values;
mod wanted;

use crate::solved::Solved;
use crate::system::System;
use sqlite_items::Items;
use std::alloc::{AllocError, Global};
use values::solved_values;
use wanted::wanted_places;

/// Solves a system: its values by whole rounds over all places and tasks, as the definition of its
/// solution does, and then its demand by starting each task at most once.
///
/// It is plain and slow: one round per bit of the system and one more, at most.
pub fn rounds<S: System>(alloc: Global, system: &S) -> Result<Solved, AllocError>
    ensures solved { IfOk result (IsSolved (S.equations system.now)) }
    ensures solution { IfOk result (λ s. slice_index s.values ≡ solution (S.equations system.now)) }
    ensures least { IfOk result (λ s. IsLeastSolution (S.equations system.now) (slice_index s.values)) }
    ensures least_demand { IfOk result (λ s. IsLeastDemand (S.equations system.now) (flag_at s.wanted)) }
{
    let values = solved_values(alloc, system)?;
    let wanted = wanted_places(alloc, system, &values)?;
    let values = Items::from_vec(values);
    let wanted = Items::from_vec(wanted);
    Ok(Solved { values, wanted })
}
