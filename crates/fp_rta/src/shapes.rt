//! What the calls of each reference share.
ghost use Rattle.std.specs.Prelude.{◌≡◌, ◌+◌, ◌*◌, ◌<◌, ◌^◌, length, map, IfOk};
ghost use Rattle.fp_rta.specs.CallGraph as defined;
ghost use Rattle.fp_rta.specs.Contributions.{sources_of};
ghost use Rattle.fp_rta.specs.Meaning.{AreShapesShort, IsShapeShort};

use crate::candidate::Candidate;
use crate::candidates::candidates;
use crate::site::Shape;
use fp_cells::Cells;
use fp_facts::CallTargets;
use sqlite_items::Items;
use std::alloc::{AllocError, Global};

/// The most candidates whose contributions a task's bound can tell.
const MOST_CANDIDATES: usize = 0x7FFF_FFFF;

/// The candidates of the calls of each reference.
pub(crate) fn shapes(
    alloc: Global,
    cells: &Cells,
    calls: &[CallTargets],
) -> Result<Vec<Shape>, AllocError>
    ensures shapes { IfOk result (λ v. map (λ s. s.candidates) v.items ≡ map (defined.candidates cells.now) calls.now) }
    ensures short { IfOk result (λ v. AreShapesShort v.items) }
{
    let mut shapes = Vec::with_capacity(alloc, calls.len())?;
    for call in calls {
        shapes.push(shape(alloc, cells, call)?)?;
    }
    Ok(shapes)
}

// Those of a reference.
fn shape(alloc: Global, cells: &Cells, call: &CallTargets) -> Result<Shape, AllocError>
    ensures candidates { IfOk result (λ s. s.candidates ≡ defined.candidates cells.now call.now) }
    ensures short { IfOk result IsShapeShort }
{
    let candidates = candidates(alloc, cells, call)?;
    if candidates.len() > MOST_CANDIDATES {
        return Err(AllocError);
    }
    let asks = count_asks(candidates.as_slice())?;
    Ok(Shape {
        candidates: Items::from_vec(candidates),
        asks,
    })
}

// How many places a call asks at most: its trigger, and those of its classes.
fn count_asks(candidates: &[Candidate]) -> Result<u32, AllocError>
    ensures { IfOk result (λ asks. asks ≡ length (sources_of candidates.now) + 1) }
{
    let mut asks = 1;
    for candidate in candidates {
        asks = more_asks(asks, candidate.sources.len())?;
    }
    Ok(asks)
}

fn more_asks(asks: u32, more: usize) -> Result<u32, AllocError>
    ensures { IfOk result (λ sum. sum ≡ asks + more) }
{
    let Ok(more) = u32::try_from(more) else {
        return Err(AllocError);
    };
    match asks.checked_add(more) {
        Some(sum) => Ok(sum),
        None => Err(AllocError),
    }
}
