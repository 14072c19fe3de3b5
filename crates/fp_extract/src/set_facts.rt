//! The facts of a set.
ghost use Rattle.std.specs.Prelude.{◌≡◌, None, All, IfErr, IfOk, OnOk};
ghost use Rattle.fp_model.specs.ClassSet.{methods_of};
ghost use Rattle.fp_model.specs.SoundCode.{IsSoundMethod};
ghost use Rattle.fp_facts.specs.Facts.{facts_of};
ghost use Rattle.fp_facts.specs.Kinded.{IsKindedMethod};
ghost use Rattle.fp_hier.specs.Hierarchies.{IsHierOf};
ghost use Rattle.fp_extract.specs.Refusals.{TellsFault, facts_refusal};
ghost use Rattle.fp_extract.specs.Rooms.{room_after};
ghost use Rattle.fp_extract.specs.Within.{AreCallsKnown};

use crate::fault::FactsFault;
use crate::methods::gather;
use crate::room::Room;
use crate::seed::seeds;
use fp_facts::{Assume, Facts};
use fp_hier::Hier;
use fp_model::{ClassSet, MethodId};
use sqlite_items::Items;
use std::alloc::Global;

/// Makes the facts of a set, for a run that starts at some methods and takes something for granted, and takes what its calls and
/// allocations need of the room.
///
/// Each call and each allocation has a cell. The equation of a call uses whether its method is reached, and each class that it watches;
/// it gives to its own cell and to each target. The first bound that these pass is told: a method with more than 16,777,216 pairs of
/// a frame word and an origin, then the places, the uses and the gives that there is room for. Lists are kept no longer than the room
/// lasts.
pub fn facts(
    alloc: Global,
    set: &ClassSet,
    hier: &Hier,
    roots: Items<MethodId>,
    assume: Assume,
    room: &mut Room,
) -> Result<Facts, FactsFault>
    requires hier { IsHierOf set.now hier.now }
    requires sound { All IsSoundMethod (methods_of set.now.classes) }
    requires kinded { All IsKindedMethod (methods_of set.now.classes) }
    ensures facts { IfOk result (λ facts. facts ≡ facts_of set.now roots assume) }
    ensures known { IfOk result AreCallsKnown }
    ensures accepted { OnOk result (facts_refusal set.now room.old ≡ None) }
    ensures room { OnOk result (room.new ≡ room_after set.now room.old) }
    ensures fault { IfErr result (TellsFault (facts_refusal set.now room.old)) }
{
    let gathered = gather(alloc, set, hier, *room)?;
    let left = gathered.calls.left.room()?;
    let seeds = seeds(alloc, set, roots.as_slice())?;
    let (references, calls) = gathered.calls.into_lists(alloc)?;
    *room = left;
    Ok(Facts {
        references: Items::from_vec(references),
        calls: Items::from_vec(calls),
        methods: Items::from_vec(gathered.methods),
        seeds: Items::from_vec(seeds),
        roots,
        assume,
    })
}
