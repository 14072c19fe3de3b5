//! The places of what is known of classes, methods and calls.
ghost use Rattle.std.specs.Prelude.{◌≡◌, ◌++◌, OnOk};
ghost use Rattle.std.specs.Option.{option_to_list};
ghost use Rattle.fp_rta.specs.Places as defined;

use fp_cells::{Cells, Entity, KindId};
use fp_model::{ClassId, MethodId, SiteId};
use std::alloc::AllocError;

/// The place that tells whether a class has objects. Takes no memory.
pub(crate) fn inst_place(cells: &Cells, class: ClassId) -> Option<u32>
    ensures { result ≡ defined.inst_place cells.now class }
{
    cells.find(KindId::Inst, Entity::Class(class))
}

/// The place that tells whether a method is reached. Takes no memory.
pub(crate) fn reach_place(cells: &Cells, method: MethodId) -> Option<u32>
    ensures { result ≡ defined.reach_place cells.now method }
{
    cells.find(KindId::Reach, Entity::Method(method))
}

/// The place that tells whether a method with code is reached. Takes no memory.
pub(crate) fn reach_at(cells: &Cells, method: MethodId) -> u32
    ensures { result ≡ defined.reach_at cells.now method }
{
    reach_place(cells, method).unwrap_or(0)
}

/// The first place of what a call reaches. Takes no memory.
pub(crate) fn callees_at(cells: &Cells, method: MethodId, pc: u16) -> u32
    ensures { result ≡ defined.callees_at cells.now method pc }
{
    let site = SiteId { method, pc };
    cells.find(KindId::Callees, Entity::Site(site)).unwrap_or(0)
}

/// Adds a place, if there is one.
pub(crate) fn push_place(places: &mut Vec<u32>, place: Option<u32>) -> Result<(), AllocError>
    ensures { OnOk result (places.new.items ≡ places.old.items ++ option_to_list place) }
{
    if let Some(place) = place {
        places.push(place)?;
    }
    Ok(())
}

/// Adds the places of classes.
pub(crate) fn push_inst_places(
    places: &mut Vec<u32>,
    cells: &Cells,
    classes: &[ClassId],
) -> Result<(), AllocError>
    ensures { OnOk result (places.new.items ≡ places.old.items ++ defined.inst_places cells.now classes.now) }
{
    for class in classes {
        push_place(places, inst_place(cells, *class))?;
    }
    Ok(())
}

/// Adds the places of methods.
pub(crate) fn push_reach_places(
    places: &mut Vec<u32>,
    cells: &Cells,
    methods: &[MethodId],
) -> Result<(), AllocError>
    ensures { OnOk result (places.new.items ≡ places.old.items ++ defined.reach_places cells.now methods.now) }
{
    for method in methods {
        push_place(places, reach_place(cells, *method))?;
    }
    Ok(())
}
