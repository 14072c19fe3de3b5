//! What the cells of a set would be, told without making them: how many places they take, and which items name one.
ghost use Rattle.std.specs.Prelude.{◌≡◌, ◌+◌, ◌++◌, ◌∷◌, [], List, if◌then◌else◌, IfOk, OnOk};
ghost use Rattle.fp_cells.specs.Cells.{Cell};
ghost use Rattle.fp_cells.specs.Entities.{IsEntityOf};
ghost use Rattle.fp_model.specs.ClassSet.{methods_of};
ghost use Rattle.fp_system.specs.Java.{class_cells, field_cells, java_cells, lacks, method_cells};
ghost use Rattle.fp_system.specs.Kinds.{method_bits, method_has};
ghost use Rattle.fp_system.specs.Surveys.{HasSurveyed, told_places};

use crate::cells::{ClassProperty, DECLARED, IMMUT, INST, TIMMUT, count_bits, has_method_cell};
use crate::limits::MOST_PLACES;
use crate::words::shown::{ShownItems, mark};
use fp_base::Names;
use fp_cells::{Entity, KindId, count_places};
use fp_model::{Class, ClassId, ClassSet, Method, MethodId};
use std::alloc::{AllocError, Global};

/// How many places cells take, and which shown items name one of them.
#[derive(Drop)]
pub struct Survey {
    /// How many places: one more than a system may have stands for any number above that, too.
    pub places: u64,
    /// The items that name a cell.
    pub found: Names,
    // Room for the text of a cell.
    text: Vec<u8>,
}

/// Looks at each cell that the set has, kind by kind, and makes none.
pub fn survey_cells(alloc: Global, set: &ClassSet, show: &ShownItems) -> Result<Survey, AllocError>
    ensures { IfOk result (λ s. HasSurveyed set.now show.now.items.texts s.places s.found (java_cells set.now.classes)) }
{
    let mut survey = Survey {
        places: 0,
        found: Names::new(alloc),
        text: Vec::new(alloc),
    };
    survey_classes(alloc, set, DECLARED, show, &mut survey)?;
    survey_classes(alloc, set, INST, show, &mut survey)?;
    survey_methods(alloc, set, KindId::Reach, show, &mut survey)?;
    survey_fields(alloc, set, KindId::Assign, 1, show, &mut survey)?;
    survey_classes(alloc, set, IMMUT, show, &mut survey)?;
    survey_classes(alloc, set, TIMMUT, show, &mut survey)?;
    survey_methods(alloc, set, KindId::Fresh, show, &mut survey)?;
    survey_methods(alloc, set, KindId::Leak, show, &mut survey)?;
    survey_methods(alloc, set, KindId::Purity, show, &mut survey)?;
    Ok(survey)
}

// Looks at the cell of each class that has the property.
fn survey_classes(
    alloc: Global,
    set: &ClassSet,
    property: ClassProperty,
    show: &ShownItems,
    survey: &mut Survey,
) -> Result<(), AllocError>
    ensures { OnOk result ((before : List Cell) → HasSurveyed set.now show.now.items.texts survey.old.places survey.old.found before
        → HasSurveyed set.now show.now.items.texts survey.new.places survey.new.found
        (before ++ class_cells property.kind property.bits (lacks property.without) 0 set.now.classes)) }
{
    let (classes, _, _) = set.counts();
    for id in 0..classes {
        let class = set.class(id);
        survey_class(alloc, set, class, id, property, show, survey)?;
    }
    Ok(())
}

fn survey_class(
    alloc: Global,
    set: &ClassSet,
    class: &Class,
    id: ClassId,
    property: ClassProperty,
    show: &ShownItems,
    survey: &mut Survey,
) -> Result<(), AllocError>
    requires { IsEntityOf set.now (Entity.Class id) }
    ensures { OnOk result ((before : List Cell) → HasSurveyed set.now show.now.items.texts survey.old.places survey.old.found before
        → HasSurveyed set.now show.now.items.texts survey.new.places survey.new.found
        (before ++ (if lacks property.without class.now then record { kind = property.kind; entity = Entity.Class id; bits = property.bits } ∷ [] else []))) }
{
    if class.flags & property.without != 0 {
        return Ok(());
    }
    let ClassProperty { kind, bits, .. } = property;
    survey_cell(alloc, set, kind, Entity::Class(id), bits, show, survey)
}

// Looks at a cell of the kind for each field.
fn survey_fields(
    alloc: Global,
    set: &ClassSet,
    kind: KindId,
    bits: u32,
    show: &ShownItems,
    survey: &mut Survey,
) -> Result<(), AllocError>
    ensures { OnOk result ((before : List Cell) → HasSurveyed set.now show.now.items.texts survey.old.places survey.old.found before
        → HasSurveyed set.now show.now.items.texts survey.new.places survey.new.found (before ++ field_cells kind bits set.now.classes)) }
{
    let (_, fields, _) = set.counts();
    for id in 0..fields {
        survey_cell(alloc, set, kind, Entity::Field(id), bits, show, survey)?;
    }
    Ok(())
}

// Looks at a cell of the kind for each method that has one.
fn survey_methods(
    alloc: Global,
    set: &ClassSet,
    kind: KindId,
    show: &ShownItems,
    survey: &mut Survey,
) -> Result<(), AllocError>
    ensures { OnOk result ((before : List Cell) → HasSurveyed set.now show.now.items.texts survey.old.places survey.old.found before
        → HasSurveyed set.now show.now.items.texts survey.new.places survey.new.found
        (before ++ method_cells kind (method_bits kind) (method_has kind) 0 (methods_of set.now.classes))) }
{
    let (_, _, methods) = set.counts();
    for id in 0..methods {
        let method = set.method(id);
        survey_method(alloc, set, method, id, kind, show, survey)?;
    }
    Ok(())
}

fn survey_method(
    alloc: Global,
    set: &ClassSet,
    method: &Method,
    id: MethodId,
    kind: KindId,
    show: &ShownItems,
    survey: &mut Survey,
) -> Result<(), AllocError>
    requires { IsEntityOf set.now (Entity.Method id) }
    ensures { OnOk result ((before : List Cell) → HasSurveyed set.now show.now.items.texts survey.old.places survey.old.found before
        → HasSurveyed set.now show.now.items.texts survey.new.places survey.new.found
        (before ++ (if method_has kind method.now then record { kind = kind; entity = Entity.Method id; bits = method_bits kind method.now } ∷ [] else []))) }
{
    if !has_method_cell(method, kind) {
        return Ok(());
    }
    let bits = count_bits(method, kind)?;
    survey_cell(alloc, set, kind, Entity::Method(id), bits, show, survey)
}

// Looks at a cell of so many bits.
fn survey_cell(
    alloc: Global,
    set: &ClassSet,
    kind: KindId,
    entity: Entity,
    bits: u32,
    show: &ShownItems,
    survey: &mut Survey,
) -> Result<(), AllocError>
    requires { IsEntityOf set.now entity }
    ensures { OnOk result ((before : List Cell) → HasSurveyed set.now show.now.items.texts survey.old.places survey.old.found before
        → HasSurveyed set.now show.now.items.texts survey.new.places survey.new.found
        (before ++ record { kind = kind; entity = entity; bits = bits } ∷ [])) }
{
    mark(
        alloc,
        set,
        kind,
        entity,
        show,
        &mut survey.text,
        &mut survey.found,
    )?;
    survey.places = add_places(survey.places, u64::from(count_places(bits)));
    Ok(())
}

// So many places more.
fn add_places(count: u64, more: u64) -> u64
    ensures { result ≡ told_places (count + more) }
{
    count.saturating_add(more).min(MOST_PLACES + 1)
}
