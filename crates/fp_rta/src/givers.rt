//! The tasks of the roots and of the methods.
ghost use Rattle.std.specs.Prelude.{◌≡◌, ◌<◌, ◌∷◌, ◌^◌, All, length, map, Some, None, IfOk};
ghost use Rattle.std.specs.List.{flat_map, range_with_len};
ghost use Rattle.std.specs.Option.{option_to_list};
ghost use Rattle.fp_model.specs.ClassSet.{methods_of};
ghost use Rattle.fp_facts.specs.Resolution.{class_of_method};
ghost use Rattle.fp_hier.specs.Hierarchies.{IsHierOf};
ghost use Rattle.fp_rta.specs.CallGraph.{begun_with, initialiser};
ghost use Rattle.fp_rta.specs.Meaning as rows;
ghost use Rattle.fp_rta.specs.Meaning.{AreGiversShort};

use crate::giver::Giver;
use crate::initialiser::{initialiser_table, push_initialisers};
use crate::places::{push_inst_places, push_reach_places, reach_at};
use fp_cells::Cells;
use fp_extract::{begun_from, initialiser_flags};
use fp_facts::{Facts, MethodFacts};
use fp_hier::{Hier, ascending};
use fp_model::{ClassId, ClassSet, MethodId};
use sqlite_items::Items;
use std::alloc::{AllocError, Global};

/// The task of the roots, and that of each method with code.
pub(crate) fn givers(
    alloc: Global,
    set: &ClassSet,
    hier: &Hier,
    facts: &Facts,
    cells: &Cells,
) -> Result<Vec<Giver>, AllocError>
    requires hier { IsHierOf set.now hier.now }
    requires roots { All (λ root. root < length (methods_of set.now.classes)) facts.now.roots }
    ensures givers { IfOk result (λ givers. givers.items ≡ rows.root_row set.now facts.now cells.now ∷ map (rows.body_row set.now cells.now) facts.now.methods) }
    ensures short { IfOk result (λ givers. AreGiversShort givers.items) }
{
    let table = initialiser_table(alloc, set)?;
    let root = root_giver(alloc, set, hier, facts, cells, table.as_slice())?;
    let mut givers = Vec::new(alloc);
    givers.push(root)?;
    for method in facts.methods.as_slice() {
        givers.push(body_giver(alloc, set, cells, table.as_slice(), method)?)?;
    }
    Ok(givers)
}

// The task of the roots.
fn root_giver(
    alloc: Global,
    set: &ClassSet,
    hier: &Hier,
    facts: &Facts,
    cells: &Cells,
    table: &[Option<MethodId>],
) -> Result<Giver, AllocError>
    requires hier { IsHierOf set.now hier.now }
    requires roots { All (λ root. root < length (methods_of set.now.classes)) facts.now.roots }
    requires table { table.now ≡ map (initialiser set.now) (range_with_len 0 (length set.now.classes)) }
    ensures giver { IfOk result (λ giver. giver ≡ rows.root_row set.now facts.now cells.now) }
    ensures short { IfOk result (λ giver. length giver.places < 2 ^ 32) }
{
    let roots = facts.roots.as_slice();
    let begun = begun_with(alloc, set, hier, roots)?;
    let mut places = Vec::new(alloc);
    push_reach_places(&mut places, cells, roots)?;
    push_initialisers(&mut places, set, cells, table, begun.as_slice())?;
    push_inst_places(&mut places, cells, facts.seeds.as_slice())?;
    giver(None, places)
}

// The task of a method.
fn body_giver(
    alloc: Global,
    set: &ClassSet,
    cells: &Cells,
    table: &[Option<MethodId>],
    method: &MethodFacts,
) -> Result<Giver, AllocError>
    requires { table.now ≡ map (initialiser set.now) (range_with_len 0 (length set.now.classes)) }
    ensures giver { IfOk result (λ giver. giver ≡ rows.body_row set.now cells.now method.now) }
    ensures short { IfOk result (λ giver. length giver.places < 2 ^ 32) }
{
    let mut places = Vec::new(alloc);
    push_inst_places(&mut places, cells, method.news.as_slice())?;
    push_initialisers(&mut places, set, cells, table, method.begins.as_slice())?;
    giver(Some(reach_at(cells, method.method)), places)
}

// A task that gives to places. More of them than have numbers would be want of memory.
fn giver(trigger: Option<u32>, places: Vec<u32>) -> Result<Giver, AllocError>
    ensures giver { IfOk result (λ giver. giver ≡ record { trigger = trigger; places = places.items }) }
    ensures short { IfOk result (λ giver. length giver.places < 2 ^ 32) }
{
    if places.len() > u32::MAX as usize {
        return Err(AllocError);
    }
    Ok(Giver {
        trigger,
        places: Items::from_vec(places),
    })
}

// The classes with an initialiser among those that declare some methods, and their ancestors in the set, ascending.
fn begun_with(
    alloc: Global,
    set: &ClassSet,
    hier: &Hier,
    methods: &[MethodId],
) -> Result<Vec<ClassId>, AllocError>
    requires hier { IsHierOf set.now hier.now }
    requires methods { All (λ method. method < length (methods_of set.now.classes)) methods.now }
    ensures { IfOk result (λ begun. begun.items ≡ begun_with set.now methods.now) }
{
    let flags = initialiser_flags(alloc, set)?;
    let classes = ascending(declaring(alloc, set, methods)?);
    let begun = begun_from(alloc, set, hier, flags.as_slice(), classes.as_slice())?;
    Ok(ascending(begun))
}

// The class that declares each of some methods.
fn declaring(
    alloc: Global,
    set: &ClassSet,
    methods: &[MethodId],
) -> Result<Vec<ClassId>, AllocError>
    requires { All (λ method. method < length (methods_of set.now.classes)) methods.now }
    ensures classes { IfOk result (λ classes. classes.items ≡ flat_map (λ m. option_to_list (class_of_method set.now.classes m)) methods.now) }
    ensures known { IfOk result (λ classes. All (λ class. class < length set.now.classes) classes.items) }
{
    let mut classes = Vec::with_capacity(alloc, methods.len())?;
    for method in methods {
        classes.push(set.class_of_method(*method))?;
    }
    Ok(classes)
}
