//! The initialisers of classes.
ghost use Rattle.std.specs.Prelude.{◌≡◌, ◌<◌, [], ◌∷◌, ◌++◌, None, length, map, option_and_then, position, slice_index_or, IfOk, OnOk};
ghost use Rattle.std.specs.List.{range_with_len};
ghost use Rattle.fp_facts.specs.Initialisation.{is_initialiser};
ghost use Rattle.fp_rta.specs.CallGraph.{initialiser, initialisers};
ghost use Rattle.fp_rta.specs.Places as defined;
ghost use Rattle.fp_rta.specs.Places.{reach_places};

use crate::places::{push_place, reach_place};
use fp_base::Names;
use fp_cells::Cells;
use fp_extract::is_initialiser;
use fp_model::{ClassId, ClassSet, Method, MethodId};
use std::alloc::{AllocError, Global};

/// The initialiser of each class, where it has one (JVMS SE 21 section 2.9.2).
pub(crate) fn initialiser_table(
    alloc: Global,
    set: &ClassSet,
) -> Result<Vec<Option<MethodId>>, AllocError>
    ensures { IfOk result (λ table. table.items ≡ map (initialiser set.now) (range_with_len 0 (length set.now.classes))) }
{
    let (classes, _fields, _methods) = set.counts();
    let mut table = Vec::with_capacity(alloc, classes as usize)?;
    for class in 0..classes {
        table.push(initialiser(set, class))?;
    }
    Ok(table)
}

// The initialiser of a class.
fn initialiser(set: &ClassSet, class: ClassId) -> Option<MethodId>
    requires { class < length set.now.classes }
    ensures { result ≡ initialiser set.now class }
{
    let at = initialiser_among(set.names(), set.class(class).methods.as_slice())?;
    Some(set.first_method(class) + at as u32)
}

// The place of the first of some methods that is the initialiser of its class.
fn initialiser_among(names: &Names, methods: &[Method]) -> Option<usize>
    ensures { result ≡ position (is_initialiser names.now) methods.now }
{
    methods
        .iter()
        .position(|method| is_initialiser(names, method))
}

/// Adds the places of the initialisers of classes, by the table of all initialisers.
pub(crate) fn push_initialisers(
    places: &mut Vec<u32>,
    set: &ClassSet,
    cells: &Cells,
    table: &[Option<MethodId>],
    classes: &[ClassId],
) -> Result<(), AllocError>
    requires { table.now ≡ map (initialiser set.now) (range_with_len 0 (length set.now.classes)) }
    ensures { OnOk result (places.new.items ≡ places.old.items ++ reach_places cells.now (initialisers set.now classes.now)) }
{
    for class in classes {
        push_initialiser(places, set, cells, table, *class)?;
    }
    Ok(())
}

// Adds that of the initialiser of a class.
fn push_initialiser(
    places: &mut Vec<u32>,
    set: &ClassSet,
    cells: &Cells,
    table: &[Option<MethodId>],
    class: ClassId,
) -> Result<(), AllocError>
    requires { table.now ≡ map (initialiser set.now) (range_with_len 0 (length set.now.classes)) }
    ensures { OnOk result (places.new.items ≡ places.old.items ++ reach_places cells.now (initialisers set.now (class ∷ []))) }
{
    let method = listed(table, class);
    push_place(places, place_of(cells, method))
}

// The initialiser of a class by the table.
fn listed(table: &[Option<MethodId>], class: ClassId) -> Option<MethodId>
    ensures { result ≡ slice_index_or table.now class None }
{
    match table.get(class as usize) {
        Some(method) => *method,
        None => None,
    }
}

// The place of a method, if there is one.
fn place_of(cells: &Cells, method: Option<MethodId>) -> Option<u32>
    ensures { result ≡ option_and_then (defined.reach_place cells.now) method }
{
    reach_place(cells, method?)
}
