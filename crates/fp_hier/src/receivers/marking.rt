//! The marks of all classes, each made from those of its superclass.
ghost use Rattle.std.specs.Prelude.{◌≡◌, ◌<◌, ◌+◌, ℕ, ◌||◌, All, Some, false, length, slice_get, slice_index_or, true, IfOk, IfSome, OnOk};
ghost use Rattle.fp_model.specs.declared.class.Class.{Class};
ghost use Rattle.fp_model.specs.ClassSet.{IsSet, superclass_of};
ghost use Rattle.fp_facts.specs.Hierarchy.{superinterfaces_at};
ghost use Rattle.fp_hier.specs.BitRows.{HoldsRows, Marks};
ghost use Rattle.fp_hier.specs.Marks.{AreAllMarked, AreMarked, marks, marks_any, own_names as names_of};
ghost use Rattle.fp_hier.specs.Lists.{AreListsOf};

use super::marks::{ROWS_OUTSIDE, mark_name, mark_names};
use super::own_names::own_names;
use crate::bit_rows::BitRows;
use crate::lineage::{Lineage, superclass};
use crate::superinterfaces::Superinterfaces;
use fp_model::{ClassId, ClassSet};
use std::alloc::{AllocError, Global};

/// The marks of all classes in the rows of the names that they go by. Superclasses come first, so that their marks are there.
pub(super) fn marked_rows(
    alloc: Global,
    set: &ClassSet,
    superinterfaces: &Superinterfaces,
) -> Result<BitRows, AllocError>
    requires { AreListsOf set.now.classes superinterfaces.now }
    ensures { IfOk result (AreAllMarked set.now) }
{
    let (classes, _fields, _methods) = set.counts();
    let count = classes as usize;
    let mut rows = BitRows::new(alloc, count + ROWS_OUTSIDE, count)?;
    let mut marked = vec![in alloc; false; count]?;
    for class in 0..classes {
        let waiting = unmarked_up(alloc, set, &marked, class)?;
        mark_down(
            alloc,
            &mut rows,
            &mut marked,
            set,
            superinterfaces,
            waiting.as_slice(),
        )?;
        mark_class(alloc, &mut rows, &mut marked, set, superinterfaces, class)?;
    }
    Ok(rows)
}

// A class and those above it, as far as none is marked.
fn unmarked_up(
    alloc: Global,
    set: &ClassSet,
    marked: &Vec<bool>,
    class: ClassId,
) -> Result<Vec<ClassId>, AllocError>
    requires class { class < length set.now.classes }
    requires long { length marked.now.items ≡ length set.now.classes }
    ensures { IfOk result (λ ids. All (λ id. id < length set.now.classes) ids.items) }
{
    let mut ids = Vec::new(alloc);
    let mut rest = Lineage::of(set, class);
    while let Some(id) = rest.step(set) {
        if marked[id as usize] {
            return Ok(ids);
        }
        ids.push(id)?;
    }
    Ok(ids)
}

// Marks some classes, the last of them first.
fn mark_down(
    alloc: Global,
    rows: &mut BitRows,
    marked: &mut Vec<bool>,
    set: &ClassSet,
    superinterfaces: &Superinterfaces,
    classes: &[ClassId],
) -> Result<(), AllocError>
    requires lists { AreListsOf set.now.classes superinterfaces.now }
    requires marked { AreMarked set.now marked.old.items rows.old }
    requires classes { All (λ id. id < length set.now.classes) classes.now }
    ensures marked { OnOk result (AreMarked set.now marked.new.items rows.new) }
    ensures kept { OnOk result ((k : ℕ) → slice_index_or marked.old.items k false ≡ true → slice_index_or marked.new.items k false ≡ true) }
{
    for at in (0..classes.len()).rev() {
        mark_class(alloc, rows, marked, set, superinterfaces, classes[at])?;
    }
    Ok(())
}

// Marks a class, unless it is marked.
fn mark_class(
    alloc: Global,
    rows: &mut BitRows,
    marked: &mut Vec<bool>,
    set: &ClassSet,
    superinterfaces: &Superinterfaces,
    class: ClassId,
) -> Result<(), AllocError>
    requires lists { AreListsOf set.now.classes superinterfaces.now }
    requires marked { AreMarked set.now marked.old.items rows.old }
    requires class { class < length set.now.classes }
    ensures marked { OnOk result (AreMarked set.now marked.new.items rows.new) }
    ensures kept { OnOk result ((k : ℕ) → slice_index_or marked.old.items k false ≡ true → slice_index_or marked.new.items k false ≡ true) }
    ensures here { OnOk result (slice_index_or marked.new.items class false ≡ true) }
{
    if marked[class as usize] {
        return Ok(());
    }
    mark_unmarked(alloc, rows, marked, set, superinterfaces, class)?;
    marked[class as usize] = true;
    Ok(())
}

// Marks a class by its superclass, if that is marked, and else by all names that it goes by.
fn mark_unmarked(
    alloc: Global,
    rows: &mut BitRows,
    marked: &Vec<bool>,
    set: &ClassSet,
    superinterfaces: &Superinterfaces,
    class: ClassId,
) -> Result<(), AllocError>
    requires lists { AreListsOf set.now.classes superinterfaces.now }
    requires marked { AreMarked set.now marked.now.items rows.old }
    requires class { class < length set.now.classes }
    ensures { OnOk result ((c : Class) → slice_get set.now.classes class ≡ Some c
        → Marks class (λ row. marks_any set.now row (names_of set.now.classes c)) rows.old rows.new) }
{
    if let Some(above) = marked_superclass(set, marked, class) {
        rows.join(class as usize, above as usize);
        mark_own(rows, set, superinterfaces, class);
        return Ok(());
    }
    let names = own_names(alloc, set, superinterfaces, class)?;
    mark_names(rows, set, class, names.as_slice());
    Ok(())
}

// The superclass of a class, where it is in the set and marked.
fn marked_superclass(set: &ClassSet, marked: &Vec<bool>, class: ClassId) -> Option<ClassId>
    requires class { class < length set.now.classes }
    requires long { length marked.now.items ≡ length set.now.classes }
    ensures set { IsSet set.now }
    ensures above { IfSome result (λ above. superclass_of set.now.classes class ≡ Some above) }
    ensures marked { IfSome result (λ above. slice_index_or marked.now.items above false ≡ true) }
    ensures known { IfSome result (λ above. above < length set.now.classes) }
{
    let above = superclass(set, set.class(class))?;
    if marked[above as usize] {
        return Some(above);
    }
    None
}

// Marks a class in the rows of its own name and those of its superinterfaces.
fn mark_own(rows: &mut BitRows, set: &ClassSet, superinterfaces: &Superinterfaces, class: ClassId)
    requires lists { AreListsOf set.now.classes superinterfaces.now }
    requires holds { HoldsRows rows.old }
    requires class { class < length set.now.classes }
    requires rows { rows.old.rows ≡ length set.now.classes + 3 }
    requires columns { rows.old.columns ≡ length set.now.classes }
    ensures { (c : Class) → slice_get set.now.classes class ≡ Some c
        → Marks class (λ row. marks set.now row c.name || marks_any set.now row (superinterfaces_at set.now.classes class)) rows.old rows.new }
{
    mark_name(rows, set, class, set.class(class).name);
    mark_names(rows, set, class, superinterfaces.of(class));
}
