//! The marks that classes have in the rows of the names that they go by.
ghost use Rattle.std.specs.Prelude.{◌≡◌, ◌<◌, ◌+◌, ◌==◌, ◌&&◌, length};
ghost use Rattle.fp_hier.specs.BitRows.{HoldsRows, Marks};
ghost use Rattle.fp_hier.specs.Marks.{marks, marks_any, marks_outside};

use crate::bit_rows::BitRows;
use crate::texts::{is_array_name, is_object};
use fp_model::{ClassId, ClassSet};

/// How many rows there are for names outside the set, behind those of its classes.
pub(super) const ROWS_OUTSIDE: usize = 3;

/// Of these the row of the classes with an ancestor outside the set that is not `java/lang/Object`.
pub(super) const OUTSIDE: usize = 0;

/// That of the classes with any ancestor outside the set.
pub(super) const OBJECTS: usize = 1;

/// That of the classes with an array among their ancestors.
pub(super) const ARRAYS: usize = 2;

/// Marks a class in the rows of names that it goes by.
pub(super) fn mark_names(rows: &mut BitRows, set: &ClassSet, class: ClassId, names: &[u32])
    requires holds { HoldsRows rows.old }
    requires class { class < length set.now.classes }
    requires rows { rows.old.rows ≡ length set.now.classes + 3 }
    requires columns { rows.old.columns ≡ length set.now.classes }
    ensures { Marks class (λ row. marks_any set.now row names.now) rows.old rows.new }
{
    for name in names {
        mark_name(rows, set, class, *name);
    }
}

/// Marks a class in the rows of one name.
pub(super) fn mark_name(rows: &mut BitRows, set: &ClassSet, class: ClassId, name: u32)
    requires holds { HoldsRows rows.old }
    requires class { class < length set.now.classes }
    requires rows { rows.old.rows ≡ length set.now.classes + 3 }
    requires columns { rows.old.columns ≡ length set.now.classes }
    ensures { Marks class (λ row. marks set.now row name) rows.old rows.new }
{
    let names = set.names();
    let (classes, _fields, _methods) = set.counts();
    match set.find_class(name) {
        Some(id) => rows.set(id as usize, class as usize),
        None => mark_outside(
            rows,
            classes,
            class as usize,
            is_object(names, name),
            is_array_name(names, name),
        ),
    }
}

// Marks a class in the rows of one name outside the set, which stand behind the others.
fn mark_outside(rows: &mut BitRows, classes: u32, class: usize, is_object: bool, is_array: bool)
    requires holds { HoldsRows rows.old }
    requires rows { rows.old.rows ≡ classes + 3 }
    requires class { class < rows.old.columns }
    ensures { Marks class (marks_outside classes is_object is_array) rows.old rows.new }
{
    let first = classes as usize;
    mark(rows, first + OUTSIDE, class, !is_object);
    mark(rows, first + OBJECTS, class, true);
    mark(rows, first + ARRAYS, class, is_array);
}

// Marks a class in a row, or doesn't.
fn mark(rows: &mut BitRows, row: usize, class: usize, marked: bool)
    requires holds { HoldsRows rows.old }
    requires row { row < rows.old.rows }
    requires class { class < rows.old.columns }
    ensures { Marks class (λ r. (r == row) && marked) rows.old rows.new }
{
    if marked {
        rows.set(row, class);
    }
}
