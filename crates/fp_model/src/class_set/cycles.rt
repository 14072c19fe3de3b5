//! Cycles of superclasses.
ghost use Rattle.std.specs.Prelude.{◌≡◌, ◌<◌, ◌^◌, None, length, map, slice_index_or, option_and_then, IfOk, IfSome, All};
ghost use Rattle.std.specs.List.{range_with_len, list_any};
ghost use Rattle.fp_model.specs.ClassSet.{class_named, superclass_of, cycle_marks, is_number};

use crate::class::{Class, ClassId};
use std::alloc::{AllocError, Global};

/// Marks the classes on a cycle of superclasses: where each class is replaced by its superclass as many
/// times as there are classes, or more, these are left and no others.
pub fn mark_cycles(
    alloc: Global,
    classes: &[Class],
    index: &[Option<ClassId>],
) -> Result<Vec<bool>, AllocError>
    requires few { length classes.now < 2 ^ 32 }
    requires parents { All (λ c. IfSome c.parent (λ name. name < length index.now)) classes.now }
    requires index { index.now ≡ map (class_named classes.now) (range_with_len 0 (length index.now)) }
    ensures { IfOk result (λ marks. marks.items ≡ cycle_marks classes.now) }
{
    let mut reached = superclasses(alloc, classes, index)?;
    let mut steps = 1;
    while steps < classes.len() {
        reached = doubled(alloc, reached.as_slice())?;
        steps *= 2;
    }
    mark_reached(alloc, reached.as_slice())
}

// The superclass of a class.
fn superclass(class: &Class, index: &[Option<ClassId>]) -> Option<ClassId>
    requires { IfSome class.now.parent (λ name. name < length index.now) }
    ensures { result ≡ option_and_then (λ name. slice_index_or index.now name None) class.now.parent }
{
    match class.parent {
        Some(name) => index[name as usize],
        None => None,
    }
}

// The superclass of each class.
fn superclasses(
    alloc: Global,
    classes: &[Class],
    index: &[Option<ClassId>],
) -> Result<Vec<Option<ClassId>>, AllocError>
    requires parents { All (λ c. IfSome c.parent (λ name. name < length index.now)) classes.now }
    requires index { index.now ≡ map (class_named classes.now) (range_with_len 0 (length index.now)) }
    ensures { IfOk result (λ supers. supers.items ≡ map (superclass_of classes.now) (range_with_len 0 (length classes.now))) }
{
    let mut supers = Vec::with_capacity(alloc, classes.len())?;
    for class in classes {
        supers.push(superclass(class, index))?;
    }
    Ok(supers)
}

// Where twice as many steps lead.
fn doubled(alloc: Global, reached: &[Option<ClassId>]) -> Result<Vec<Option<ClassId>>, AllocError>
    requires { All (λ to. IfSome to (λ id. id < length reached.now)) reached.now }
    ensures { IfOk result (λ further. further.items
        ≡ map (λ to. option_and_then (λ id. slice_index_or reached.now id None) to) reached.now) }
{
    let mut further = Vec::with_capacity(alloc, reached.len())?;
    for to in reached {
        let next = match *to {
            Some(id) => reached[id as usize],
            None => None,
        };
        further.push(next)?;
    }
    Ok(further)
}

// Marks the classes that steps lead to.
fn mark_reached(alloc: Global, reached: &[Option<ClassId>]) -> Result<Vec<bool>, AllocError>
    requires { All (λ to. IfSome to (λ id. id < length reached.now)) reached.now }
    ensures { IfOk result (λ marks. marks.items
        ≡ map (λ id. list_any (is_number id) reached.now) (range_with_len 0 (length reached.now))) }
{
    let mut marks = vec![in alloc; false; reached.len()]?;
    for to in reached {
        if let Some(id) = *to {
            marks[id as usize] = true;
        }
    }
    Ok(marks)
}
