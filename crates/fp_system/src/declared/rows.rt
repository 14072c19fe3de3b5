//! The equations of the classes of a set.
ghost use Rattle.std.specs.Prelude.{◌≡◌, ◌<◌, ◌==◌, Some, false, length, slice_get, bit_and, map, IfOk};
ghost use Rattle.std.specs.List.{list_any, range_with_len};
ghost use Rattle.std.specs.Option.{option_and_then};
ghost use Rattle.fp_cells.specs.Cells.{first_place};
ghost use Rattle.fp_model.specs.ClassSet.{superclass_of};
ghost use Rattle.fp_system.specs.ClassEquations.{class_task, class_tasks, extends_outside, is_open_alone, is_open_field};

use crate::declared::ClassTask;
use fp_cells::{Cells, Entity, KindId};
use fp_model::flags::{ACC_FINAL, ACC_STATIC};
use fp_model::{Class, ClassId, ClassSet, name_text};
use std::alloc::{AllocError, Global};

/// The access flags of a field that no object has of its own, or that is written once at most (JVMS SE 21 section 4.5).
const STATIC_OR_FINAL: u16 = ACC_STATIC | ACC_FINAL;

/// The name of the class that every other one has above it.
const OBJECT: &[u8] = b"java/lang/Object";

/// The equation of each class, in the order of the classes.
pub fn class_rows(
    alloc: Global,
    set: &ClassSet,
    cells: &Cells,
) -> Result<Vec<ClassTask>, AllocError>
    ensures { IfOk result (λ rows. rows.items ≡ class_tasks set.now cells.now) }
{
    let (classes, _, _) = set.counts();
    let mut rows = Vec::new(alloc);
    for id in 0..classes {
        rows.push(class_row(set, cells, id))?;
    }
    Ok(rows)
}

fn class_row(set: &ClassSet, cells: &Cells, id: ClassId) -> ClassTask
    requires { id < length set.now.classes }
    ensures { result ≡ class_task set.now cells.now id }
{
    let class = set.class(id);
    ClassTask {
        place: cells.find(KindId::Declared, Entity::Class(id)).unwrap_or(0),
        parent: parent_place(set, cells, id),
        is_open: is_open_alone(set, class),
    }
}

// The place of the superclass, where that is in the set.
fn parent_place(set: &ClassSet, cells: &Cells, id: ClassId) -> Option<u32>
    requires { id < length set.now.classes }
    ensures { result ≡ option_and_then (λ s. first_place cells.now KindId.Declared (Entity.Class s)) (superclass_of set.now.classes id) }
{
    let class = set.class(id);
    let parent = set.find_class(class.parent?)?;
    cells.find(KindId::Declared, Entity::Class(parent))
}

// Whether a class has a field of each object that isn't final, or a superclass outside the set but `java/lang/Object`.
fn is_open_alone(set: &ClassSet, class: &Class) -> bool
    ensures { result ≡ is_open_alone set.now class.now }
{
    declares_open_field(class) || extends_outside(set, class)
}

fn declares_open_field(class: &Class) -> bool
    ensures { result ≡ list_any is_open_field class.now.fields }
{
    class
        .fields
        .as_slice()
        .iter()
        .any(|field| field.flags & STATIC_OR_FINAL == 0)
}

fn extends_outside(set: &ClassSet, class: &Class) -> bool
    ensures { result ≡ extends_outside set.now class.now }
{
    match class.parent {
        Some(parent) => {
            set.find_class(parent).is_none() && name_text(set.names(), parent) != OBJECT
        }
        None => false,
    }
}
