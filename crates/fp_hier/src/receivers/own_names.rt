//! The names that a class goes by.
ghost use Rattle.std.specs.Prelude.{◌≡◌, ◌<◌, ◌∷◌, ◌++◌, Some, length, slice_get, IfOk, OnOk};
ghost use Rattle.std.specs.List.{flat_map};
ghost use Rattle.fp_model.specs.declared.class.Class.{Class};
ghost use Rattle.fp_facts.specs.Hierarchy.{superclasses, superinterfaces_at};
ghost use Rattle.fp_hier.specs.Lineages.{classes_up};
ghost use Rattle.fp_hier.specs.Marks as marks;
ghost use Rattle.fp_hier.specs.Lists.{AreListsOf};

use crate::lineage::{Lineage, superclass_name};
use crate::superinterfaces::Superinterfaces;
use fp_model::{Class, ClassId, ClassSet};
use std::alloc::{AllocError, Global};

/// A class's name and those of its ancestors: its superclasses from the nearest up, and then the superinterfaces of all of these.
pub(crate) fn own_names(
    alloc: Global,
    set: &ClassSet,
    superinterfaces: &Superinterfaces,
    class: ClassId,
) -> Result<Vec<u32>, AllocError>
    requires class { class < length set.now.classes }
    requires lists { AreListsOf set.now.classes superinterfaces.now }
    ensures { IfOk result (λ names. (c : Class) → slice_get set.now.classes class ≡ Some c → names.items ≡ marks.own_names set.now.classes c) }
{
    let mut names = Vec::new(alloc);
    let own = set.class(class);
    names.push(own.name)?;
    push_superclasses(&mut names, set, own)?;
    push_superinterfaces(&mut names, set, superinterfaces, class)?;
    Ok(names)
}

// Adds the names of the superclasses of a class.
fn push_superclasses(names: &mut Vec<u32>, set: &ClassSet, class: &Class) -> Result<(), AllocError>
    ensures { OnOk result (names.new.items ≡ names.old.items ++ superclasses set.now.classes class.now) }
{
    let (classes, _fields, _methods) = set.counts();
    let mut above = class.parent;
    for _ in 0..classes {
        let Some(parent) = above else {
            return Ok(());
        };
        names.push(parent)?;
        above = superclass_name(set, parent);
    }
    Ok(())
}

// Adds those of the superinterfaces of a class and of the classes above it.
fn push_superinterfaces(
    names: &mut Vec<u32>,
    set: &ClassSet,
    superinterfaces: &Superinterfaces,
    class: ClassId,
) -> Result<(), AllocError>
    requires class { class < length set.now.classes }
    requires lists { AreListsOf set.now.classes superinterfaces.now }
    ensures { OnOk result (names.new.items ≡ names.old.items ++ flat_map (superinterfaces_at set.now.classes) (classes_up set.now.classes class)) }
{
    let mut rest = Lineage::of(set, class);
    while let Some(id) = rest.step(set) {
        names.extend_from_slice(superinterfaces.of(id))?;
    }
    Ok(())
}
