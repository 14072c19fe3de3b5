//! Which classes the objects of a reference may be of.
ghost use Rattle.std.specs.Prelude.{◌≡◌, ◌<◌, ◌+◌, true, All, Some, filter, length, slice_get, IfOk};
ghost use Rattle.fp_model.specs.declared.class.Class.{Class};
ghost use Rattle.fp_facts.specs.Hierarchy as hierarchy;
ghost use Rattle.fp_facts.specs.Selection.{receivers};
ghost use Rattle.fp_hier.specs.Receivers.{AreReceiversOf, fits_at, is_marked, marked_in};
ghost use Rattle.fp_hier.specs.Lists.{AreListsOf};

mod marking;
mod marks;
pub(crate) mod own_names;

use crate::bit_rows::BitRows;
use crate::flags::is_concrete;
use crate::superinterfaces::Superinterfaces;
use crate::texts::{is_array_name, is_object};
use fp_model::{ClassId, ClassSet};
use marking::marked_rows;
use marks::{ARRAYS, OBJECTS, OUTSIDE};
use own_names::own_names;
use std::alloc::{AllocError, Global};

/// For each class those that go by its name, and the like for names outside the set.
#[derive(Drop)]
pub(crate) struct Receivers {
    // A row for each class, and behind them those of names outside the set.
    rows: BitRows,
}

impl Receivers {
    /// Marks each class in the rows of the names that it goes by.
    pub(crate) fn build(
        alloc: Global,
        set: &ClassSet,
        superinterfaces: &Superinterfaces,
    ) -> Result<Receivers, AllocError>
        requires { AreListsOf set.now.classes superinterfaces.now }
        ensures { IfOk result (AreReceiversOf set.now) }
    {
        let rows = marked_rows(alloc, set, superinterfaces)?;
        Ok(Receivers { rows })
    }

    /// Whether some ancestor of a class is outside the set, and not `java/lang/Object`. Takes no memory.
    pub(crate) fn has_outside_ancestor(&self, set: &ClassSet, class: ClassId) -> bool
        requires rows { AreReceiversOf set.now self.now }
        requires class { class < length set.now.classes }
        ensures { (c : Class) → slice_get set.now.classes class ≡ Some c → result ≡ hierarchy.has_outside_ancestor set.now c }
    {
        let (classes, _fields, _methods) = set.counts();
        self.rows.has(classes as usize + OUTSIDE, class as usize)
    }

    /// The concrete classes that a receiver of a reference to this name may be of, ascending.
    pub(crate) fn of_reference(
        &self,
        alloc: Global,
        set: &ClassSet,
        superinterfaces: &Superinterfaces,
        name: u32,
    ) -> Result<Vec<ClassId>, AllocError>
        requires rows { AreReceiversOf set.now self.now }
        requires lists { AreListsOf set.now.classes superinterfaces.now }
        ensures { IfOk result (λ ids. ids.items ≡ receivers set.now name) }
    {
        if let Some(id) = set.find_class(name) {
            return self.of_row(alloc, set, id as usize);
        }
        if is_array_name(set.names(), name) {
            return self.of_array(alloc, set, superinterfaces, name);
        }
        let (classes, _fields, _methods) = set.counts();
        let first = classes as usize;
        if is_object(set.names(), name) {
            return self.of_row(alloc, set, first + OBJECTS);
        }
        self.of_row(alloc, set, first + OUTSIDE)
    }

    // The concrete classes with a mark in a row.
    fn of_row(&self, alloc: Global, set: &ClassSet, row: usize) -> Result<Vec<ClassId>, AllocError>
        requires rows { AreReceiversOf set.now self.now }
        requires row { row < length set.now.classes + 3 }
        ensures { IfOk result (λ ids. ids.items ≡ marked_in set.now self.now row) }
    {
        let (classes, _fields, _methods) = set.counts();
        let mut ids = Vec::new(alloc);
        for class in 0..classes {
            if self.is_marked(set, row, class) {
                ids.push(class)?;
            }
        }
        Ok(ids)
    }

    // Whether a class is concrete and has a mark in a row.
    fn is_marked(&self, set: &ClassSet, row: usize, class: ClassId) -> bool
        requires rows { AreReceiversOf set.now self.now }
        requires row { row < length set.now.classes + 3 }
        requires class { class < length set.now.classes }
        ensures { result ≡ is_marked set.now self.now row class }
    {
        self.rows.has(row, class as usize) && is_concrete(set.class(class))
    }

    // The concrete classes that go by the name of a class of arrays. No class of a file does.
    fn of_array(
        &self,
        alloc: Global,
        set: &ClassSet,
        superinterfaces: &Superinterfaces,
        name: u32,
    ) -> Result<Vec<ClassId>, AllocError>
        requires rows { AreReceiversOf set.now self.now }
        requires lists { AreListsOf set.now.classes superinterfaces.now }
        requires outside { hierarchy.is_outside set.now.classes name ≡ true }
        requires array { hierarchy.is_array_name set.now.names name ≡ true }
        ensures { IfOk result (λ ids. ids.items ≡ receivers set.now name) }
    {
        let (classes, _fields, _methods) = set.counts();
        let marked = self.of_row(alloc, set, classes as usize + ARRAYS)?;
        that_go_by(alloc, set, superinterfaces, marked.as_slice(), name)
    }
}

// Those of some classes that go by a name.
fn that_go_by(
    alloc: Global,
    set: &ClassSet,
    superinterfaces: &Superinterfaces,
    classes: &[ClassId],
    name: u32,
) -> Result<Vec<ClassId>, AllocError>
    requires lists { AreListsOf set.now.classes superinterfaces.now }
    requires classes { All (λ class. class < length set.now.classes) classes.now }
    ensures { IfOk result (λ ids. ids.items ≡ filter (fits_at set.now.classes name) classes.now) }
{
    let mut ids = Vec::new(alloc);
    for class in classes {
        if goes_by(alloc, set, superinterfaces, *class, name)? {
            ids.push(*class)?;
        }
    }
    Ok(ids)
}

// Whether a class goes by a name.
fn goes_by(
    alloc: Global,
    set: &ClassSet,
    superinterfaces: &Superinterfaces,
    class: ClassId,
    name: u32,
) -> Result<bool, AllocError>
    requires class { class < length set.now.classes }
    requires lists { AreListsOf set.now.classes superinterfaces.now }
    ensures { IfOk result (λ fits. fits ≡ fits_at set.now.classes name class) }
{
    let names = own_names(alloc, set, superinterfaces, class)?;
    Ok(names.as_slice().contains(&name))
}
