//! Sets of classes and interfaces.
ghost use Rattle.std.specs.Prelude.{◌≡◌, ℕ, ◌<◌, List, [], None, Some, length, map, OnOk, IfOk, IfErr, All};
ghost use Rattle.std.specs.List.{range_with_len};
ghost use Rattle.fp_model.specs.ClassSet.{SetView, IsClassOver, IsMethodOver, IsSet, AreFew, IsSound, IsFirstOf, Duplicate, SuperCycle, class_named, ancestor_after, methods_of, marked_names, namesake_marks, cycle_marks, refusal_of, TellsRefusal};

mod blame;
mod cycles;
mod duplicates;
pub mod fault;
mod index;
mod readers;

use crate::class::{Class, ClassId};
use blame::first_marked_name;
use cycles::mark_cycles;
use duplicates::mark_namesakes;
use fault::SetFault;
use fp_base::Names;
use index::{Firsts, first_members, index_by_name};
use std::alloc::Global;
use std::marker::Model;

/// Classes and interfaces over a table of names, their members and codes with them: no two have one name, and no chain of
/// superclasses comes back to its start. It never changes.
#[derive(Drop)]
pub struct ClassSet {
    classes: Vec<Class>,
    names: Names,
    // The first class of each name.
    by_name: Vec<Option<ClassId>>,
    firsts: Firsts,
}

impl Model for ClassSet {
    ghost use Rattle.fp_model.specs.ClassSet.{SetView, IsIndexed};

    ghost Value = { SetView };

    ghost view = { λ s. record { classes = s.classes.items; names = s.names } };

    ghost invariant = { λ s. IsIndexed (record { classes = s.classes.items; names = s.names })
        s.by_name.items s.firsts.fields.items s.firsts.methods.items };
}

impl ClassSet {
    /// Makes a set, or says why the classes are none. They are dropped then, and so are the names. All numbers of the classes,
    /// of their members and of their codes are of the table.
    pub fn build(alloc: Global, classes: Vec<Class>, names: Names) -> Result<ClassSet, SetFault>
        requires over { All (IsClassOver names) classes.items }
        requires few { AreFew classes.items }
        ensures set { IfOk result (λ set. set ≡ record { classes = classes.items; names = names }) }
        ensures sound { OnOk result (refusal_of (record { classes = classes.items; names = names }) ≡ None) }
        ensures refused { IfErr result
            (TellsRefusal (refusal_of (record { classes = classes.items; names = names }))) }
    {
        let by_name = index_by_name(alloc, classes.as_slice(), &names)?;
        check_sound(alloc, classes.as_slice(), &names, by_name.as_slice())?;
        let firsts = first_members(alloc, classes.as_slice())?;
        Ok(ClassSet {
            classes,
            names,
            by_name,
            firsts,
        })
    }
}

// Refuses classes of one name, and then a cycle of superclasses.
fn check_sound(
    alloc: Global,
    classes: &[Class],
    names: &Names,
    by_name: &[Option<ClassId>],
) -> Result<(), SetFault>
    requires over { All (IsClassOver names.now) classes.now }
    requires few { AreFew classes.now }
    requires index { by_name.now ≡ map (class_named classes.now) (range_with_len 0 (length names.now)) }
    ensures sound { OnOk result (refusal_of (record { classes = classes.now; names = names.now }) ≡ None) }
    ensures refused { IfErr result (TellsRefusal (refusal_of (record { classes = classes.now; names = names.now }))) }
{
    let namesakes = mark_namesakes(alloc, classes, names)?;
    if let Some(name) = first_marked_name(alloc, classes, names, namesakes.as_slice())? {
        return Err(SetFault::Duplicate(name));
    }
    let cycles = mark_cycles(alloc, classes, by_name)?;
    if let Some(name) = first_marked_name(alloc, classes, names, cycles.as_slice())? {
        return Err(SetFault::SuperCycle(name));
    }
    Ok(())
}

/// Classes are refused exactly where two of them have one name or a chain of superclasses comes back to its
/// start. In a sound set each chain ends within as many steps as there are classes.
pub fn law_sound()
    ensures sound { (set : SetView) → refusal_of set ≡ None → IsSound set.classes }
    ensures unrefused { (set : SetView) → IsSound set.classes → refusal_of set ≡ None }
    ensures ends { (classes : List Class) → IsSound classes → (id : ℕ) → id < length classes
        → ancestor_after classes (length classes) id ≡ None }
{}

/// The name in a refusal is the first of the escaped names of the classes with a namesake, or, where none has
/// one, of the classes on a cycle of superclasses.
pub fn law_refused()
    ensures duplicate { (set : SetView) (name : List ℕ) → refusal_of set ≡ Some (Duplicate name)
        → IsFirstOf (marked_names set.names set.classes (namesake_marks set.classes)) name }
    ensures cycle { (set : SetView) (name : List ℕ) → refusal_of set ≡ Some (SuperCycle name)
        → (marked_names set.names set.classes (namesake_marks set.classes) ≡ [])
        × IsFirstOf (marked_names set.names set.classes (cycle_marks set.classes)) name }
{}

/// The methods of a set are over its table of names, each with its code: every class, name and descriptor in an instruction, in
/// a row of an exception table or in a method handle is a number of the table, and the kinds beside a descriptor are what its
/// text says (JVMS SE 21 sections 4.3 and 4.4).
pub fn law_methods_over()
    ensures { (set : SetView) → IsSet set → All (IsMethodOver set.names) (methods_of set.classes) }
{}
