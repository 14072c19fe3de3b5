//! The classes that a code begins to initialise.
ghost use Rattle.std.specs.Prelude.{◌≡◌, ℕ, ◌<◌, ◌∷◌, [], ◌++◌, All, filter, length, map, IfOk, OnOk};
ghost use Rattle.std.specs.List.{flat_map, range_with_len};
ghost use Rattle.std.specs.Option.{option_to_list};
ghost use Rattle.fp_model.specs.ClassSet.{class_named};
ghost use Rattle.fp_facts.specs.Hierarchy.{classes_among};
ghost use Rattle.fp_facts.specs.Initialisation.{has_initialiser, initialised_by, with_ancestors};
ghost use Rattle.fp_facts.specs.Steps.{step_of, steps_of};
ghost use Rattle.fp_hier.specs.Hierarchies.{IsHierOf};
ghost use Rattle.fp_extract.specs.Begun.{begun_by, initialised_of, is_flagged};

use crate::lookup::accessed_field;
use fp_facts::OriginSet;
use fp_hier::{Hier, ascending};
use fp_model::{ClassId, ClassSet, Instr};
use sqlite_items::Items;
use std::alloc::{AllocError, Global};

/// The classes with an initialiser that a code may begin to initialise, ascending (JVMS SE 21 section 5.5), by the frames before its
/// instructions.
pub(crate) fn begun(
    alloc: Global,
    set: &ClassSet,
    hier: &Hier,
    initialisers: &[bool],
    instrs: &[(u16, Instr)],
    frames: &[Option<Items<OriginSet>>],
) -> Result<Vec<ClassId>, AllocError>
    requires hier { IsHierOf set.now hier.now }
    requires initialisers { initialisers.now ≡ map (has_initialiser set.now) (range_with_len 0 (length set.now.classes)) }
    requires frames { length instrs.now ≡ length frames.now }
    ensures { IfOk result (λ begun. begun.items ≡ begun_by set.now (steps_of instrs.now frames.now)) }
{
    let classes = ascending(initialised(alloc, set, hier, instrs, frames)?);
    let begun = begun_from(alloc, set, hier, initialisers, classes.as_slice())?;
    Ok(ascending(begun))
}

// The classes of the set that those instructions begin to initialise which control may come to, in the order of the code.
fn initialised(
    alloc: Global,
    set: &ClassSet,
    hier: &Hier,
    instrs: &[(u16, Instr)],
    frames: &[Option<Items<OriginSet>>],
) -> Result<Vec<ClassId>, AllocError>
    requires hier { IsHierOf set.now hier.now }
    requires frames { length instrs.now ≡ length frames.now }
    ensures { IfOk result (λ classes. classes.items ≡ initialised_of set.now.classes (steps_of instrs.now frames.now)) }
{
    let mut classes = Vec::new(alloc);
    for at in 0..instrs.len() {
        let (_pc, instr) = &instrs[at];
        push_initialised(&mut classes, set, hier, instr, &frames[at])?;
    }
    Ok(classes)
}

// Adds the class that an instruction begins to initialise, where control may come to it.
fn push_initialised(
    classes: &mut Vec<ClassId>,
    set: &ClassSet,
    hier: &Hier,
    instr: &Instr,
    frame: &Option<Items<OriginSet>>,
) -> Result<(), AllocError>
    requires { IsHierOf set.now hier.now }
    ensures { (pc : ℕ) → OnOk result (classes.new.items ≡ classes.old.items ++ initialised_of set.now.classes (step_of (pc, instr.now) frame.now)) }
{
    if frame.is_none() {
        return Ok(());
    }
    if let Some(class) = initialised_by(set, hier, instr) {
        classes.push(class)?;
    }
    Ok(())
}

// The class of the set that an instruction begins to initialise.
fn initialised_by(set: &ClassSet, hier: &Hier, instr: &Instr) -> Option<ClassId>
    requires { IsHierOf set.now hier.now }
    ensures { result ≡ initialised_by set.now.classes instr.now }
{
    match instr {
        Instr::New { class } => set.find_class(*class),
        Instr::GetStatic { .. } | Instr::PutStatic { .. } => {
            let field = accessed_field(set, hier, instr)?;
            Some(set.class_of_field(field))
        }
        Instr::InvokeStatic {
            class,
            name,
            descr,
            ..
        } => {
            let method = hier.resolve_method(set, *class, *name, *descr)?;
            Some(set.class_of_method(method))
        }
        _ => None,
    }
}

/// Those of some classes and of their ancestors in the set that have an initialiser, by the flags of all classes.
pub fn begun_from(
    alloc: Global,
    set: &ClassSet,
    hier: &Hier,
    initialisers: &[bool],
    classes: &[ClassId],
) -> Result<Vec<ClassId>, AllocError>
    requires hier { IsHierOf set.now hier.now }
    requires initialisers { length initialisers.now ≡ length set.now.classes }
    requires classes { All (λ class. class < length set.now.classes) classes.now }
    ensures { IfOk result (λ begun. begun.items ≡ filter (is_flagged initialisers.now) (flat_map (with_ancestors set.now.classes) classes.now)) }
{
    let mut begun = Vec::new(alloc);
    for class in classes {
        push_begun(alloc, &mut begun, set, hier, initialisers, *class)?;
    }
    Ok(begun)
}

// Adds a class and its ancestors in the set, where they have an initialiser.
fn push_begun(
    alloc: Global,
    begun: &mut Vec<ClassId>,
    set: &ClassSet,
    hier: &Hier,
    initialisers: &[bool],
    class: ClassId,
) -> Result<(), AllocError>
    requires hier { IsHierOf set.now hier.now }
    requires initialisers { length initialisers.now ≡ length set.now.classes }
    requires class { class < length set.now.classes }
    ensures { OnOk result (begun.new.items ≡ begun.old.items ++ filter (is_flagged initialisers.now) (with_ancestors set.now.classes class)) }
{
    let names = hier.names_of(alloc, set, class)?;
    push_class(begun, initialisers, class)?;
    // The first name is the class's own.
    push_named(begun, set, initialisers, &names[1..])
}

// Adds the classes of some names, where they are in the set and have an initialiser.
fn push_named(
    begun: &mut Vec<ClassId>,
    set: &ClassSet,
    initialisers: &[bool],
    names: &[u32],
) -> Result<(), AllocError>
    requires { length initialisers.now ≡ length set.now.classes }
    ensures { OnOk result (begun.new.items ≡ begun.old.items ++ filter (is_flagged initialisers.now) (classes_among set.now.classes names.now)) }
{
    for name in names {
        push_class_named(begun, set, initialisers, *name)?;
    }
    Ok(())
}

// Adds the class of a name, where it is in the set and has an initialiser.
fn push_class_named(
    begun: &mut Vec<ClassId>,
    set: &ClassSet,
    initialisers: &[bool],
    name: u32,
) -> Result<(), AllocError>
    requires { length initialisers.now ≡ length set.now.classes }
    ensures { OnOk result (begun.new.items ≡ begun.old.items ++ filter (is_flagged initialisers.now) (option_to_list (class_named set.now.classes name))) }
{
    match set.find_class(name) {
        Some(class) => push_class(begun, initialisers, class),
        None => Ok(()),
    }
}

// Adds a class, where it has an initialiser.
fn push_class(
    begun: &mut Vec<ClassId>,
    initialisers: &[bool],
    class: ClassId,
) -> Result<(), AllocError>
    requires { class < length initialisers.now }
    ensures { OnOk result (begun.new.items ≡ begun.old.items ++ filter (is_flagged initialisers.now) (class ∷ [])) }
{
    if initialisers[class as usize] {
        begun.push(class)?;
    }
    Ok(())
}
