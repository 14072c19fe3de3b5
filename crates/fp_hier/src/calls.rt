//! What calls reach, by their forms (JVMS SE 21 section 6.5).
ghost use Rattle.std.specs.Prelude.{◌≡◌, ◌<◌, ℕ, [], length, not, option_and_then, IfOk, IfSome};
ghost use Rattle.fp_model.specs.Descriptor.{text_of};
ghost use Rattle.fp_model.specs.ClassSet.{class_named, methods_of};
ghost use Rattle.fp_facts.specs.Hierarchy.{class_of_name, has_number, superclasses};
ghost use Rattle.fp_facts.specs.Selection as selection;
ghost use Rattle.fp_facts.specs.References.{reference_candidates};
ghost use Rattle.fp_facts.specs.Selection.{Reached, dispatched, fixed, goes_by_receiver, selected_above, special_reached, virtual_candidates};
ghost use Rattle.fp_hier.specs.Hierarchies.{IsHierOf};
ghost use Rattle.fp_hier.specs.Reach.{IsReach};
ghost use Rattle.fp_hier.specs.Targets.{AreTargets};

use crate::flags::is_private;
use crate::hier::Hier;
use crate::lineage::{superclass, superclass_name};
use crate::resolution::resolve_method;
use crate::selection::{Receiver, fixed_target, selected};
use crate::signature::Signature;
use crate::targets::Targets;
use crate::texts::is_object;
use fp_facts::{CallForm, Reference};
use fp_model::{Class, ClassId, ClassSet, name_text};
use sqlite_items::Items;
use std::alloc::{AllocError, Global};

const CONSTRUCTOR: &[u8] = b"<init>";

const NO_PARAMETERS: &[u8] = b"()V";

/// What a call reaches whatever classes have objects, and what it reaches besides by the objects of each class.
#[derive(Drop)]
pub(crate) struct CallReach {
    pub(crate) always: Targets,
    pub(crate) by_class: Vec<(ClassId, Targets)>,
}

/// A method as it is named, by the number of its class's name, and its signature.
#[derive(Clone, Copy)]
struct NamedMethod {
    class: u32,
    signature: Signature,
}

/// What calls of a reference reach.
pub(crate) fn reach(
    alloc: Global,
    hier: &Hier,
    set: &ClassSet,
    reference: Reference,
) -> Result<CallReach, AllocError>
    requires hier { IsHierOf set.now hier.now }
    requires caller { reference.caller < length set.now.classes }
    ensures { IfOk result (IsReach (length (methods_of set.now.classes)) (reference_candidates set.now reference)) }
{
    let Reference {
        class,
        name,
        descr,
        ..
    } = reference;
    let signature = Signature { name, descr };
    let named = NamedMethod { class, signature };
    match reference.form {
        CallForm::Static => {
            let resolved = resolve_method(hier, set, class, signature);
            Ok(always(alloc, fixed_target(alloc, set, resolved, Receiver::Class)?))
        }
        CallForm::Special => {
            let caller = set.class(reference.caller);
            Ok(always(alloc, special(alloc, hier, set, caller, named)?))
        }
        CallForm::Virtual => by_receiver(alloc, hier, set, named),
        CallForm::Dynamic => Ok(always(alloc, Targets::none(alloc, true))),
    }
}

// What is reached whatever classes have objects, and nothing besides.
fn always(alloc: Global, targets: Targets) -> CallReach
    ensures { (methods : ℕ) (reached : Reached) → AreTargets methods reached targets → IsReach methods (fixed reached) result }
{
    CallReach {
        always: targets,
        by_class: Vec::new(alloc),
    }
}

// What an `invokespecial` reaches.
fn special(
    alloc: Global,
    hier: &Hier,
    set: &ClassSet,
    caller: &Class,
    reference: NamedMethod,
) -> Result<Targets, AllocError>
    requires { IsHierOf set.now hier.now }
    ensures { IfOk result (AreTargets (length (methods_of set.now.classes)) (special_reached set.now caller.now reference.class reference.signature.name reference.signature.descr)) }
{
    if is_empty_constructor(set, reference) {
        return Ok(Targets::none(alloc, false));
    }
    if is_super_call(set, caller, reference) {
        return from_superclass(alloc, hier, set, caller, reference);
    }
    let resolved = resolve_method(hier, set, reference.class, reference.signature);
    fixed_target(alloc, set, resolved, Receiver::Object)
}

// Whether it is the constructor of `java/lang/Object`, which is outside the set.
fn is_empty_constructor(set: &ClassSet, reference: NamedMethod) -> bool
    ensures { result ≡ selection.is_empty_constructor set.now reference.class reference.signature.name reference.signature.descr }
{
    let names = set.names();
    set.find_class(reference.class).is_none()
        && is_object(names, reference.class)
        && name_text(names, reference.signature.name) == CONSTRUCTOR
        && name_text(names, reference.signature.descr) == NO_PARAMETERS
}

// Whether a superclass's method is called.
fn is_super_call(set: &ClassSet, caller: &Class, reference: NamedMethod) -> bool
    ensures { result ≡ selection.is_super_call set.now caller.now reference.class reference.signature.name }
{
    name_text(set.names(), reference.signature.name) != CONSTRUCTOR
        && is_superclass_name(set, caller, reference.class)
}

// Whether a superclass has the name.
fn is_superclass_name(set: &ClassSet, class: &Class, name: u32) -> bool
    ensures { result ≡ has_number (superclasses set.now.classes class.now) name }
{
    let (classes, _fields, _methods) = set.counts();
    let mut above = class.parent;
    for _ in 0..classes {
        let parent = match above {
            Some(parent) => parent,
            None => return false,
        };
        if parent == name {
            return true;
        }
        above = superclass_name(set, parent);
    }
    false
}

// What an object of the caller's superclass selects.
fn from_superclass(
    alloc: Global,
    hier: &Hier,
    set: &ClassSet,
    caller: &Class,
    reference: NamedMethod,
) -> Result<Targets, AllocError>
    requires { IsHierOf set.now hier.now }
    ensures { IfOk result (AreTargets (length (methods_of set.now.classes)) (selected_above set.now caller.now reference.signature.name reference.signature.descr)) }
{
    match superclass(set, caller) {
        Some(class) => selected(alloc, hier, set, class, reference.signature),
        None => Ok(Targets::none(alloc, true)),
    }
}

// What an `invokevirtual` or `invokeinterface` reaches.
fn by_receiver(
    alloc: Global,
    hier: &Hier,
    set: &ClassSet,
    reference: NamedMethod,
) -> Result<CallReach, AllocError>
    requires { IsHierOf set.now hier.now }
    ensures { IfOk result (IsReach (length (methods_of set.now.classes)) (virtual_candidates set.now reference.class reference.signature.name reference.signature.descr)) }
{
    let resolved = resolve_method(hier, set, reference.class, reference.signature);
    if is_private_method(set, resolved) {
        return Ok(always(alloc, fixed_target(alloc, set, resolved, Receiver::Object)?));
    }
    by_each_class(alloc, hier, set, reference)
}

// Whether there is a method, and it is private.
fn is_private_method(set: &ClassSet, method: Option<u32>) -> bool
    requires { IfSome method (λ id. id < length (methods_of set.now.classes)) }
    ensures { not result ≡ goes_by_receiver set.now.classes method }
{
    match method {
        Some(id) => is_private(set.method(id)),
        None => false,
    }
}

// What the objects of each class select that the reference may mean.
fn by_each_class(
    alloc: Global,
    hier: &Hier,
    set: &ClassSet,
    reference: NamedMethod,
) -> Result<CallReach, AllocError>
    requires { IsHierOf set.now hier.now }
    ensures { IfOk result (IsReach (length (methods_of set.now.classes)) (dispatched set.now reference.class reference.signature.name reference.signature.descr)) }
{
    let classes = hier.receivers(alloc, set, reference.class)?;
    let mut by_class = Vec::with_capacity(alloc, classes.len())?;
    for class in &classes {
        let selected = selected(alloc, hier, set, *class, reference.signature)?;
        by_class.push((*class, selected))?;
    }
    let outside = set.find_class(reference.class).is_none();
    Ok(CallReach {
        always: Targets::none(alloc, outside),
        by_class,
    })
}
