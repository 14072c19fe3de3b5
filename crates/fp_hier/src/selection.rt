//! Which methods the objects of a class select.
ghost use Rattle.std.specs.Prelude.{◌≡◌, ℕ, ◌<◌, ◌==◌, ◌||◌, [], length, IfOk, IfSome};
ghost use Rattle.std.specs.List.Sorted.{IsStrictlyIncreasing};
ghost use Rattle.fp_model.specs.ClassSet.{methods_of};
ghost use Rattle.fp_facts.specs.Hierarchy.{has_number};
ghost use Rattle.fp_facts.specs.Selection.{found_as, found_at, selected_at};
ghost use Rattle.fp_hier.specs.Hierarchies.{IsHierOf};
ghost use Rattle.fp_hier.specs.Sought.{is_of_class};
ghost use Rattle.fp_hier.specs.Targets.{AreTargets};

use crate::bits::ascending;
use crate::flags::{is_native, is_static};
use crate::hier::Hier;
use crate::resolution::{default_methods, instance_declaration};
use crate::signature::Signature;
use crate::targets::Targets;
use fp_model::{ClassId, ClassSet, MethodId};
use sqlite_items::Items;
use std::alloc::{AllocError, Global};

/// Whether a call is of a class's method or of an object's.
#[derive(Clone, Copy)]
pub(crate) enum Receiver {
    /// It has no receiver: the method has to be static.
    Class,
    /// It has one: the method must not be static.
    Object,
}

/// The methods that an object of a class selects for a call.
pub(crate) fn selected(
    alloc: Global,
    hier: &Hier,
    set: &ClassSet,
    class: ClassId,
    signature: Signature,
) -> Result<Targets, AllocError>
    requires hier { IsHierOf set.now hier.now }
    requires known { class < length set.now.classes }
    ensures { IfOk result
        (λ t. AreTargets (length (methods_of set.now.classes)) (selected_at set.now class signature.name signature.descr) t) }
{
    if let Some(id) = instance_declaration(hier, set, class, signature) {
        return found(alloc, set, id);
    }
    let outside = hier.receivers.has_outside_ancestor(set, class);
    let defaults = default_methods(alloc, hier, set, class, signature)?;
    Ok(with_defaults(defaults, outside))
}

/// The targets of a call that looks for one method.
pub(crate) fn fixed_target(
    alloc: Global,
    set: &ClassSet,
    method: Option<MethodId>,
    receiver: Receiver,
) -> Result<Targets, AllocError>
    requires { IfSome method (λ id. id < length (methods_of set.now.classes)) }
    ensures { IfOk result
        (λ t. AreTargets (length (methods_of set.now.classes)) (found_as (is_of_class receiver) set.now.classes method) t) }
{
    let Some(id) = method else {
        return Ok(Targets::none(alloc, true));
    };
    let wanted = wants_static(receiver);
    if is_static(set.method(id)) != wanted {
        return Ok(Targets::none(alloc, false));
    }
    found(alloc, set, id)
}

// Whether the method has to be static.
fn wants_static(receiver: Receiver) -> bool
    ensures { result ≡ is_of_class receiver }
{
    match receiver {
        Receiver::Class => true,
        Receiver::Object => false,
    }
}

// A method that was found: with code it is reached, a native one is the outside, and an abstract one is nothing.
fn found(alloc: Global, set: &ClassSet, id: MethodId) -> Result<Targets, AllocError>
    requires { id < length (methods_of set.now.classes) }
    ensures { IfOk result
        (λ t. AreTargets (length (methods_of set.now.classes)) (found_at set.now.classes id) t) }
{
    let method = set.method(id);
    if method.code.is_none() {
        return Ok(Targets::none(alloc, is_native(method)));
    }
    Ok(Targets {
        methods: Items::from_vec(Vec::from_array(alloc, [id])?),
        outside: false,
    })
}

// Methods of superinterfaces, with the outside where there are none.
fn with_defaults(methods: Vec<MethodId>, outside: bool) -> Targets
    ensures rising { IsStrictlyIncreasing result.methods }
    ensures members { (m : ℕ) → has_number result.methods m ≡ has_number methods.items m }
    ensures outside { result.outside ≡ ((length methods.items == 0) || outside) }
{
    let outside = methods.is_empty() || outside;
    Targets {
        methods: Items::from_vec(ascending(methods)),
        outside,
    }
}
