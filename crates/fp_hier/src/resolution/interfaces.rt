//! The methods of interfaces that a reference may mean (JVMS SE 21 sections 5.4.3.3 and 5.4.3.4).
ghost use Rattle.std.specs.Prelude.{◌≡◌, ◌<◌, length, slice_get, Some};
ghost use Rattle.fp_model.specs.declared.class.Class.{Class};
ghost use Rattle.fp_facts.specs.Hierarchy.{classes_among, superclasses, superinterfaces_at};
ghost use Rattle.fp_facts.specs.Resolution.{first_given, first_of, interfaces_above, methods_among};
ghost use Rattle.fp_hier.specs.Given.{given_by_interface};
ghost use Rattle.fp_hier.specs.Hierarchies.{IsHierOf};
ghost use Rattle.fp_hier.specs.Lineages.{classes_up};
ghost use Rattle.fp_hier.specs.Sought.{passes};

use crate::flags::{is_interface, is_private, is_static};
use crate::hier::Hier;
use crate::lineage::Lineage;
use crate::signature::Signature;
use fp_model::{Class, ClassId, ClassSet, Method, MethodId};

/// Which methods of interfaces are looked for, of those that are neither private nor static.
#[derive(Clone, Copy)]
pub(super) enum Wanted {
    /// Those with code.
    WithCode,
    /// All of them.
    Any,
}

/// The first method of an interface above a class that is wanted.
pub(super) fn interface_method(
    hier: &Hier,
    set: &ClassSet,
    class: ClassId,
    signature: Signature,
    wanted: Wanted,
) -> Option<MethodId>
    requires hier { IsHierOf set.now hier.now }
    requires class { class < length set.now.classes }
    ensures { (c : Class) → slice_get set.now.classes class ≡ Some c
        → result ≡ first_of (methods_among set.now.classes (passes wanted) signature.name signature.descr (interfaces_above set.now.classes c)) }
{
    let own = set.class(class);
    if let Some(id) = among_superclasses(hier, set, own, signature, wanted) {
        return Some(id);
    }
    among_superinterfaces(hier, set, class, signature, wanted)
}

// The same of those superclasses that are interfaces.
fn among_superclasses(
    hier: &Hier,
    set: &ClassSet,
    class: &Class,
    signature: Signature,
    wanted: Wanted,
) -> Option<MethodId>
    requires { IsHierOf set.now hier.now }
    ensures { result ≡ first_given (given_by_interface set.now.classes (passes wanted) signature.name signature.descr)
        (classes_among set.now.classes (superclasses set.now.classes class.now)) }
{
    let mut rest = Lineage::above(set, class);
    while let Some(id) = rest.step(set) {
        if let Some(method) = of_interface(hier, set, id, signature, wanted) {
            return Some(method);
        }
    }
    None
}

// The same of the superinterfaces of a class and of the classes above it.
fn among_superinterfaces(
    hier: &Hier,
    set: &ClassSet,
    class: ClassId,
    signature: Signature,
    wanted: Wanted,
) -> Option<MethodId>
    requires hier { IsHierOf set.now hier.now }
    requires class { class < length set.now.classes }
    ensures { result ≡ first_given
        (λ id. first_given (given_by_interface set.now.classes (passes wanted) signature.name signature.descr) (classes_among set.now.classes (superinterfaces_at set.now.classes id)))
        (classes_up set.now.classes class) }
{
    let mut rest = Lineage::of(set, class);
    while let Some(id) = rest.step(set) {
        let names = hier.superinterfaces.of(id);
        if let Some(method) = among_names(hier, set, names, signature, wanted) {
            return Some(method);
        }
    }
    None
}

// The same of the classes of these names.
fn among_names(
    hier: &Hier,
    set: &ClassSet,
    names: &[u32],
    signature: Signature,
    wanted: Wanted,
) -> Option<MethodId>
    requires { IsHierOf set.now hier.now }
    ensures { result ≡ first_given (given_by_interface set.now.classes (passes wanted) signature.name signature.descr) (classes_among set.now.classes names.now) }
{
    for interface in names {
        let Some(id) = set.find_class(*interface) else {
            continue;
        };
        if let Some(method) = of_interface(hier, set, id, signature, wanted) {
            return Some(method);
        }
    }
    None
}

/// The method that a class declares, where the class is an interface and the method is wanted.
pub(super) fn of_interface(
    hier: &Hier,
    set: &ClassSet,
    class: ClassId,
    signature: Signature,
    wanted: Wanted,
) -> Option<MethodId>
    requires hier { IsHierOf set.now hier.now }
    requires class { class < length set.now.classes }
    ensures { result ≡ given_by_interface set.now.classes (passes wanted) signature.name signature.descr class }
{
    if !is_interface(set.class(class)) {
        return None;
    }
    let id = hier.declared.method(class, signature)?;
    if is_wanted(set.method(id), wanted) {
        return Some(id);
    }
    None
}

fn is_wanted(method: &Method, wanted: Wanted) -> bool
    ensures { result ≡ passes wanted method.now }
{
    let is_open = !is_private(method) && !is_static(method);
    match wanted {
        Wanted::WithCode => is_open && method.code.is_some(),
        Wanted::Any => is_open,
    }
}
