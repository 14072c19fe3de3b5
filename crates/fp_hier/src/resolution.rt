//! Which declaration a reference means (JVMS SE 21 sections 5.4.3.2 to 5.4.3.4), and what is looked through for it.
ghost use Rattle.std.specs.Prelude.{◌≡◌, ◌<◌, length, slice_get, Some, IfSome};
ghost use Rattle.fp_model.specs.ClassSet.{methods_of};
ghost use Rattle.fp_model.specs.declared.class.Class.{Class};
ghost use Rattle.fp_facts.specs.Resolution as resolution;
ghost use Rattle.fp_facts.specs.Resolution.{declared_method, first_given};
ghost use Rattle.fp_facts.specs.Selection as selection;
ghost use Rattle.fp_hier.specs.Given.{given_by, is_instance};
ghost use Rattle.fp_hier.specs.Hierarchies.{IsHierOf};
ghost use Rattle.fp_hier.specs.Lineages.{classes_up};

mod defaults;
mod fields;
mod interfaces;

use crate::flags::is_static;
use crate::hier::Hier;
use crate::lineage::Lineage;
use crate::signature::Signature;
pub(crate) use defaults::default_methods;
pub(crate) use fields::resolve_field;
use fp_model::{ClassId, ClassSet, MethodId};
use interfaces::{Wanted, interface_method};

/// The method that a reference means: a declaration of the class or above it, else one of an interface, with code where one has.
pub(crate) fn resolve_method(
    hier: &Hier,
    set: &ClassSet,
    class: u32,
    signature: Signature,
) -> Option<MethodId>
    requires { IsHierOf set.now hier.now }
    ensures method { result ≡ resolution.resolve_method set.now.classes class signature.name signature.descr }
    ensures known { IfSome result (λ id. id < length (methods_of set.now.classes)) }
{
    let class = set.find_class(class)?;
    if let Some(id) = declared_above(hier, set, class, signature) {
        return Some(id);
    }
    if let Some(id) = interface_method(hier, set, class, signature, Wanted::WithCode) {
        return Some(id);
    }
    interface_method(hier, set, class, signature, Wanted::Any)
}

// The first method that a class or one above it declares.
fn declared_above(
    hier: &Hier,
    set: &ClassSet,
    class: ClassId,
    signature: Signature,
) -> Option<MethodId>
    requires hier { IsHierOf set.now hier.now }
    requires class { class < length set.now.classes }
    ensures { result ≡ first_given (declared_method set.now.classes signature.name signature.descr) (classes_up set.now.classes class) }
{
    let mut rest = Lineage::of(set, class);
    while let Some(id) = rest.step(set) {
        if let Some(method) = hier.declared.method(id, signature) {
            return Some(method);
        }
    }
    None
}

/// The first instance method that a class or one above it declares.
pub(crate) fn instance_declaration(
    hier: &Hier,
    set: &ClassSet,
    class: ClassId,
    signature: Signature,
) -> Option<MethodId>
    requires hier { IsHierOf set.now hier.now }
    requires class { class < length set.now.classes }
    ensures { (c : Class) → slice_get set.now.classes class ≡ Some c
        → result ≡ selection.instance_declaration set.now.classes c signature.name signature.descr }
{
    let mut rest = Lineage::of(set, class);
    while let Some(id) = rest.step(set) {
        if let Some(method) = instance_method(hier, set, id, signature) {
            return Some(method);
        }
    }
    None
}

// The method that a class declares, where it is no static one.
fn instance_method(
    hier: &Hier,
    set: &ClassSet,
    class: ClassId,
    signature: Signature,
) -> Option<MethodId>
    requires { IsHierOf set.now hier.now }
    ensures { result ≡ given_by set.now.classes is_instance signature.name signature.descr class }
{
    let id = hier.declared.method(class, signature)?;
    if is_static(set.method(id)) {
        return None;
    }
    Some(id)
}
