//! The methods of interfaces that an object of a class may select (JVMS SE 21 section 5.4.6).
ghost use Rattle.std.specs.Prelude.{◌≡◌, ◌<◌, ◌++◌, length, slice_get, Some, IfOk, OnOk};
ghost use Rattle.std.specs.List.{flat_map};
ghost use Rattle.std.specs.Option.{option_to_list};
ghost use Rattle.fp_model.specs.declared.class.Class.{Class};
ghost use Rattle.fp_facts.specs.Hierarchy.{classes_among, superclasses, superinterfaces_at};
ghost use Rattle.fp_facts.specs.Selection as selection;
ghost use Rattle.fp_hier.specs.Given.{given_by_interface, is_open_with_code};
ghost use Rattle.fp_hier.specs.Hierarchies.{IsHierOf};
ghost use Rattle.fp_hier.specs.Lineages.{classes_up};

use super::interfaces::{Wanted, of_interface};
use crate::hier::Hier;
use crate::lineage::Lineage;
use crate::signature::Signature;
use fp_model::{Class, ClassId, ClassSet, MethodId};
use std::alloc::{AllocError, Global};

/// The methods of interfaces above a class that are neither private nor static and have code.
pub(crate) fn default_methods(
    alloc: Global,
    hier: &Hier,
    set: &ClassSet,
    class: ClassId,
    signature: Signature,
) -> Result<Vec<MethodId>, AllocError>
    requires hier { IsHierOf set.now hier.now }
    requires class { class < length set.now.classes }
    ensures { IfOk result (λ methods. (c : Class) → slice_get set.now.classes class ≡ Some c
        → methods.items ≡ selection.default_methods set.now.classes c signature.name signature.descr) }
{
    let mut methods = Vec::new(alloc);
    let own = set.class(class);
    push_of_superclasses(&mut methods, hier, set, own, signature)?;
    let mut rest = Lineage::of(set, class);
    while let Some(id) = rest.step(set) {
        let names = hier.superinterfaces.of(id);
        push_of_names(&mut methods, hier, set, names, signature)?;
    }
    Ok(methods)
}

// Adds those of the superclasses that are interfaces.
fn push_of_superclasses(
    methods: &mut Vec<MethodId>,
    hier: &Hier,
    set: &ClassSet,
    class: &Class,
    signature: Signature,
) -> Result<(), AllocError>
    requires { IsHierOf set.now hier.now }
    ensures { OnOk result (methods.new.items ≡ methods.old.items ++ flat_map (λ id. option_to_list (given_by_interface set.now.classes is_open_with_code signature.name signature.descr id))
        (classes_among set.now.classes (superclasses set.now.classes class.now))) }
{
    let mut rest = Lineage::above(set, class);
    while let Some(id) = rest.step(set) {
        if let Some(method) = of_interface(hier, set, id, signature, Wanted::WithCode) {
            methods.push(method)?;
        }
    }
    Ok(())
}

// Adds those of the classes of these names.
fn push_of_names(
    methods: &mut Vec<MethodId>,
    hier: &Hier,
    set: &ClassSet,
    names: &[u32],
    signature: Signature,
) -> Result<(), AllocError>
    requires { IsHierOf set.now hier.now }
    ensures { OnOk result (methods.new.items ≡ methods.old.items ++ flat_map (λ id. option_to_list (given_by_interface set.now.classes is_open_with_code signature.name signature.descr id))
        (classes_among set.now.classes names.now)) }
{
    for interface in names {
        let Some(id) = set.find_class(*interface) else {
            continue;
        };
        if let Some(method) = of_interface(hier, set, id, signature, Wanted::WithCode) {
            methods.push(method)?;
        }
    }
    Ok(())
}
