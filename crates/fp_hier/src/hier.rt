//! The hierarchy of a set of classes, and what references and calls mean in it.
ghost use Rattle.std.specs.Prelude.{◌≡◌, ◌<◌, ◌∷◌, length, slice_get, Some, IfOk, IfSome};
ghost use Rattle.fp_model.specs.declared.class.Class.{Class};
ghost use Rattle.fp_model.specs.ClassSet.{fields_of, methods_of};
ghost use Rattle.fp_facts.specs.Hierarchy.{ancestors};
ghost use Rattle.fp_facts.specs.References.{reference_candidates};
ghost use Rattle.fp_facts.specs.Resolution as resolution;
ghost use Rattle.fp_facts.specs.Selection as selection;
ghost use Rattle.fp_facts.specs.Selection.{candidates_at, selected_at};
ghost use Rattle.fp_hier.specs.Hierarchies.{IsHierOf};
ghost use Rattle.fp_hier.specs.Targets.{AreCallTargets, AreTargets};

use crate::bits::call_targets;
use crate::calls::reach;
use crate::declared::Declared;
use crate::receivers::Receivers;
use crate::receivers::own_names::own_names;
use crate::signature::Signature;
use crate::superinterfaces::Superinterfaces;
use crate::targets::{MethodName, Targets};
use crate::{resolution, selection};
use fp_facts::{CallTargets, Reference};
use fp_model::{ClassId, ClassSet, FieldId, Instr, MethodId};
use std::alloc::{AllocError, Global};

/// What is computed of a set of classes once, so that references and calls are looked up fast. Each call is given the set again.
#[derive(Drop)]
pub struct Hier {
    pub(crate) superinterfaces: Superinterfaces,
    pub(crate) declared: Declared,
    pub(crate) receivers: Receivers,
}

impl Hier {
    /// Computes the hierarchy of a set.
    pub fn build(alloc: Global, set: &ClassSet) -> Result<Hier, AllocError>
        ensures { IfOk result (IsHierOf set.now) }
    {
        let superinterfaces = Superinterfaces::build(alloc, set)?;
        let declared = Declared::build(alloc, set)?;
        let receivers = Receivers::build(alloc, set, &superinterfaces)?;
        Ok(Hier {
            superinterfaces,
            declared,
            receivers,
        })
    }

    /// The names that a class goes by: its own, those of its superclasses from the nearest up, and then those of the superinterfaces of
    /// all of these (JVMS SE 21 section 4.1). A name may stand there more than once.
    pub fn names_of(
        &self,
        alloc: Global,
        set: &ClassSet,
        class: ClassId,
    ) -> Result<Vec<u32>, AllocError>
        requires hier { IsHierOf set.now self.now }
        requires class { class < length set.now.classes }
        ensures { IfOk result (λ names. (c : Class) → slice_get set.now.classes class ≡ Some c → names.items ≡ c.name ∷ ancestors set.now.classes c) }
    {
        own_names(alloc, set, &self.superinterfaces, class)
    }

    /// The method that a reference means, by the numbers of its class's name, of its name and of its descriptor; none where the set has
    /// no such declaration (JVMS SE 21 sections 5.4.3.3 and 5.4.3.4). Takes no memory.
    pub fn resolve_method(
        &self,
        set: &ClassSet,
        class: u32,
        name: u32,
        descr: u32,
    ) -> Option<MethodId>
        requires { IsHierOf set.now self.now }
        ensures method { result ≡ resolution.resolve_method set.now.classes class name descr }
        ensures known { IfSome result (λ id. id < length (methods_of set.now.classes)) }
    {
        resolution::resolve_method(self, set, class, Signature { name, descr })
    }

    /// The field that a reference means, by the numbers of its class's name, of its name and of its descriptor; none where the set has
    /// no such declaration (JVMS SE 21 section 5.4.3.2). Takes no memory.
    pub fn resolve_field(
        &self,
        set: &ClassSet,
        class: u32,
        name: u32,
        descr: u32,
    ) -> Option<FieldId>
        requires { IsHierOf set.now self.now }
        ensures field { result ≡ resolution.resolve_field set.now.classes class name descr }
        ensures known { IfSome result (λ id. id < length (fields_of set.now.classes)) }
    {
        resolution::resolve_field(self, set, class, Signature { name, descr })
    }

    /// The methods that an object of a class selects for a call (JVMS SE 21 section 5.4.6), by the method's name and descriptor.
    pub fn select(
        &self,
        alloc: Global,
        set: &ClassSet,
        class: ClassId,
        named: MethodName,
    ) -> Result<Targets, AllocError>
        requires hier { IsHierOf set.now self.now }
        requires class { class < length set.now.classes }
        ensures { IfOk result (AreTargets (length (methods_of set.now.classes)) (selected_at set.now class named.name named.descr)) }
    {
        let MethodName { name, descr, .. } = named;
        selection::selected(alloc, self, set, class, Signature { name, descr })
    }

    /// The methods that an instruction of a method can reach: none, where it is no call (JVMS SE 21 section 6.5).
    pub fn candidates(
        &self,
        alloc: Global,
        set: &ClassSet,
        caller: MethodId,
        ins: &Instr,
    ) -> Result<CallTargets, AllocError>
        requires hier { IsHierOf set.now self.now }
        requires caller { caller < length (methods_of set.now.classes) }
        ensures { IfOk result (AreCallTargets (length (methods_of set.now.classes)) (candidates_at set.now caller ins.now)) }
    {
        match Reference::of(set.class_of_method(caller), ins) {
            Some(reference) => self.reference_targets(alloc, set, reference),
            None => Ok(CallTargets::none(alloc)),
        }
    }

    /// The methods that calls of a reference can reach (JVMS SE 21 section 6.5).
    pub fn reference_targets(
        &self,
        alloc: Global,
        set: &ClassSet,
        reference: Reference,
    ) -> Result<CallTargets, AllocError>
        requires hier { IsHierOf set.now self.now }
        requires caller { reference.caller < length set.now.classes }
        ensures { IfOk result (AreCallTargets (length (methods_of set.now.classes)) (reference_candidates set.now reference)) }
    {
        let reached = reach(alloc, self, set, reference)?;
        call_targets(alloc, reached.always, reached.by_class)
    }

    /// The classes that the objects of a reference to a class of this name may be of, ascending.
    pub(crate) fn receivers(
        &self,
        alloc: Global,
        set: &ClassSet,
        name: u32,
    ) -> Result<Vec<ClassId>, AllocError>
        requires { IsHierOf set.now self.now }
        ensures { IfOk result (λ ids. ids.items ≡ selection.receivers set.now name) }
    {
        self.receivers
            .of_reference(alloc, set, &self.superinterfaces, name)
    }
}
