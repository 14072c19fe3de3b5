//! A class and the classes above it, from the nearest up.
ghost use Rattle.std.specs.Prelude.{◌≡◌, ◌<◌, [], ◌∷◌, None, length, option_and_then, IfSome};
ghost use Rattle.fp_model.specs.ClassSet.{class_named};
ghost use Rattle.fp_facts.specs.Hierarchy.{class_of_name, classes_among, superclasses};
ghost use Rattle.fp_hier.specs.Lineages.{classes_up, rest_of};

use fp_model::{Class, ClassId, ClassSet};

/// Those classes of a walk from superclass to superclass that are still to come.
#[derive(Clone, Copy)]
pub(crate) struct Lineage {
    first: Option<ClassId>,
    most: usize,
}

impl Lineage {
    /// A class, and the classes of the set above it.
    pub(crate) fn of(set: &ClassSet, class: ClassId) -> Lineage
        requires { class < length set.now.classes }
        ensures rest { rest_of set.now.classes result ≡ classes_up set.now.classes class }
        ensures known { IfSome result.first (λ id. id < length set.now.classes) }
    {
        let (classes, _fields, _methods) = set.counts();
        Lineage {
            first: Some(class),
            most: classes as usize + 1,
        }
    }

    /// The classes of the set above a class.
    pub(crate) fn above(set: &ClassSet, class: &Class) -> Lineage
        ensures rest { rest_of set.now.classes result ≡ classes_among set.now.classes (superclasses set.now.classes class.now) }
        ensures known { IfSome result.first (λ id. id < length set.now.classes) }
    {
        let (classes, _fields, _methods) = set.counts();
        Lineage {
            first: superclass(set, class),
            most: classes as usize,
        }
    }

    /// Goes on to the next class.
    pub(crate) fn step(&mut self, set: &ClassSet) -> Option<ClassId>
        requires { IfSome self.old.first (λ id. id < length set.now.classes) }
        ensures one { IfSome result (λ id. rest_of set.now.classes self.old ≡ id ∷ rest_of set.now.classes self.new) }
        ensures none { result ≡ None → rest_of set.now.classes self.old ≡ [] }
        ensures within { IfSome result (λ id. id < length set.now.classes) }
        ensures known { IfSome self.new.first (λ id. id < length set.now.classes) }
        ensures fewer { IfSome result (λ id. self.new.most < self.old.most) }
    {
        if self.most == 0 {
            return None;
        }
        let id = self.first?;
        self.first = superclass(set, set.class(id));
        self.most -= 1;
        Some(id)
    }
}

/// The superclass of a class, where it is in the set.
pub(crate) fn superclass(set: &ClassSet, class: &Class) -> Option<ClassId>
    ensures superclass { result ≡ option_and_then (class_named set.now.classes) class.now.parent }
    ensures known { IfSome result (λ id. id < length set.now.classes) }
{
    set.find_class(class.parent?)
}

/// The name of the superclass of the class of a name, where that class is in the set and has one.
pub(crate) fn superclass_name(set: &ClassSet, name: u32) -> Option<u32>
    ensures { result ≡ option_and_then (λ c. c.parent) (class_of_name set.now.classes name) }
{
    let id = set.find_class(name)?;
    set.class(id).parent
}
