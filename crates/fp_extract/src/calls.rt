//! What calls can reach, once for each reference, and what is left of the bounds after calls.
ghost use Rattle.std.specs.Prelude.{◌≡◌, ◌<◌, ◌++◌, ◌∷◌, [], IsTrue, List, Some, length, slice_get, IfOk, OnOk};
ghost use Rattle.fp_model.specs.ClassSet.{SetView};
ghost use Rattle.fp_facts.specs.declared.reference.Reference.{Reference};
ghost use Rattle.fp_facts.specs.References.{number_in, with_reference};
ghost use Rattle.fp_hier.specs.Hierarchies.{IsHierOf};
ghost use Rattle.fp_extract.specs.Calling.{IsCallTable};
ghost use Rattle.fp_extract.specs.Rooms.{call_cost, fits, left_less, left_without, targets_of};

use crate::references::References;
use crate::room::{Cost, Left};
use fp_facts::{CallTargets, Reference};
use fp_hier::Hier;
use fp_model::ClassSet;
use std::alloc::{AllocError, Global};

/// The references of calls, what calls of each can reach, and what is left of the bounds.
#[derive(Drop)]
pub(crate) struct CallTable {
    pub(crate) references: References,
    // What a call of each reference takes.
    costs: Vec<Cost>,
    // What calls of each can reach, as long as no bound is passed.
    pub(crate) targets: Vec<CallTargets>,
    pub(crate) left: Left,
}

impl CallTable {
    /// A table with nothing, which takes no memory.
    pub(crate) fn new(alloc: Global, left: Left) -> CallTable
        ensures references { result.references ≡ [] }
        ensures costs { result.costs.items ≡ [] }
        ensures targets { result.targets.items ≡ [] }
        ensures left { result.left ≡ left }
    {
        CallTable {
            references: References::new(alloc),
            costs: Vec::new(alloc),
            targets: Vec::new(alloc),
            left,
        }
    }

    /// Meets a call: gives its reference a number, and takes what the call needs.
    pub(crate) fn meet(
        &mut self,
        alloc: Global,
        set: &ClassSet,
        hier: &Hier,
        reference: Reference,
    ) -> Result<u32, AllocError>
        requires hier { IsHierOf set.now hier.now }
        requires caller { reference.caller < length set.now.classes }
        requires told { IsCallTable set.now self.old }
        ensures told { OnOk result (IsCallTable set.now self.new) }
        ensures table { OnOk result (self.new.references ≡ with_reference self.old.references reference) }
        ensures left { OnOk result (self.new.left ≡ left_without self.old.left (call_cost set.now reference)) }
        ensures number { IfOk result (λ n. (more : List Reference) → number_in (self.new.references ++ more) reference ≡ n) }
    {
        let number = self.know(alloc, set, hier, reference)?;
        self.left = self.left.without(self.costs[number as usize]);
        Ok(number)
    }

    // The number of a reference. One that is new is looked up.
    fn know(
        &mut self,
        alloc: Global,
        set: &ClassSet,
        hier: &Hier,
        reference: Reference,
    ) -> Result<u32, AllocError>
        requires hier { IsHierOf set.now hier.now }
        requires caller { reference.caller < length set.now.classes }
        requires told { IsCallTable set.now self.old }
        ensures told { OnOk result (IsCallTable set.now self.new) }
        ensures table { OnOk result (self.new.references ≡ with_reference self.old.references reference) }
        ensures left { self.new.left ≡ self.old.left }
        ensures number { IfOk result (λ n. (more : List Reference) → number_in (self.new.references ++ more) reference ≡ n) }
        ensures cost { IfOk result (λ n. slice_get self.new.costs.items n ≡ Some (call_cost set.now reference)) }
    {
        let (number, is_new) = self.references.number(reference)?;
        if is_new {
            self.learn(alloc, set, hier, reference)?;
        }
        Ok(number)
    }

    // Looks up what calls of a reference that is new can reach.
    fn learn(
        &mut self,
        alloc: Global,
        set: &ClassSet,
        hier: &Hier,
        reference: Reference,
    ) -> Result<(), AllocError>
        requires hier { IsHierOf set.now hier.now }
        requires caller { reference.caller < length set.now.classes }
        ensures references { self.new.references ≡ self.old.references }
        ensures left { self.new.left ≡ self.old.left }
        ensures costs { OnOk result (self.new.costs.items ≡ self.old.costs.items ++ call_cost set.now reference ∷ []) }
        ensures targets { OnOk result (IsTrue (fits self.old.left) → self.new.targets.items ≡ self.old.targets.items ++ targets_of set.now reference ∷ []) }
    {
        let targets = hier.reference_targets(alloc, set, reference)?;
        self.costs.push(Cost::of(&targets)?)?;
        if self.left.fits() {
            self.targets.push(targets)?;
        }
        Ok(())
    }

    /// Takes a place for each of some allocations.
    pub(crate) fn take_allocations(&mut self, count: usize)
        ensures told { (set : SetView) → IsCallTable set self.old → IsCallTable set self.new }
        ensures references { self.new.references ≡ self.old.references }
        ensures left { self.new.left ≡ left_less self.old.left count }
    {
        self.left = self.left.less_places(count);
    }

    /// The references, and what calls of each can reach.
    pub(crate) fn into_lists(
        self,
        alloc: Global,
    ) -> Result<(Vec<Reference>, Vec<CallTargets>), AllocError>
        ensures references { IfOk result (λ lists. lists.0.items ≡ self.references) }
        ensures targets { IfOk result (λ lists. lists.1.items ≡ self.targets.items) }
    {
        let keys = self.references.as_slice();
        let mut references = Vec::with_capacity(alloc, keys.len())?;
        references.extend_from_slice(keys)?;
        Ok((references, self.targets))
    }
}
