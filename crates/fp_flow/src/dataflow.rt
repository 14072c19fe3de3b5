ghost use Rattle.std.specs.Prelude.{◌≡◌, ◌≢◌, ◌<◌, true, false, IsTrue, IfOk, OnOk};
ghost use Rattle.fp_facts.specs.Dataflow.{Problem, IsLawful};
ghost use Rattle.fp_flow.specs.Sent.{IsSent};

use std::alloc::{AllocError, Global};

/// A dataflow problem: labels of nodes, what edges carry from one to another, and how labels are joined.
pub trait Dataflow {
    type Label: Drop;

    ghost problem: { Self → Problem Self.Label };

    ghost lawful: { (x : Self) → IsLawful (problem x) };

    /// The label behind a node, by the one before it. Each of its edges that leads to no exception handler carries that.
    fn behind(
        &self,
        alloc: Global,
        node: u32,
        before: &Self::Label,
    ) -> Result<Self::Label, AllocError>
        requires node { node < (problem self.now).nodes }
        requires fits { IsTrue ((problem self.now).lattice.fits before.now) }
        ensures { IfOk result (λ label. IsSent (problem self.now) false node before.now label) };

    /// What each edge from a node to an exception handler carries, by the labels before and behind the node.
    fn caught(
        &self,
        alloc: Global,
        node: u32,
        before: &Self::Label,
        behind: &Self::Label,
    ) -> Result<Self::Label, AllocError>
        requires node { node < (problem self.now).nodes }
        requires fits { IsTrue ((problem self.now).lattice.fits before.now) }
        requires behind { IsSent (problem self.now) false node before.now behind.now }
        ensures { IfOk result (λ label. IsSent (problem self.now) true node before.now label) };

    /// Joins a label into another one, and tells whether that changed.
    fn join(
        &self,
        alloc: Global,
        into: &mut Self::Label,
        more: &Self::Label,
    ) -> Result<bool, AllocError>
        requires into_fits { IsTrue ((problem self.now).lattice.fits into.old) }
        requires more_fits { IsTrue ((problem self.now).lattice.fits more.now) }
        ensures value { OnOk result (into.new ≡ (problem self.now).lattice.join into.old more.now) }
        ensures same { IfOk result (λ changed. changed ≡ false → into.new ≡ into.old) }
        ensures changed { IfOk result (λ changed. IsTrue changed → into.new ≢ into.old) };
}
