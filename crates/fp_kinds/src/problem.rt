//! The dataflow problem of the frames of a code.
ghost use Rattle.std.specs.Prelude.{◌≡◌, ◌<◌, ◌≤◌, length, All, IfOk};
ghost use Rattle.fp_facts.specs.Transfer.{label_after};
ghost use Rattle.fp_kinds.specs.Transfers.{transfers_of};

use crate::transfer::{Transfer, after, to_handler};
use fp_facts::Label;
use fp_flow::{Dataflow, join_label};
use fp_model::{Code, Sort};
use std::alloc::{AllocError, Global};

/// The label behind the instruction of a number, by the label before it.
#[tactic(auto, using(crate::proofs::TransferLists::telling))]
pub(crate) fn label_behind(
    alloc: Global,
    code: &Code,
    results: &[Sort],
    transfers: &[Transfer],
    number: usize,
    before: &Label<Sort>,
) -> Result<Label<Sort>, AllocError>
    requires told { transfers.now ≡ transfers_of code.now results.now }
    requires known { number < length code.now.instrs }
    ensures { IfOk result (λ l. l ≡ label_after code.now results.now number before.now) }
{
    after(alloc, code.max_stack, &transfers[number], before)
}

/// The problem of a method's code, whose arguments and results have these words.
#[derive(Drop)]
pub(crate) struct KindsProblem<'c> {
    pub(crate) code: &'c Code,
    pub(crate) arguments: &'c [Sort],
    pub(crate) results: &'c [Sort],
    pub(crate) edges: &'c [(u32, u32, bool)],
    pub(crate) transfers: &'c [Transfer],
    ghost some: { 0 < length code.now.instrs },
    ghost room: { length arguments.now ≤ code.now.max_locals },
    ghost within: { All (λ e. (e.0 < length code.now.instrs) × (e.1 < length code.now.instrs)) edges.now },
    ghost told: { transfers.now ≡ transfers_of code.now results.now },
}

impl<'c> Dataflow for KindsProblem<'c> {
    ghost use Rattle.fp_facts.specs.Transfer.{kinds_problem};
    ghost use Rattle.fp_facts.proofs.LawfulKinds.{kinds-lawful};

    type Label = Label<Sort>;

    ghost problem = { λ p. kinds_problem p.code.now p.arguments.now p.results.now p.edges.now };

    ghost lawful = { λ p. kinds-lawful p.code.now p.arguments.now p.results.now p.edges.now p.some p.room p.within };

    fn behind(
        &self,
        alloc: Global,
        node: u32,
        before: &Label<Sort>,
    ) -> Result<Label<Sort>, AllocError> {
        label_behind(
            alloc,
            self.code,
            self.results,
            self.transfers,
            node as usize,
            before,
        )
    }

    fn caught(
        &self,
        alloc: Global,
        _node: u32,
        before: &Label<Sort>,
        behind: &Label<Sort>,
    ) -> Result<Label<Sort>, AllocError> {
        to_handler(alloc, before, behind)
    }

    fn join(
        &self,
        alloc: Global,
        into: &mut Label<Sort>,
        more: &Label<Sort>,
    ) -> Result<bool, AllocError> {
        join_label(alloc, into, more)
    }
}
