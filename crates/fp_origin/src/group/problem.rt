//! The dataflow problem of a group of origins.
ghost use Rattle.std.specs.Prelude.{◌≡◌, ◌<◌, length, map, IfOk};
ghost use Rattle.fp_facts.specs.Dataflow.{IsLawful};
ghost use Rattle.fp_facts.specs.Moves.{moved_after};
ghost use Rattle.fp_facts.specs.Origins.{made_words};
ghost use Rattle.fp_facts.specs.declared.origin.Origin.TheVariants.{Other};
ghost use Rattle.fp_origin.specs.Groups.{bits_in, transfer_of, word_bits, words_problem};

use super::moves::{caught_label, moved};
use super::transfers::Transfer;
use fp_facts::{Label, Origin};
use fp_flow::{Dataflow, join_label};
use fp_model::Code;
use std::alloc::{AllocError, Global};

/// The label behind the instruction of a number, by the label before it.
#[tactic(auto, using(crate::proofs::TransferLists::telling))]
fn label_behind(
    alloc: Global,
    code: &Code,
    group: &[Origin],
    transfers: &[Transfer],
    number: usize,
    before: &Label<u64>,
) -> Result<Label<u64>, AllocError>
    requires told { transfers.now ≡ map (transfer_of group.now) code.now.instrs }
    requires known { number < length code.now.instrs }
    ensures { IfOk result (λ l. l ≡ moved_after 0 code.now (λ i. map (word_bits group.now) (made_words i.0 i.1)) number before.now) }
{
    moved(alloc, code.max_stack, &transfers[number], before)
}

/// The problem of a method's code, whose arguments have these words.
#[derive(Drop)]
pub(crate) struct OriginsProblem<'c> {
    pub(crate) code: &'c Code,
    pub(crate) group: &'c [Origin],
    pub(crate) arguments: &'c [u64],
    /// The word of a caught object.
    pub(crate) caught: u64,
    pub(crate) edges: &'c [(u32, u32, bool)],
    pub(crate) transfers: &'c [Transfer],
    ghost laws: { IsLawful (words_problem code.now group.now arguments.now edges.now) },
    ghost other: { caught ≡ bits_in group.now Other },
    ghost told: { transfers.now ≡ map (transfer_of group.now) code.now.instrs },
}

impl<'c> Dataflow for OriginsProblem<'c> {
    type Label = Label<u64>;

    ghost problem = { λ p. words_problem p.code.now p.group.now p.arguments.now p.edges.now };

    ghost lawful = { λ p. p.laws };

    fn behind(
        &self,
        alloc: Global,
        node: u32,
        before: &Label<u64>,
    ) -> Result<Label<u64>, AllocError> {
        label_behind(
            alloc,
            self.code,
            self.group,
            self.transfers,
            node as usize,
            before,
        )
    }

    fn caught(
        &self,
        alloc: Global,
        _node: u32,
        before: &Label<u64>,
        _behind: &Label<u64>,
    ) -> Result<Label<u64>, AllocError> {
        caught_label(alloc, self.caught, before)
    }

    fn join(
        &self,
        alloc: Global,
        into: &mut Label<u64>,
        more: &Label<u64>,
    ) -> Result<bool, AllocError> {
        join_label(alloc, into, more)
    }
}
