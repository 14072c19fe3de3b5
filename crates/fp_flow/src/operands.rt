//! The operands of instructions on a stack. A call's are looked at no further than the stack reaches, however many it takes.
ghost use Rattle.std.specs.Prelude.{◌≡◌, ◌<◌, ◌+◌, length, IfOk, MatchOption};
ghost use Rattle.fp_facts.specs.Sorts as words;
ghost use Rattle.fp_facts.specs.Transfer as transfer;

use crate::sorts::{push_kinds, sort_of, width};
use fp_facts::Operands;
use fp_model::{Kind, Sort};
use std::alloc::{AllocError, Global};

/// How many of so many words are left below values of these types, none where those have more.
#[tactic(auto, using(crate::proofs::OperandWords::measuring))]
fn left_below(height: usize, kinds: &[Kind]) -> Option<usize>
    ensures { MatchOption result (height < length (words.words_of_kinds kinds.now)) (λ left. left + length (words.words_of_kinds kinds.now) ≡ height) }
{
    let mut left = height;
    for kind in kinds {
        left = left.checked_sub(width(sort_of(*kind)))?;
    }
    Some(left)
}

/// How many words of a stack of so many are left below an instruction's operands, none where these are more.
#[tactic(auto, using(crate::proofs::OperandWords::measuring))]
pub fn below_operands(height: usize, operands: &Operands) -> Option<usize>
    ensures { MatchOption result (height < length operands.now) (λ left. left + length operands.now ≡ height) }
{
    let (listed, kinds) = operands.parts();
    left_below(height.checked_sub(listed.len())?, kinds)
}

/// The stack without an instruction's operands, empty where these are more.
#[tactic(auto, using(crate::proofs::OperandWords::measuring))]
pub fn without_operands<W: Copy + Drop>(
    alloc: Global,
    stack: &[W],
    operands: &Operands,
) -> Result<Vec<W>, AllocError>
    ensures { IfOk result (λ v. v.items ≡ transfer.without_top (length operands.now) stack.now) }
{
    let left = below_operands(stack.len(), operands).unwrap_or(0);
    Vec::from_slice(alloc, &stack[..left])
}

/// The words of an instruction's operands, the lowest first.
pub fn operand_words(alloc: Global, operands: &Operands) -> Result<Vec<Sort>, AllocError>
    ensures { IfOk result (λ v. v.items ≡ operands.now) }
{
    let (listed, kinds) = operands.parts();
    let mut words = Vec::from_slice(alloc, listed)?;
    push_kinds(&mut words, kinds)?;
    Ok(words)
}
