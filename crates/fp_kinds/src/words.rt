//! Words of frames.
ghost use Rattle.std.specs.Prelude.{◌≡◌, IfOk};
ghost use Rattle.fp_facts.specs.Sorts as sorts;
ghost use Rattle.fp_facts.specs.Transfer as transfer;

use fp_facts::Operands;
use fp_flow::{below_operands, operand_words, same_sort};
use fp_model::Sort;
use std::alloc::{AllocError, Global};

/// Whether words are the same, one by one, and as many.
#[tactic(auto, using(crate::proofs::SameSorts::comparing))]
pub(crate) fn same_sorts(a: &[Sort], b: &[Sort]) -> bool
    ensures { result ≡ sorts.same_sorts a.now b.now }
{
    if a.len() != b.len() {
        return false;
    }
    for (i, word) in a.iter().enumerate() {
        if !same_sort(*word, b[i]) {
            return false;
        }
    }
    true
}

/// Whether some word holds nothing that may be used.
pub(crate) fn has_unset(words: &[Sort]) -> bool
    ensures { result ≡ sorts.has_unset words.now }
{
    words.iter().any(|word| same_sort(*word, Sort::Unset))
}

/// Whether a stack ends with these words.
pub(crate) fn ends_with(stack: &[Sort], words: &[Sort]) -> bool
    ensures { result ≡ transfer.ends_with stack.now words.now }
{
    words.len() <= stack.len() && same_sorts(&stack[stack.len() - words.len()..], words)
}

/// Whether a stack ends with an instruction's operands. A list of a call's is made only where it is no longer than the stack.
#[tactic(auto, using(crate::proofs::PoppedWords::ending))]
pub(crate) fn ends_with_operands(
    alloc: Global,
    stack: &[Sort],
    operands: &Operands,
) -> Result<bool, AllocError>
    ensures { IfOk result (λ ends. ends ≡ transfer.ends_with stack.now operands.now) }
{
    let (listed, kinds) = operands.parts();
    if kinds.is_empty() {
        return Ok(ends_with(stack, listed));
    }
    let Some(left) = below_operands(stack.len(), operands) else {
        return Ok(false);
    };
    let words = operand_words(alloc, operands)?;
    Ok(same_sorts(&stack[left..], words.as_slice()))
}
