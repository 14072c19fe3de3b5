//! Words of frames, of whatever type they are.
ghost use Rattle.std.specs.Prelude.{◌≡◌, ◌<◌, ◌-◌, ◌∷◌, replicate, slice_index_or, IfOk};
ghost use Rattle.fp_facts.specs.Moves as moves;
ghost use Rattle.fp_facts.specs.Transfer as transfer;

use fp_facts::{Label, Shuffling};
use fp_model::Code;
use sqlite_items::Items;
use std::alloc::{AllocError, Global};

/// The word at a place, and another one where none stands there.
pub fn word_at<W: Copy + Drop>(words: &[W], at: usize, none: W) -> W
    ensures { result ≡ slice_index_or words.now at none }
{
    if at < words.len() { words[at] } else { none }
}

/// The word at a depth of the stack, whose top is at depth 1.
pub fn word_at_depth<W: Copy + Drop>(stack: &[W], depth: u8, none: W) -> W
    ensures { result ≡ transfer.at_depth none stack.now depth }
{
    word_at(stack, stack.len().saturating_sub(depth as usize), none)
}

/// The stack without so many words on top.
pub fn without_top<W: Copy + Drop>(
    alloc: Global,
    stack: &[W],
    count: usize,
) -> Result<Vec<W>, AllocError>
    ensures { IfOk result (λ v. v.items ≡ transfer.without_top count stack.now) }
{
    Vec::from_slice(alloc, &stack[..stack.len().saturating_sub(count)])
}

/// The stack behind a shuffling of its top.
pub fn shuffled<W: Copy + Drop>(
    alloc: Global,
    shuffling: &Shuffling,
    stack: &[W],
    none: W,
) -> Result<Vec<W>, AllocError>
    ensures { IfOk result (λ v. v.items ≡ transfer.shuffled none shuffling.now stack.now) }
{
    let mut moved = without_top(alloc, stack, shuffling.takes as usize)?;
    for depth in shuffling.order.as_slice() {
        moved.push(word_at_depth(stack, *depth, none))?;
    }
    Ok(moved)
}

/// The label of a code's entry: the arguments in the first local variables, and an empty stack.
pub fn entry_label<W: Copy + Drop>(
    alloc: Global,
    code: &Code,
    arguments: &[W],
    none: W,
) -> Result<Label<W>, AllocError>
    ensures { IfOk result (λ l. l ≡ moves.entry_words none code.now arguments.now) }
{
    let mut locals = Vec::from_slice(alloc, arguments)?;
    let others = (code.max_locals as usize).saturating_sub(arguments.len());
    for _ in 0..others {
        locals.push(none)?;
    }
    Ok(Label::Frame {
        locals: Items::from_vec(locals),
        stack: Items::new(alloc),
    })
}

/// The labels at first: that of the entry, and none at the other instructions.
pub fn first_labels<W: Drop>(
    alloc: Global,
    entry: Label<W>,
    instrs: usize,
) -> Result<Vec<Label<W>>, AllocError>
    requires { 0 < instrs }
    ensures { IfOk result (λ v. v.items ≡ entry ∷ replicate (instrs - 1) Label.Unreached) }
{
    let mut labels = Vec::with_capacity(alloc, instrs)?;
    labels.push(entry)?;
    for _ in 0..instrs - 1 {
        labels.push(Label::Unreached)?;
    }
    Ok(labels)
}
