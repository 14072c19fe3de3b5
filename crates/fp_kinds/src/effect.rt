//! What an instruction makes of a frame (JVMS SE 21 section 6.5).
ghost use Rattle.std.specs.Prelude.{◌≡◌, ◌-◌, ◌++◌, ◌≤◌, map, length, if◌then◌else◌, IfOk};
ghost use Rattle.fp_facts.specs.Sorts as sorts;
ghost use Rattle.fp_facts.specs.Transfer as transfer;
ghost use Rattle.fp_facts.specs.declared.effect.Effect.TheVariants.{Loads, Stores, Counts, Keeps, Shuffles, Takes};

use crate::words::{ends_with, ends_with_operands};
use fp_facts::{Effect, Label, Operands, Shuffling};
use fp_flow::{
    is_wide, push_words, same_sort, shuffled, width, without_operands, without_top, word_at,
    word_at_depth, words_of,
};
use fp_model::Sort;
use sqlite_items::Items;
use std::alloc::{AllocError, Global};

/// Whether the local variables hold a value of a sort.
fn holds_local(locals: &[Sort], at: u16, sort: Sort) -> bool
    ensures { result ≡ transfer.holds_local locals.now at sort }
{
    !same_sort(sort, Sort::Unset)
        && same_sort(word_at(locals, at as usize, Sort::Unset), sort)
        && (!is_wide(sort) || same_sort(word_at(locals, at as usize + 1, Sort::Unset), Sort::Half))
}

/// A frame over copies of words.
fn frame(alloc: Global, locals: &[Sort], stack: Vec<Sort>) -> Result<Label<Sort>, AllocError>
    ensures { IfOk result (λ l. l ≡ Label.Frame locals.now stack.items) }
{
    Ok(Label::Frame {
        locals: Items::from_slice(alloc, locals)?,
        stack: Items::from_vec(stack),
    })
}

fn load(
    alloc: Global,
    sort: Sort,
    at: u16,
    locals: &[Sort],
    stack: &[Sort],
) -> Result<Label<Sort>, AllocError>
    ensures { IfOk result (λ l. l ≡ transfer.effect_label (Loads sort at) locals.now stack.now) }
{
    if !holds_local(locals, at, sort) {
        return Ok(Label::Bad);
    }
    let mut stack = Vec::from_slice(alloc, stack)?;
    push_words(&mut stack, sort)?;
    frame(alloc, locals, stack)
}

/// The local variable at a place after a value was stored at another.
fn stored_word(sort: Sort, at: usize, place: usize, old: Sort) -> Sort
    requires { at ≤ 65535 }
    ensures { result ≡ transfer.stored_word sort at place old }
{
    if place == at {
        sort
    } else if is_wide(sort) && place == at + 1 {
        Sort::Half
    } else if at > 0 && place == at - 1 && is_wide(old) {
        Sort::Unset
    } else if place == at + width(sort) && same_sort(old, Sort::Half) {
        Sort::Unset
    } else {
        old
    }
}

/// The local variables after a value was stored.
fn stored(alloc: Global, sort: Sort, at: u16, locals: &[Sort]) -> Result<Vec<Sort>, AllocError>
    ensures { IfOk result (λ v. v.items ≡ transfer.stored_from sort at 0 locals.now) }
{
    let mut stored = Vec::with_capacity(alloc, locals.len())?;
    for (place, old) in locals.iter().enumerate() {
        stored.push(stored_word(sort, at as usize, place, *old))?;
    }
    Ok(stored)
}

fn store(
    alloc: Global,
    sort: Sort,
    at: u16,
    locals: &[Sort],
    stack: &[Sort],
) -> Result<Label<Sort>, AllocError>
    ensures { IfOk result (λ l. l ≡ transfer.effect_label (Stores sort at) locals.now stack.now) }
{
    let words = words_of(alloc, sort)?;
    if !ends_with(stack, words.as_slice()) {
        return Ok(Label::Bad);
    }
    Ok(Label::Frame {
        locals: Items::from_vec(stored(alloc, sort, at, locals)?),
        stack: Items::from_vec(without_top(alloc, stack, words.len())?),
    })
}

/// Whether no value of two words is cut.
fn cuts_none(stack: &[Sort], depths: &[u8]) -> bool
    ensures { result ≡ transfer.cuts_none stack.now depths.now }
{
    depths.iter().all(|depth| !same_sort(word_at_depth(stack, *depth, Sort::Unset), Sort::Half))
}

fn shuffle(
    alloc: Global,
    shuffling: &Shuffling,
    locals: &[Sort],
    stack: &[Sort],
) -> Result<Label<Sort>, AllocError>
    ensures { IfOk result (λ l. l ≡ transfer.effect_label (Shuffles shuffling.now) locals.now stack.now) }
{
    if shuffling.takes as usize > stack.len() || !cuts_none(stack, shuffling.cuts.as_slice()) {
        return Ok(Label::Bad);
    }
    let moved = shuffled(alloc, shuffling, stack, Sort::Unset)?;
    frame(alloc, locals, moved)
}

fn take(
    alloc: Global,
    operands: &Operands,
    results: &[Sort],
    locals: &[Sort],
    stack: &[Sort],
) -> Result<Label<Sort>, AllocError>
    ensures { IfOk result (λ l. l ≡ transfer.effect_label (Takes operands.now results.now) locals.now stack.now) }
{
    if !ends_with_operands(alloc, stack, operands)? {
        return Ok(Label::Bad);
    }
    let mut left = without_operands(alloc, stack, operands)?;
    left.extend_from_slice(results)?;
    frame(alloc, locals, left)
}

/// A frame that an instruction leaves as it is, where it may.
fn kept(
    alloc: Global,
    may: bool,
    locals: &[Sort],
    stack: &[Sort],
) -> Result<Label<Sort>, AllocError>
    ensures { IfOk result (λ l. l ≡ (if may then Label.Frame locals.now stack.now else Label.Bad)) }
{
    if may {
        frame(alloc, locals, Vec::from_slice(alloc, stack)?)
    } else {
        Ok(Label::Bad)
    }
}

/// The frame that an instruction leaves, and `Bad` where an operand is missing or of another sort.
pub(crate) fn label_of(
    alloc: Global,
    effect: &Effect,
    locals: &[Sort],
    stack: &[Sort],
) -> Result<Label<Sort>, AllocError>
    ensures { IfOk result (λ l. l ≡ transfer.effect_label effect.now locals.now stack.now) }
{
    match effect {
        Effect::Loads { sort, at } => load(alloc, *sort, *at, locals, stack),
        Effect::Stores { sort, at } => store(alloc, *sort, *at, locals, stack),
        Effect::Counts { at } => kept(alloc, holds_local(locals, *at, Sort::Int), locals, stack),
        Effect::Keeps => kept(alloc, ends_with(stack, &[Sort::Ref]), locals, stack),
        Effect::Shuffles(shuffling) => shuffle(alloc, shuffling, locals, stack),
        Effect::Takes { operands, results } => {
            take(alloc, operands, results.as_slice(), locals, stack)
        }
    }
}
