//! How an instruction moves the words of a frame (JVMS SE 21 section 6.5).
ghost use Rattle.std.specs.Prelude.{◌≡◌, ◌∷◌, [], IfOk};
ghost use Rattle.fp_facts.specs.Moves as moves;
ghost use Rattle.fp_facts.specs.Transfer as transfer;
ghost use Rattle.fp_origin.specs.Groups as groups;
ghost use Rattle.fp_facts.specs.declared.effect.Effect.TheVariants.{Loads};

use super::transfers::Transfer;
use fp_facts::{Effect, Label};
use fp_flow::{is_wide, shuffled, width, without_operands, without_top, word_at};
use fp_model::Sort;
use sqlite_items::Items;
use std::alloc::{AllocError, Global};

/// So many words on top of the stack.
fn top_words(stack: &[u64], count: usize) -> &[u64]
    ensures { result.now ≡ transfer.top_words count stack.now }
{
    &stack[stack.len().saturating_sub(count)..]
}

/// The local variable at a place after words were written over those from another place on.
fn written_word(at: usize, place: usize, words: &[u64], old: u64) -> u64
    ensures { result ≡ groups.written_word at place words.now old }
{
    if place < at {
        old
    } else {
        words.get(place - at).copied().unwrap_or(old)
    }
}

/// Words that are written over others from a place on.
fn written(alloc: Global, at: usize, words: &[u64], locals: &[u64]) -> Result<Vec<u64>, AllocError>
    ensures { IfOk result (λ v. v.items ≡ moves.written_at at words.now locals.now) }
{
    let mut written = Vec::with_capacity(alloc, locals.len())?;
    for (place, old) in locals.iter().enumerate() {
        written.push(written_word(at, place, words, *old))?;
    }
    Ok(written)
}

/// The local variables behind an instruction.
fn moved_locals(
    alloc: Global,
    effect: &Effect,
    locals: &[u64],
    stack: &[u64],
) -> Result<Vec<u64>, AllocError>
    ensures { IfOk result (λ v. v.items ≡ moves.moved_locals effect.now locals.now stack.now) }
{
    match effect {
        Effect::Stores { sort, at } => {
            written(alloc, *at as usize, top_words(stack, width(*sort)), locals)
        }
        _ => Vec::from_slice(alloc, locals),
    }
}

/// The stack behind a load.
fn loaded(
    alloc: Global,
    sort: Sort,
    at: u16,
    locals: &[u64],
    stack: &[u64],
) -> Result<Vec<u64>, AllocError>
    ensures { IfOk result (λ v. v.items ≡ moves.moved_stack 0 [] (Loads sort at) locals.now stack.now) }
{
    let mut loaded = Vec::from_slice(alloc, stack)?;
    loaded.push(word_at(locals, at as usize, 0))?;
    if is_wide(sort) {
        loaded.push(word_at(locals, at as usize + 1, 0))?;
    }
    Ok(loaded)
}

/// The stack behind an instruction, by the words that it makes anew.
fn moved_stack(
    alloc: Global,
    made: &[u64],
    effect: &Effect,
    locals: &[u64],
    stack: &[u64],
) -> Result<Vec<u64>, AllocError>
    ensures { IfOk result (λ v. v.items ≡ moves.moved_stack 0 made.now effect.now locals.now stack.now) }
{
    match effect {
        Effect::Loads { sort, at } => loaded(alloc, *sort, *at, locals, stack),
        Effect::Stores { sort, .. } => without_top(alloc, stack, width(*sort)),
        Effect::Counts { .. } | Effect::Keeps => Vec::from_slice(alloc, stack),
        Effect::Shuffles(shuffling) => shuffled(alloc, shuffling, stack, 0),
        Effect::Takes { operands, .. } => {
            let mut left = without_operands(alloc, stack, operands)?;
            left.extend_from_slice(made)?;
            Ok(left)
        }
    }
}

/// The label behind an instruction; `Bad` where the stack has more words than it may.
pub(crate) fn moved(
    alloc: Global,
    most: u16,
    transfer: &Transfer,
    before: &Label<u64>,
) -> Result<Label<u64>, AllocError>
    ensures { IfOk result (λ l. l ≡ moves.moved 0 most transfer.now.made transfer.now.effect before.now) }
{
    match before {
        Label::Unreached => Ok(Label::Unreached),
        Label::Bad => Ok(Label::Bad),
        Label::Frame { locals, stack } => {
            let (locals, stack) = (locals.as_slice(), stack.as_slice());
            let left = moved_stack(
                alloc,
                transfer.made.as_slice(),
                &transfer.effect,
                locals,
                stack,
            )?;
            if left.len() > most as usize {
                return Ok(Label::Bad);
            }
            Ok(Label::Frame {
                locals: Items::from_vec(moved_locals(alloc, &transfer.effect, locals, stack)?),
                stack: Items::from_vec(left),
            })
        }
    }
}

/// The label that an exception handler gets: the local variables before the instruction, and the raised object alone on the
/// stack.
pub(crate) fn caught_label(
    alloc: Global,
    caught: u64,
    before: &Label<u64>,
) -> Result<Label<u64>, AllocError>
    ensures { IfOk result (λ l. l ≡ moves.caught_label caught before.now) }
{
    match before {
        Label::Unreached => Ok(Label::Unreached),
        Label::Bad => Ok(Label::Bad),
        Label::Frame { locals, .. } => Ok(Label::Frame {
            locals: Items::from_slice(alloc, locals.as_slice())?,
            stack: Items::from_slice(alloc, &[caught])?,
        }),
    }
}
