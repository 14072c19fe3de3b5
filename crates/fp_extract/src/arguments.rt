//! The origins of the operands of instructions.
ghost use Rattle.std.specs.Prelude.{◌≡◌, ◌++◌, ◌-◌, [], length, slice_index_or, IfOk, OnOk};
ghost use Rattle.fp_facts.specs.Behaviour as behaviour;
ghost use Rattle.fp_facts.specs.Sorts.{words_of_kinds};

use fp_facts::OriginSet;
use fp_flow::{sort_of, width};
use fp_model::{Instr, Kind};
use std::alloc::{AllocError, Global};

/// The origins of the word at a depth of the stack, where 1 is its top.
pub(crate) fn operand(
    alloc: Global,
    words: &[OriginSet],
    depth: usize,
) -> Result<OriginSet, AllocError>
    ensures { IfOk result (λ set. set ≡ behaviour.operand words.now depth) }
{
    let place = words.len().saturating_sub(depth);
    first(alloc, &words[place..])
}

// The origins of the first of some words, none where there is none.
fn first(alloc: Global, words: &[OriginSet]) -> Result<OriginSet, AllocError>
    ensures { IfOk result (λ set. set ≡ slice_index_or words.now 0 []) }
{
    match words.get(0) {
        Some(set) => set.copy(alloc),
        None => Ok(OriginSet::new(alloc)),
    }
}

// How many words values of types take.
fn count_words(kinds: &[Kind]) -> usize
    ensures { result ≡ length (words_of_kinds kinds.now) }
{
    let mut count = 0;
    for kind in kinds {
        count += width(sort_of(*kind));
    }
    count
}

// Adds the origins of arguments of these types, whose words stand first among some.
fn push_arguments(
    alloc: Global,
    kinds: &[Kind],
    words: &[OriginSet],
    sets: &mut Vec<OriginSet>,
) -> Result<(), AllocError>
    ensures { OnOk result (sets.new.items ≡ sets.old.items ++ behaviour.argument_sets kinds.now words.now) }
{
    let mut rest = words;
    for kind in kinds {
        sets.push(first(alloc, rest)?)?;
        let taken = width(sort_of(*kind)).min(rest.len());
        rest = &rest[taken..];
    }
    Ok(())
}

// Where the words of a call's arguments without its receiver begin.
fn place_of_arguments(kinds: &[Kind], words: &[OriginSet]) -> usize
    ensures { result ≡ length words.now - length (words_of_kinds kinds.now) }
{
    words.len().saturating_sub(count_words(kinds))
}

// The origins of the arguments of a call without a receiver.
fn arguments(
    alloc: Global,
    kinds: &[Kind],
    words: &[OriginSet],
) -> Result<Vec<OriginSet>, AllocError>
    ensures { IfOk result (λ sets. sets.items ≡ behaviour.arguments kinds.now words.now) }
{
    let mut sets = Vec::with_capacity(alloc, kinds.len())?;
    let place = place_of_arguments(kinds, words);
    push_arguments(alloc, kinds, &words[place..], &mut sets)?;
    Ok(sets)
}

// Those of a call with a receiver, which comes first.
fn with_receiver(
    alloc: Global,
    kinds: &[Kind],
    words: &[OriginSet],
) -> Result<Vec<OriginSet>, AllocError>
    ensures { IfOk result (λ sets. sets.items ≡ behaviour.arguments_with_receiver kinds.now words.now) }
{
    let mut sets = Vec::new(alloc);
    let place = place_of_arguments(kinds, words);
    sets.push(first(alloc, &words[place.saturating_sub(1)..])?)?;
    push_arguments(alloc, kinds, &words[place..], &mut sets)?;
    Ok(sets)
}

/// The origins of the arguments of an instruction, the receiver first; none but a call has any.
pub(crate) fn call_arguments(
    alloc: Global,
    instr: &Instr,
    words: &[OriginSet],
) -> Result<Vec<OriginSet>, AllocError>
    ensures { IfOk result (λ sets. sets.items ≡ behaviour.call_arguments instr.now words.now) }
{
    match instr {
        Instr::InvokeStatic { kinds, .. } => arguments(alloc, kinds.args.as_slice(), words),
        Instr::InvokeSpecial { kinds, .. }
        | Instr::InvokeVirtual { kinds, .. }
        | Instr::InvokeInterface { kinds, .. } => {
            with_receiver(alloc, kinds.args.as_slice(), words)
        }
        Instr::InvokeDynamic { descr, .. } => arguments(alloc, descr.args.as_slice(), words),
        _ => Ok(Vec::new(alloc)),
    }
}
