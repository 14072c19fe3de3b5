//! What each form of instruction takes and leaves (JVMS SE 21 section 6.5).
ghost use Rattle.std.specs.Prelude.{◌≡◌, ◌≤◌, true, ◌++◌, ◌∷◌, [], replicate, IfOk};
ghost use Rattle.fp_facts.specs.Effects as effects;
ghost use Rattle.fp_facts.specs.Sorts as words;
ghost use Rattle.fp_facts.specs.declared.effect.Effect.TheVariants.{Takes};
ghost use Rattle.fp_flow.specs.Plain.{is_plain};

use crate::sorts::{push_words, result_words, sort_of, words_of};
use fp_facts::{Effect, Operands, Shuffling};
use fp_model::{Descr, Instr, Kind, Shared, Sort};
use sqlite_items::Items;
use std::alloc::{AllocError, Global};

/// The sorts of numbers in the order of the opcodes.
fn number_sort(number: u8) -> Sort
    ensures { result ≡ effects.number_sort number }
{
    match number {
        0 => Sort::Int,
        1 => Sort::Long,
        2 => Sort::Float,
        _ => Sort::Double,
    }
}

/// Those other than one, in that order.
fn other_number(number: u8, other: u8) -> Sort
    requires { other ≤ 3 }
    ensures { result ≡ effects.other_number number other }
{
    number_sort(if other < number { other } else { other + 1 })
}

/// The words of two values of one sort.
fn two_of(alloc: Global, sort: Sort) -> Result<Vec<Sort>, AllocError>
    ensures { IfOk result (λ v. v.items ≡ effects.twice (words.words_of sort)) }
{
    let mut words = words_of(alloc, sort)?;
    push_words(&mut words, sort)?;
    Ok(words)
}

/// The words of a value below an int.
fn above_int(alloc: Global, sort: Sort) -> Result<Vec<Sort>, AllocError>
    ensures { IfOk result (λ v. v.items ≡ words.words_of sort ++ Sort.Int ∷ []) }
{
    let mut words = words_of(alloc, sort)?;
    words.push(Sort::Int)?;
    Ok(words)
}

/// The operands of an arithmetic instruction, from `iadd`, 96, on.
#[tactic(auto, unfolding(fp_facts::specs::Effects::op_takes))]
fn op_takes(alloc: Global, op: u8) -> Result<Vec<Sort>, AllocError>
    ensures { IfOk result (λ v. v.items ≡ effects.op_takes op) }
{
    if op < 116 {
        two_of(alloc, number_sort(op.saturating_sub(96) % 4))
    } else if op < 120 {
        words_of(alloc, number_sort(op.saturating_sub(116)))
    } else if op < 126 {
        above_int(alloc, number_sort(op % 2))
    } else if op < 132 {
        two_of(alloc, number_sort(op % 2))
    } else if op < 145 {
        words_of(alloc, number_sort(op.saturating_sub(133) / 3))
    } else if op < 148 {
        words_of(alloc, Sort::Int)
    } else if op == 148 {
        two_of(alloc, Sort::Long)
    } else if op < 151 {
        two_of(alloc, Sort::Float)
    } else {
        two_of(alloc, Sort::Double)
    }
}

/// The results of an arithmetic instruction, from `iadd`, 96, on.
#[tactic(auto, unfolding(fp_facts::specs::Effects::op_gives))]
fn op_gives(alloc: Global, op: u8) -> Result<Vec<Sort>, AllocError>
    ensures { IfOk result (λ v. v.items ≡ effects.op_gives op) }
{
    if op < 116 {
        words_of(alloc, number_sort(op.saturating_sub(96) % 4))
    } else if op < 120 {
        words_of(alloc, number_sort(op.saturating_sub(116)))
    } else if op < 132 {
        words_of(alloc, number_sort(op % 2))
    } else if op < 145 {
        words_of(
            alloc,
            other_number(op.saturating_sub(133) / 3, op.saturating_sub(133) % 3),
        )
    } else {
        words_of(alloc, Sort::Int)
    }
}

/// The sort of an array's element, in the order of the opcodes from `iaload` and from `iastore` on.
fn element_sort(number: u8) -> Sort
    ensures { result ≡ effects.element_sort number }
{
    match number {
        0..=3 => number_sort(number),
        4 => Sort::Ref,
        _ => Sort::Int,
    }
}

/// The operands of a branch on a comparison.
#[tactic(auto, unfolding(fp_facts::specs::Effects::if_takes))]
fn if_takes(alloc: Global, op: u8) -> Result<Vec<Sort>, AllocError>
    ensures { IfOk result (λ v. v.items ≡ effects.if_takes op) }
{
    if op < 159 {
        Vec::from_slice(alloc, &[Sort::Int])
    } else if op < 165 {
        Vec::from_slice(alloc, &[Sort::Int, Sort::Int])
    } else if op < 167 {
        Vec::from_slice(alloc, &[Sort::Ref, Sort::Ref])
    } else {
        Vec::from_slice(alloc, &[Sort::Ref])
    }
}

/// The words that a return returns, from `ireturn`, 172, on.
#[tactic(auto, unfolding(fp_facts::specs::Effects::return_takes))]
pub fn return_takes(alloc: Global, op: u8) -> Result<Vec<Sort>, AllocError>
    ensures { IfOk result (λ v. v.items ≡ effects.return_takes op) }
{
    if op < 176 {
        words_of(alloc, number_sort(op.saturating_sub(172)))
    } else if op == 176 {
        Vec::from_slice(alloc, &[Sort::Ref])
    } else {
        Ok(Vec::new(alloc))
    }
}

fn shuffling_of(
    alloc: Global,
    takes: u8,
    cuts: &[u8],
    order: &[u8],
) -> Result<Shuffling, AllocError>
    ensures { IfOk result (λ s. s ≡ record { takes = takes; cuts = cuts.now; order = order.now }) }
{
    let cuts = Items::from_slice(alloc, cuts)?;
    let order = Items::from_slice(alloc, order)?;
    Ok(Shuffling { takes, cuts, order })
}

/// How the words on top of the stack are moved, from `pop`, 87, to `swap`, 95.
#[tactic(auto, unfolding(fp_facts::specs::Effects::shuffling))]
fn shuffling(alloc: Global, op: u8) -> Result<Shuffling, AllocError>
    ensures { IfOk result (λ s. s ≡ effects.shuffling op) }
{
    match op {
        87 => shuffling_of(alloc, 1, &[1], &[]),
        88 => shuffling_of(alloc, 2, &[2], &[]),
        89 => shuffling_of(alloc, 1, &[1], &[1, 1]),
        90 => shuffling_of(alloc, 2, &[1, 2], &[1, 2, 1]),
        91 => shuffling_of(alloc, 3, &[1, 3], &[1, 3, 2, 1]),
        92 => shuffling_of(alloc, 2, &[2], &[2, 1, 2, 1]),
        93 => shuffling_of(alloc, 3, &[2, 3], &[2, 1, 3, 2, 1]),
        94 => shuffling_of(alloc, 4, &[2, 4], &[2, 1, 4, 3, 2, 1]),
        _ => shuffling_of(alloc, 2, &[1, 2], &[1, 2]),
    }
}

fn takes(operands: Vec<Sort>, results: Vec<Sort>) -> Effect
    ensures { result ≡ Takes operands.items results.items }
{
    Effect::Takes {
        operands: Operands::of_words(operands),
        results: Items::from_vec(results),
    }
}

/// Pops these words, and pushes nothing.
fn pops(alloc: Global, operands: &[Sort]) -> Result<Effect, AllocError>
    ensures { IfOk result (λ e. e ≡ Takes operands.now []) }
{
    Ok(takes(Vec::from_slice(alloc, operands)?, Vec::new(alloc)))
}

/// Pushes one word of a reference or of a number in one word, above what it pops.
fn gives(alloc: Global, operands: &[Sort], results: Sort) -> Result<Effect, AllocError>
    ensures { IfOk result (λ e. e ≡ Takes operands.now (words.words_of results)) }
{
    Ok(takes(Vec::from_slice(alloc, operands)?, words_of(alloc, results)?))
}

/// Pops these words and a value above them.
fn puts(alloc: Global, operands: &[Sort], value: Sort) -> Result<Effect, AllocError>
    ensures { IfOk result (λ e. e ≡ Takes (operands.now ++ words.words_of value) []) }
{
    let mut words = Vec::from_slice(alloc, operands)?;
    push_words(&mut words, value)?;
    Ok(takes(words, Vec::new(alloc)))
}

/// A call: pops the words of a receiver, where there is one, and of the arguments, which its descriptor tells, and pushes those of
/// the result.
fn call(alloc: Global, receiver: &[Sort], kinds: &Shared<Descr>) -> Result<Effect, AllocError>
    ensures { IfOk result (λ e. e ≡ Takes (receiver.now ++ words.words_of_kinds kinds.now.args) (words.result_words kinds.now.result)) }
{
    let receiver = Vec::from_slice(alloc, receiver)?;
    let results = result_words(alloc, kinds.result)?;
    Ok(Effect::Takes {
        operands: Operands::of_call(receiver, kinds)?,
        results: Items::from_vec(results),
    })
}

/// An array of so many dimensions: pops an int for each.
fn new_array(alloc: Global, dims: u8) -> Result<Effect, AllocError>
    ensures { IfOk result (λ e. e ≡ Takes (replicate dims Sort.Int) (Sort.Ref ∷ [])) }
{
    let mut sizes = Vec::new(alloc);
    for _ in 0..dims {
        sizes.push(Sort::Int)?;
    }
    Ok(takes(sizes, words_of(alloc, Sort::Ref)?))
}

/// The effect of an instruction that neither reads a field nor calls a method.
fn plain(alloc: Global, instr: &Instr) -> Result<Effect, AllocError>
    requires { is_plain instr.now ≡ true }
    ensures { IfOk result (λ e. e ≡ effects.effect_of instr.now) }
{
    match instr {
        Instr::Null | Instr::ConstRef | Instr::New { .. } => gives(alloc, &[], Sort::Ref),
        Instr::Const { sort } => gives(alloc, &[], *sort),
        Instr::Load { sort, at } => Ok(Effect::Loads {
            sort: *sort,
            at: *at,
        }),
        Instr::Store { sort, at } => Ok(Effect::Stores {
            sort: *sort,
            at: *at,
        }),
        Instr::ArrayLoad { op } => gives(
            alloc,
            &[Sort::Ref, Sort::Int],
            element_sort(op.saturating_sub(46)),
        ),
        Instr::ArrayStore { op } => puts(
            alloc,
            &[Sort::Ref, Sort::Int],
            element_sort(op.saturating_sub(79)),
        ),
        Instr::Shuffle { op } => Ok(Effect::Shuffles(shuffling(alloc, *op)?)),
        Instr::Op { op } => Ok(takes(op_takes(alloc, *op)?, op_gives(alloc, *op)?)),
        Instr::Inc { at } => Ok(Effect::Counts { at: *at }),
        Instr::If { op, .. } => Ok(takes(if_takes(alloc, *op)?, Vec::new(alloc))),
        Instr::Switch { .. } => pops(alloc, &[Sort::Int]),
        Instr::Return { op } => Ok(takes(return_takes(alloc, *op)?, Vec::new(alloc))),
        Instr::NewArray { dims, .. } => new_array(alloc, *dims),
        Instr::ArrayLength | Instr::InstanceOf { .. } => gives(alloc, &[Sort::Ref], Sort::Int),
        Instr::Throw | Instr::Monitor => pops(alloc, &[Sort::Ref]),
        Instr::CheckCast { .. } => Ok(Effect::Keeps),
        _ => pops(alloc, &[]),
    }
}

/// What an instruction takes and leaves.
pub fn effect(alloc: Global, instr: &Instr) -> Result<Effect, AllocError>
    ensures { IfOk result (λ e. e ≡ effects.effect_of instr.now) }
{
    match instr {
        Instr::GetStatic { kind, .. } => gives(alloc, &[], sort_of(*kind)),
        Instr::PutStatic { kind, .. } => puts(alloc, &[], sort_of(*kind)),
        Instr::GetField { kind, .. } => gives(alloc, &[Sort::Ref], sort_of(*kind)),
        Instr::PutField { kind, .. } => puts(alloc, &[Sort::Ref], sort_of(*kind)),
        Instr::InvokeVirtual { kinds, .. }
        | Instr::InvokeSpecial { kinds, .. }
        | Instr::InvokeInterface { kinds, .. } => call(alloc, &[Sort::Ref], kinds),
        Instr::InvokeStatic { kinds, .. } => call(alloc, &[], kinds),
        Instr::InvokeDynamic { descr, .. } => call(alloc, &[], descr),
        _ => plain(alloc, instr),
    }
}
