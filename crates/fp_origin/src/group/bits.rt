//! The bits of origins in a group.
ghost use Rattle.std.specs.Prelude.{◌≡◌, ◌≤◌, length, map, IfOk};
ghost use Rattle.fp_facts.specs.Effects as effects;
ghost use Rattle.fp_facts.specs.Origins as origins;
ghost use Rattle.fp_facts.specs.Sorts as sorts;
ghost use Rattle.fp_model.specs.declared.kind.Sort.TheVariants.{Ref};
ghost use Rattle.fp_origin.specs.Groups as groups;

use fp_facts::{Effect, Origin};
use fp_model::{Instr, Sort};
use sqlite_items::Items;
use std::alloc::{AllocError, Global};

/// Whether two origins are one.
fn same_origin(a: Origin, b: Origin) -> bool
    ensures { result ≡ origins.same_origin a b }
{
    match (a, b) {
        (Origin::Param(i), Origin::Param(j)) => i == j,
        (Origin::New(i), Origin::New(j)) => i == j,
        (Origin::Result(i), Origin::Result(j)) => i == j,
        (Origin::Other, Origin::Other) => true,
        _ => false,
    }
}

/// The bits of an origin in a group, none where it is not there.
#[tactic(auto, using(crate::proofs::GroupBits::fitting))]
pub(crate) fn origin_bits(group: &[Origin], origin: Origin) -> u64
    requires { length group.now ≤ 64 }
    ensures { result ≡ groups.bits_in group.now origin }
{
    let mut bits = 0;
    for at in (0..group.len()).rev() {
        bits = u64::from(same_origin(group[at], origin)) + 2 * bits;
    }
    bits
}

/// The bits of a word that has an origin, or none.
fn word_bits(group: &[Origin], origin: Option<Origin>) -> u64
    requires { length group.now ≤ 64 }
    ensures { result ≡ groups.word_bits group.now origin }
{
    match origin {
        Some(origin) => origin_bits(group, origin),
        None => 0,
    }
}

/// The origin of a reference that the instruction at an offset makes; null has none, and what is moved keeps its own.
fn made_origin(pc: u16, instr: &Instr) -> Option<Origin>
    ensures { result ≡ origins.made_origin pc instr.now }
{
    match instr {
        Instr::New { .. } | Instr::NewArray { .. } => Some(Origin::New(pc)),
        Instr::InvokeVirtual { .. }
        | Instr::InvokeSpecial { .. }
        | Instr::InvokeStatic { .. }
        | Instr::InvokeInterface { .. }
        | Instr::InvokeDynamic { .. } => Some(Origin::Result(pc)),
        Instr::ConstRef
        | Instr::ArrayLoad { .. }
        | Instr::GetStatic { .. }
        | Instr::GetField { .. } => Some(Origin::Other),
        _ => None,
    }
}

/// The sorts of the words that an effect makes anew.
fn made_sorts(effect: &Effect) -> &[Sort]
    ensures { result.now ≡ origins.made_sorts effect.now }
{
    match effect {
        Effect::Takes { results, .. } => results.as_slice(),
        _ => &[],
    }
}

fn is_reference(sort: Sort) -> bool
    ensures { result ≡ sorts.same_sort sort Ref }
{
    sort == Sort::Ref
}

/// Words of these sorts, of which the references have the bits.
pub(crate) fn reference_words(
    alloc: Global,
    bits: u64,
    sorts: &[Sort],
) -> Result<Vec<u64>, AllocError>
    ensures { IfOk result (λ v. v.items ≡ groups.reference_words bits sorts.now) }
{
    let mut words = Vec::with_capacity(alloc, sorts.len())?;
    for sort in sorts {
        words.push(if is_reference(*sort) { bits } else { 0 })?;
    }
    Ok(words)
}

/// The bits of the words that the instruction at an offset makes anew.
#[tactic(auto, using(crate::proofs::GroupBits::making))]
pub(crate) fn made_bits(
    alloc: Global,
    group: &[Origin],
    pc: u16,
    instr: &Instr,
    effect: &Effect,
) -> Result<Items<u64>, AllocError>
    requires few { length group.now ≤ 64 }
    requires effect { effect.now ≡ effects.effect_of instr.now }
    ensures { IfOk result (λ words. words ≡ map (groups.word_bits group.now) (origins.made_words pc instr.now)) }
{
    let bits = word_bits(group, made_origin(pc, instr));
    Ok(Items::from_vec(reference_words(alloc, bits, made_sorts(effect))?))
}
