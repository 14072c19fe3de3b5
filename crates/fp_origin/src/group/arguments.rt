//! The words of a method's arguments.
ghost use Rattle.std.specs.Prelude.{◌≡◌, ◌≤◌, ◌+◌, ◌++◌, length, map, IfOk, OnOk};
ghost use Rattle.fp_model.specs.SoundCode.{method_words};
ghost use Rattle.fp_facts.specs.Origins.{entry_origins};
ghost use Rattle.fp_origin.specs.Groups as groups;

use super::bits::{origin_bits, reference_words};
use fp_facts::Origin;
use fp_flow::{sort_of, words_of};
use fp_model::flags::is_static;
use fp_model::{Kind, Method};
use std::alloc::{AllocError, Global};

/// Adds the words of arguments from a number on.
fn push_arguments(
    alloc: Global,
    to: &mut Vec<u64>,
    group: &[Origin],
    first: u16,
    kinds: &[Kind],
) -> Result<(), AllocError>
    requires few { length group.now ≤ 64 }
    requires numbered { first + length kinds.now ≤ 65535 }
    ensures { OnOk result (to.new.items ≡ to.old.items ++ groups.argument_bits group.now first kinds.now) }
{
    for (at, kind) in kinds.iter().enumerate() {
        let bits = origin_bits(group, Origin::Param(first + at as u16));
        let sorts = words_of(alloc, sort_of(*kind))?;
        to.extend_from_slice(reference_words(alloc, bits, sorts.as_slice())?.as_slice())?;
    }
    Ok(())
}

/// The words of a method's arguments, the receiver of an instance method first, for which so many local variables are enough.
#[tactic(auto, using(crate::proofs::GroupBits::entering))]
pub(crate) fn entry_words(
    alloc: Global,
    group: &[Origin],
    method: &Method,
    max_locals: u16,
) -> Result<Vec<u64>, AllocError>
    requires few { length group.now ≤ 64 }
    requires room { method_words method.now ≤ max_locals }
    ensures { IfOk result (λ v. v.items ≡ map (groups.word_bits group.now) (entry_origins method.now)) }
{
    let mut words = Vec::with_capacity(alloc, max_locals as usize)?;
    let kinds = method.kinds.args.as_slice();
    if is_static(method.flags) {
        push_arguments(alloc, &mut words, group, 0, kinds)?;
    } else {
        words.push(origin_bits(group, Origin::Param(0)))?;
        push_arguments(alloc, &mut words, group, 1, kinds)?;
    }
    Ok(words)
}
