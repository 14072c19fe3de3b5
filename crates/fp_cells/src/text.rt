//! The texts of values.
mod list;

ghost use Rattle.std.specs.Prelude.{◌≡◌, ◌+◌, ◌*◌, ◌<◌, ◌≤◌, ◌^◌, ◌++◌, length, map, not, OnOk, OnErr};
ghost use Rattle.fp_cells.specs.Lists.{Extends};
ghost use Rattle.fp_cells.specs.Texts.{FitsKind, flag_text, chain_text, purity_text, value_text_of};
ghost use Rattle.fp_cells.specs.Words.{is_set, set_bits_from};

use crate::kind::KindId;
use list::{append_numbers, append_targets, has_bits_from, is_set};
use std::alloc::AllocError;

/// Appends the text of the value `words` of a cell of that kind: a word per place of the cell, the lowest bits first.
///
/// `targets` are the texts of the methods that a call site may call, in the order of their bits, and empty for other kinds.
/// Bits that the kind doesn't have aren't looked at. Where there is no memory, `to` stays as it was.
pub fn value_text(
    kind: KindId,
    words: &[u64],
    targets: &[Vec<u8>],
    to: &mut Vec<u8>,
) -> Result<(), AllocError>
    requires { FitsKind kind (length words.now) (length targets.now) }
    ensures ok { OnOk result (to.new.items ≡ to.old.items ++ value_text_of kind words.now (map (λ t. t.items) targets.now)) }
    ensures err { OnErr result (to.new.items ≡ to.old.items) }
{
    let start = to.len();
    let appended = append_value(kind, words, targets, to);
    if appended.is_err() {
        to.truncate(start);
    }
    appended
}

fn append_value(
    kind: KindId,
    words: &[u64],
    targets: &[Vec<u8>],
    to: &mut Vec<u8>,
) -> Result<(), AllocError>
    requires { FitsKind kind (length words.now) (length targets.now) }
    ensures ok { OnOk result (to.new.items ≡ to.old.items ++ value_text_of kind words.now (map (λ t. t.items) targets.now)) }
    ensures err { OnErr result (Extends to.old.items to.new.items) }
{
    match kind {
        KindId::Declared => append_flag(words, b"final", b"open", to),
        KindId::Inst => append_flag(words, b"absent", b"present", to),
        KindId::Reach => append_flag(words, b"unreached", b"reached", to),
        KindId::Callees => append_targets(words, targets, to),
        KindId::Assign => append_flag(words, b"final", b"assignable", to),
        KindId::Immut | KindId::Timmut => append_chain(words, b"deep", b"shallow", b"mutable", to),
        KindId::Fresh => append_flag(words, b"fresh", b"other", to),
        KindId::Leak => append_numbers(words, 0, to),
        KindId::Escape => append_chain(words, b"none", b"caller", b"global", to),
        KindId::Purity => append_purity(words, to),
    }
}

fn append_flag(words: &[u64], clear: &[u8], set: &[u8], to: &mut Vec<u8>) -> Result<(), AllocError>
    requires { length words.now ≡ 1 }
    ensures ok { OnOk result (to.new.items ≡ to.old.items ++ flag_text words.now clear.now set.now) }
    ensures err { OnErr result (to.new.items ≡ to.old.items) }
{
    to.extend_from_slice(if is_set(words, 0) { set } else { clear })
}

fn append_chain(
    words: &[u64],
    least: &[u8],
    middle: &[u8],
    most: &[u8],
    to: &mut Vec<u8>,
) -> Result<(), AllocError>
    requires { length words.now ≡ 1 }
    ensures ok { OnOk result (to.new.items ≡ to.old.items ++ chain_text words.now least.now middle.now most.now) }
    ensures err { OnErr result (to.new.items ≡ to.old.items) }
{
    let text = if is_set(words, 1) {
        most
    } else if is_set(words, 0) {
        middle
    } else {
        least
    };
    to.extend_from_slice(text)
}

#[tactic(auto, using(crate::proofs::ListLemmas::purities))]
fn append_purity(words: &[u64], to: &mut Vec<u8>) -> Result<(), AllocError>
    requires { (1 ≤ length words.now) × (length words.now ≤ 2 ^ 26) }
    ensures ok { OnOk result (to.new.items ≡ to.old.items
        ++ purity_text (is_set words.now 0) (is_set words.now 1) (set_bits_from 2 words.now)) }
    ensures err { OnErr result (Extends to.old.items to.new.items) }
{
    let reads = is_set(words, 0);
    if is_set(words, 1) {
        return to.extend_from_slice(b"impure");
    }
    if !has_bits_from(words, 2) {
        return to.extend_from_slice(if reads { b"sef" } else { b"pure" });
    }
    to.extend_from_slice(if reads { b"scontext " } else { b"context " })?;
    append_numbers(words, 2, to)
}
