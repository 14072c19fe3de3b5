//! Lists of the bits that are set.
ghost use Rattle.std.specs.Prelude.{◌≡◌, ◌+◌, ◌*◌, ◌<◌, ◌≤◌, ◌^◌, ◌++◌, ◌∷◌, [], decimal, if◌then◌else◌, length, map, OnOk, OnErr, IsTrue, ◌≢◌, false};
ghost use Rattle.fp_cells.specs.Lists.{Extends};
ghost use Rattle.fp_cells.specs.Cells.{places_of};
ghost use Rattle.fp_cells.specs.Texts.{callees_text, numbers};
ghost use Rattle.fp_cells.specs.Words.{is_set as is_bit_set, set_bits_from};

use itoa::Buffer;
use std::alloc::AllocError;

/// Whether the bit is set.
pub fn is_set(words: &[u64], bit: usize) -> bool
    requires { bit < 64 * length words.now }
    ensures { result ≡ is_bit_set words.now bit }
{
    words[bit / 64] >> (bit % 64) & 1 == 1
}

/// Whether a bit is set from the bit `first` on.
pub fn has_bits_from(words: &[u64], first: usize) -> bool
    requires { (first ≤ 64 * length words.now) × (length words.now ≤ 2 ^ 26) }
    ensures some { IsTrue result → set_bits_from first words.now ≢ [] }
    ensures none { result ≡ false → set_bits_from first words.now ≡ [] }
{
    for i in 0..words.len() * 64 - first {
        if is_set(words, first + i) {
            return true;
        }
    }
    false
}

/// Appends the numbers of the bits that are set from the bit `first` on, which has the number 0.
pub fn append_numbers(words: &[u64], first: usize, to: &mut Vec<u8>) -> Result<(), AllocError>
    requires { (first ≤ 64 * length words.now) × (length words.now ≤ 2 ^ 26) }
    ensures ok { OnOk result (to.new.items ≡ to.old.items ++ numbers (set_bits_from first words.now)) }
    ensures err { OnErr result (Extends to.old.items to.new.items) }
{
    let mut is_first = true;
    for i in 0..words.len() * 64 - first {
        if is_set(words, first + i) {
            append_piece(is_first, Buffer::new().format(i).as_bytes(), to)?;
            is_first = false;
        }
    }
    if is_first {
        to.push(b'-')?;
    }
    Ok(())
}

/// Appends the texts of the targets whose bits are set, and of the outside, whose bit comes after theirs.
pub fn append_targets(
    words: &[u64],
    targets: &[Vec<u8>],
    to: &mut Vec<u8>,
) -> Result<(), AllocError>
    requires { (length words.now ≡ places_of (length targets.now + 1)) × (length targets.now + 1 < 2 ^ 32) }
    ensures ok { OnOk result (to.new.items ≡ to.old.items ++ callees_text words.now (map (λ t. t.items) targets.now)) }
    ensures err { OnErr result (Extends to.old.items to.new.items) }
{
    let mut is_first = true;
    for (i, target) in targets.iter().enumerate() {
        if is_set(words, i) {
            append_piece(is_first, target, to)?;
            is_first = false;
        }
    }
    if is_set(words, targets.len()) {
        return append_piece(is_first, b"outside", to);
    }
    if is_first {
        to.push(b'-')?;
    }
    Ok(())
}

// Appends a piece, after a comma where it is not the first.
fn append_piece(is_first: bool, piece: &[u8], to: &mut Vec<u8>) -> Result<(), AllocError>
    ensures ok { OnOk result (to.new.items ≡ to.old.items ++ (if is_first then piece.now else 44 ∷ piece.now)) }
    ensures err { OnErr result (Extends to.old.items to.new.items) }
{
    if !is_first {
        to.push(b',')?;
    }
    to.extend_from_slice(piece)
}
