//! The words that places start with.
ghost use Rattle.std.specs.Prelude.{◌≡◌, ◌-◌, ◌*◌, ◌++◌, map, nat_le, ◌^◌, if◌then◌else◌, IfOk, OnOk};
ghost use Rattle.std.specs.List.{flat_map, range_with_len};
ghost use Rattle.fp_base.specs.Names.{has_name};
ghost use Rattle.fp_cells.specs.Cells.{places_of};
ghost use Rattle.fp_system.specs.Java.{analysis_of, full_word};
ghost use Rattle.fp_system.specs.Starts.{start_words, words_of};

use fp_base::Names;
use fp_cells::{Cells, KindId, count_places};
use std::alloc::{AllocError, Global};

/// The words that the places of the cells start with: none of the bits of a kind whose analysis is selected, and all bits of any
/// other one, its fallback.
pub fn start_words(alloc: Global, cells: &Cells, selected: &Names) -> Result<Vec<u64>, AllocError>
    ensures { IfOk result (λ words. words.items ≡ start_words (has_name selected.now) cells.now) }
{
    let mut words = Vec::new(alloc);
    for i in 0..cells.len() {
        let (kind, _, bits) = cells.cell(i).unwrap();
        let is_selected = selected.find(analysis_of(kind)).is_some();
        push_words(bits, is_selected, &mut words)?;
    }
    Ok(words)
}

// Appends the words of a cell that has so many bits.
fn push_words(bits: u32, is_selected: bool, words: &mut Vec<u64>) -> Result<(), AllocError>
    ensures { OnOk result (words.new.items ≡ words.old.items ++ words_of is_selected bits) }
{
    for i in 0..count_places(bits) {
        words.push(start_word(is_selected, bits.saturating_sub(64 * i)))?;
    }
    Ok(())
}

fn start_word(is_selected: bool, bits: u32) -> u64
    ensures { result ≡ (if is_selected then 0 else full_word bits) }
{
    if is_selected { 0 } else { full_word(bits) }
}

// The word that has so many bits from its lowest on, all set.
fn full_word(bits: u32) -> u64
    ensures { result ≡ full_word bits }
{
    if bits >= 64 {
        u64::MAX
    } else {
        (1 << bits) - 1
    }
}

// The name of the analysis that computes a kind.
fn analysis_of(kind: KindId) -> &'static [u8]
    ensures { result.now ≡ analysis_of kind }
{
    match kind {
        KindId::Declared => b"declared",
        KindId::Inst | KindId::Reach | KindId::Callees => b"rta",
        KindId::Assign => b"assign",
        KindId::Immut | KindId::Timmut => b"immut",
        KindId::Fresh => b"fresh",
        KindId::Leak | KindId::Escape => b"escape",
        KindId::Purity => b"purity",
    }
}
