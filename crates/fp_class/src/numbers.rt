//! The texts of a constant pool by numbers, and members by the numbers of their names and descriptors.
ghost use Rattle.std.specs.Prelude.{◌≡◌, ◌+◌, ◌<◌, ◌≤◌, length, slice_get, Some, IfOk, IfSome, OnOk};
ghost use Rattle.std.specs.Option.{option_to_list};
ghost use Rattle.fp_base.specs.Names.{with_names};
ghost use Rattle.fp_model.specs.Entries.{text_in};
ghost use Rattle.fp_class.specs.Keys.{IsNumbering};

use fp_base::{NameFault, Names};
use fp_model::Entry;
use std::alloc::{AllocError, Global};

/// The name and the descriptor of a member, by the numbers of their texts.
#[derive(Clone, Copy, Debug, PartialEq, Eq, PartialOrd, Ord)]
pub struct Key {
    pub name: u32,
    pub descr: u32,
}

/// A number for each index of the constant pool, equal ones exactly for equal texts.
pub fn number_texts(alloc: Global, entries: &[Entry]) -> Result<Vec<u32>, AllocError>
    requires { length entries.now ≤ 65536 }
    ensures { IfOk result (λ numbers. IsNumbering entries.now numbers.items) }
{
    let mut names = Names::new(alloc);
    let mut numbers = Vec::new(alloc);
    for entry in entries {
        let number = entry_number(alloc, entry, &mut names)?;
        numbers.push(number)?;
    }
    Ok(numbers)
}

/// The number of an entry's text, or 0 for an entry that is no text.
#[tactic(auto, using(fp_base::proofs::NameLemmas::interning))]
fn entry_number(alloc: Global, entry: &Entry, names: &mut Names) -> Result<u32, AllocError>
    requires { length names.old < 65536 }
    ensures number { IfOk result (λ n. IfSome (text_in (Some entry.now)) (λ text. slice_get names.new n ≡ Some text)) }
    ensures names { OnOk result (names.new ≡ with_names names.old (option_to_list (text_in (Some entry.now)))) }
    ensures few { OnOk result (length names.new ≤ length names.old + 1) }
{
    let Entry::Utf8(text) = entry else {
        return Ok(0);
    };
    match names.intern(alloc, text.as_slice()) {
        Ok(number) => Ok(number),
        Err(NameFault::Memory) => Err(AllocError),
        Err(NameFault::Full) => unreachable!(),
    }
}
