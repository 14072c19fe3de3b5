//! What is known of the texts of a constant pool, each of which is read once.
ghost use Rattle.std.specs.Prelude.{◌≡◌, ◌≤◌, true, List, length, map, IfOk, IsTrue};
ghost use Rattle.std.specs.List.{list_all};
ghost use Rattle.fp_model.specs.declared.raw.pool.Entry.{Entry};
ghost use Rattle.fp_model.specs.Descriptor.{is_field_descriptor};
ghost use Rattle.fp_model.specs.Entries.{passes, text_at};
ghost use Rattle.fp_ops.specs.Checked.{is_short_entry};
ghost use Rattle.fp_class.specs.Texts.{IsTexts, words_at, words_in};

use crate::descriptors::{is_marked, mark_descriptors};
use crate::numbers::number_texts;
use fp_model::{Entry, arg_words};
use std::alloc::{AllocError, Global};

/// The texts of a constant pool, by index.
#[derive(Drop)]
pub struct Texts {
    /// Numbers, equal ones exactly for equal texts.
    pub numbers: Vec<u32>,
    /// Which texts are field descriptors.
    pub fields: Vec<bool>,
    /// The words of the parameters of those that are method descriptors.
    pub words: Vec<Option<u32>>,
}

/// The words of the parameters of an entry, where it is the text of a method descriptor.
fn words_of(entry: &Entry) -> Option<u32>
    requires { is_short_entry entry.now ≡ true }
    ensures { result ≡ words_in entry.now }
{
    match entry {
        Entry::Utf8(text) => arg_words(text.as_slice()),
        _ => None,
    }
}

/// The same for each index.
fn mark_words(alloc: Global, entries: &[Entry]) -> Result<Vec<Option<u32>>, AllocError>
    requires { IsTrue (list_all is_short_entry entries.now) }
    ensures { IfOk result (λ words. words.items ≡ map words_in entries.now) }
{
    let mut words = Vec::with_capacity(alloc, entries.len())?;
    for entry in entries {
        words.push(words_of(entry))?;
    }
    Ok(words)
}

/// Reads the texts of a constant pool.
pub fn read_texts(alloc: Global, entries: &[Entry]) -> Result<Texts, AllocError>
    requires few { length entries.now ≤ 65536 }
    requires short { IsTrue (list_all is_short_entry entries.now) }
    ensures { IfOk result (IsTexts entries.now) }
{
    let numbers = number_texts(alloc, entries)?;
    let fields = mark_descriptors(alloc, entries)?;
    let words = mark_words(alloc, entries)?;
    Ok(Texts {
        numbers,
        fields,
        words,
    })
}

/// Whether the text at an index is a field descriptor.
#[tactic(auto, using(crate::proofs::Marks::marked))]
pub fn is_field_type(texts: &Texts, index: u16) -> bool
    ensures { (entries : List Entry) → IsTexts entries texts.now
        → result ≡ passes is_field_descriptor (text_at entries index) }
{
    is_marked(texts.fields.as_slice(), index)
}

/// The words of the parameters of the text at an index, where it is a method descriptor.
#[tactic(auto, using(crate::proofs::Marks::worded))]
pub fn parameter_words(texts: &Texts, index: u16) -> Option<u32>
    ensures { (entries : List Entry) → IsTexts entries texts.now → result ≡ words_at entries index }
{
    texts.words.get(index as usize).copied().flatten()
}
