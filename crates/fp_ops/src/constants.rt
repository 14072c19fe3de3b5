//! What instructions ask of the constant pool (JVMS SE 21 sections 4.4 and 5.1).
ghost use Rattle.std.specs.Prelude.{◌≡◌, slice_get, take_while, length};
ghost use Rattle.fp_model.specs.Descriptor.{dimensions};
ghost use Rattle.fp_model.specs.Entries.{text_at, class_name_at, passes};
ghost use Rattle.fp_model.specs.Decoding as decoding;
ghost use Rattle.fp_model.specs.Decoding.{constant_words, is_two_words};
ghost use Rattle.fp_model.specs.References.{descr_at};

use fp_model::Entry;
use fp_model::look_up::{class_name, text};
use sqlite_items::at;

/// Whether the pair at an index has a descriptor of two words.
fn is_wide_pair(entries: &[Entry], index: u16) -> bool
    ensures { result ≡ passes is_two_words (descr_at entries.now index) }
{
    match at(entries, index as usize) {
        Some(Entry::Pair { descr, .. }) => is_wide(entries, *descr),
        _ => false,
    }
}

/// Whether the text at an index is the descriptor of a long or a double.
fn is_wide(entries: &[Entry], index: u16) -> bool
    ensures { result ≡ passes is_two_words (text_at entries.now index) }
{
    match text(entries, index) {
        Some(descr) => descr == b"J".as_slice() || descr == b"D".as_slice(),
        None => false,
    }
}

/// How many words the constant at an index takes when it is loaded, 0 where nothing there can be loaded.
pub fn words(entries: &[Entry], index: u16) -> u8
    ensures { result ≡ constant_words entries.now (slice_get entries.now index) }
{
    match at(entries, index as usize) {
        Some(
            Entry::Integer(_)
            | Entry::Float(_)
            | Entry::Class(_)
            | Entry::Text(_)
            | Entry::Handle { .. }
            | Entry::MethodType(_),
        ) => 1,
        Some(Entry::Long(_) | Entry::Double(_)) => 2,
        Some(Entry::Dynamic { pair, .. }) => { if is_wide_pair(entries, *pair) { 2 } else { 1 } }
        _ => 0,
    }
}

/// Whether a class has so many dimensions; of what is no class nothing is asked.
pub fn has_dimensions(entries: &[Entry], index: u16, dims: u8) -> bool
    ensures { result ≡ decoding.has_dimensions dims (class_name_at entries.now index) }
{
    match class_name(entries, index) {
        Some(name) => dims as usize <= count_dimensions(name),
        None => true,
    }
}

/// How many `[` a text begins with.
fn count_dimensions(text: &[u8]) -> usize
    ensures { result ≡ dimensions text.now }
{
    text.iter().take_while(|c| **c == b'[').count()
}
