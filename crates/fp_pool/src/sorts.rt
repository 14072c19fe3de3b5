//! Which texts of a constant pool are descriptors, each text read once.
ghost use Rattle.std.specs.Prelude.{◌≡◌, None, map, option_map, slice_get, unwrap_or, IfOk};
ghost use Rattle.fp_model.specs.Entries.{text_at};
ghost use Rattle.fp_pool.specs.Sorts as spec;

use fp_model::{Entry, is_descr, is_kind};
use sqlite_items::at;
use std::alloc::{AllocError, Global};

/// Whether a text is a field descriptor, and whether it is a method descriptor (JVMS SE 21 section 4.3).
#[derive(Clone, Copy, Debug, PartialEq, Eq)]
pub struct Sorts {
    pub field: bool,
    pub method: bool,
}

/// What the text at each index of the constant pool is.
pub fn mark_sorts(alloc: Global, entries: &[Entry]) -> Result<Vec<Option<Sorts>>, AllocError>
    ensures { IfOk result (λ marks. marks.items ≡ spec.sort_marks entries.now) }
{
    let mut marks = Vec::with_capacity(alloc, entries.len())?;
    for entry in entries {
        marks.push(sorts_of(entry))?;
    }
    Ok(marks)
}

/// What an entry is, where it is a text.
fn sorts_of(entry: &Entry) -> Option<Sorts>
    ensures { result ≡ spec.sorts_in entry.now }
{
    match entry {
        Entry::Utf8(text) => Some(Sorts {
            field: is_kind(text.as_slice()),
            method: is_descr(text.as_slice()),
        }),
        _ => None,
    }
}

/// What the text at an index is, where there is one.
#[tactic(auto, using(crate::proofs::Marks::marked))]
pub fn sorts_at(entries: &[Entry], marks: &[Option<Sorts>], index: u16) -> Option<Sorts>
    requires { marks.now ≡ spec.sort_marks entries.now }
    ensures { result ≡ option_map spec.sorts_of (text_at entries.now index) }
{
    match at(marks, index as usize) {
        Some(sorts) => *sorts,
        None => None,
    }
}
