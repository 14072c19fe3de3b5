//! Which texts of a constant pool are field descriptors, each text read once.
ghost use Rattle.std.specs.Prelude.{◌≡◌, false, slice_get, unwrap_or, IfOk};
ghost use Rattle.fp_class.specs.Descriptors.{is_descriptor_entry, descriptor_marks};

use fp_model::{Entry, is_kind};
use sqlite_items::at;
use std::alloc::{AllocError, Global};

/// Marks each index of the constant pool whose text is a field descriptor (JVMS SE 21 section 4.3.2).
pub fn mark_descriptors(alloc: Global, entries: &[Entry]) -> Result<Vec<bool>, AllocError>
    ensures { IfOk result (λ marks. marks.items ≡ descriptor_marks entries.now) }
{
    let mut marks = Vec::with_capacity(alloc, entries.len())?;
    for entry in entries {
        marks.push(is_descriptor(entry))?;
    }
    Ok(marks)
}

/// Whether an entry is the text of a field descriptor.
fn is_descriptor(entry: &Entry) -> bool
    ensures { result ≡ is_descriptor_entry entry.now }
{
    match entry {
        Entry::Utf8(text) => is_kind(text.as_slice()),
        _ => false,
    }
}

/// Whether the mark at an index is set.
pub fn is_marked(marks: &[bool], index: u16) -> bool
    ensures { result ≡ unwrap_or (slice_get marks.now index) false }
{
    match at(marks, index as usize) {
        Some(mark) => *mark,
        None => false,
    }
}
