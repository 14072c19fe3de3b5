//! What the entries of a constant pool refer to.
ghost use Rattle.std.specs.Prelude.{◌≡◌, ◌+◌, ◌^◌, ◌<◌, length};
ghost use Rattle.std.specs.List.{flat_map};
ghost use Rattle.fp_model.specs.Reading.{Gives};
ghost use Rattle.fp_model.specs.References as format;
ghost use Rattle.fp_model.specs.Spelling.{spelled_entry};
ghost use Rattle.fp_model.specs.Entries.{text_at};
ghost use Rattle.fp_pool.specs.Sorts.{sort_marks};

mod descriptors;
mod indexes;

use crate::sorts::{Sorts, mark_sorts};
use descriptors::{
    is_class_name, is_described, is_field_pair, is_method, is_method_pair, is_no_field_pair,
    is_no_method_pair,
};
use fp_model::{Entry, FileFault};
use indexes::{check_handle, check_member, check_name_and_type, check_pair, check_text};
use std::alloc::Global;

/// Checks what the entries of a constant pool refer to (JVMS SE 21 section 4.4), the first of which is spelled at an
/// offset.
///
/// The first fault in the order of the file is `Index` where the entry at an index is none, or is one of another tag
/// than the section asks for, `Bounds` at the kind of a method handle that is none of 1 to 9, or `Descriptor` at the
/// index by which an entry refers to a text that is no descriptor of the sort.
pub fn check_references(alloc: Global, entries: &[Entry], at: u32) -> Result<(), FileFault>
    requires { at + length (flat_map spelled_entry entries.now) < 2 ^ 32 }
    // Which fault it is.
    ensures { Gives result (format.entries_checked entries.now at entries.now) }
{
    let marks = mark_sorts(alloc, entries)?;
    check_entries(entries, marks.as_slice(), at)
}

/// Checks each entry in turn.
fn check_entries(entries: &[Entry], marks: &[Option<Sorts>], at: u32) -> Result<(), FileFault>
    requires marks { marks.now ≡ sort_marks entries.now }
    requires short { at + length (flat_map spelled_entry entries.now) < 2 ^ 32 }
    ensures { Gives result (format.entries_checked entries.now at entries.now) }
{
    let mut next = at;
    for entry in entries {
        check_entry(entries, marks, next, entry)?;
        next += entry_size(entry);
    }
    Ok(())
}

/// How many bytes an entry takes in a file (JVMS SE 21 section 4.4).
pub fn entry_size(entry: &Entry) -> u32
    requires { length (spelled_entry entry.now) < 2 ^ 32 }
    ensures { result ≡ length (spelled_entry entry.now) }
{
    match entry {
        Entry::Unused => 0,
        Entry::Utf8(text) => 3 + text.len() as u32,
        Entry::Long(_) | Entry::Double(_) => 9,
        Entry::Handle { .. } => 4,
        Entry::Class(_)
        | Entry::Text(_)
        | Entry::MethodType(_)
        | Entry::Module(_)
        | Entry::Package(_) => 3,
        _ => 5,
    }
}

/// Checks what one entry refers to, which is spelled at an offset.
#[tactic(auto, unfolding(fp_model::specs::References::entry_checked))]
fn check_entry(
    entries: &[Entry],
    marks: &[Option<Sorts>],
    at: u32,
    entry: &Entry,
) -> Result<(), FileFault>
    requires marks { marks.now ≡ sort_marks entries.now }
    requires short { at + length (spelled_entry entry.now) < 2 ^ 32 }
    ensures { Gives result (format.entry_checked entries.now at entry.now) }
{
    match entry {
        Entry::Class(name) => {
            let passed = is_class_name(entries, marks, *name);
            check_text(entries, at + 1, *name, passed)
        }
        Entry::Text(text) => check_text(entries, at + 1, *text, true),
        Entry::FieldRef { class, pair } => {
            let passed = is_no_method_pair(entries, marks, *pair);
            check_member(entries, at, *class, *pair, passed)
        }
        Entry::MethodRef { class, pair } | Entry::InterfaceRef { class, pair } => {
            let passed = is_no_field_pair(entries, marks, *pair);
            check_member(entries, at, *class, *pair, passed)
        }
        Entry::Pair { name, descr } => {
            let passed = is_described(entries, marks, *descr);
            check_name_and_type(entries, at, *name, *descr, passed)
        }
        Entry::Handle { kind, index } => check_handle(entries, at, *kind, *index),
        Entry::MethodType(descr) => {
            let passed = is_method(entries, marks, *descr);
            check_text(entries, at + 1, *descr, passed)
        }
        Entry::Dynamic { pair, .. } => {
            let passed = is_field_pair(entries, marks, *pair);
            check_pair(entries, at + 3, *pair, passed)
        }
        Entry::InvokeDynamic { pair, .. } => {
            let passed = is_method_pair(entries, marks, *pair);
            check_pair(entries, at + 3, *pair, passed)
        }
        Entry::Module(name) | Entry::Package(name) => check_text(entries, at + 1, *name, true),
        _ => Ok(()),
    }
}
