//! Look-ups by constant pool index (JVMS SE 21 section 4.4).
ghost use Rattle.std.specs.Prelude.{◌≡◌, option_copied};
ghost use Rattle.fp_model.specs.Entries as entries;
ghost use Rattle.fp_model.specs.References.{descr_index_at};
ghost use Rattle.fp_model.specs.Entries.{text_at, class_name_at, is_class_index, tag_at};

use crate::Entry;
use sqlite_items::at;

/// The tag of a text (table 4.4-A).
pub const UTF8: u8 = 1;

/// The tag of a class.
pub const CLASS: u8 = 7;

/// The tag of a reference to a field.
pub const FIELD: u8 = 9;

/// The tag of a reference to a method of a class.
pub const METHOD: u8 = 10;

/// The tag of a reference to a method of an interface.
pub const INTERFACE_METHOD: u8 = 11;

/// The tag of a name and type.
pub const NAME_AND_TYPE: u8 = 12;

/// The tag of a method handle.
pub const METHOD_HANDLE: u8 = 15;

/// The tag of a call site that a bootstrap method computes.
pub const INVOKE_DYNAMIC: u8 = 18;

/// The text at an index, if there is one.
pub fn text(entries: &[Entry], index: u16) -> Option<&[u8]>
    ensures { option_copied result ≡ text_at entries.now index }
{
    match at(entries, index as usize) {
        Some(Entry::Utf8(text)) => Some(text.as_slice()),
        _ => None,
    }
}

/// The name of the class at an index, if there is one.
pub fn class_name(entries: &[Entry], index: u16) -> Option<&[u8]>
    ensures { option_copied result ≡ class_name_at entries.now index }
{
    match at(entries, index as usize) {
        Some(Entry::Class(name)) => text(entries, *name),
        _ => None,
    }
}

/// Whether the index is that of a class which is no array.
pub fn is_class(entries: &[Entry], index: u16) -> bool
    ensures { result ≡ is_class_index entries.now index }
{
    match class_name(entries, index) {
        Some(name) => name.first() != Some(&b'['),
        None => false,
    }
}

/// The index of the descriptor that a name and type at an index has, if there is one.
pub fn descr_index(entries: &[Entry], pair: u16) -> Option<u16>
    ensures { result ≡ descr_index_at entries.now pair }
{
    match at(entries, pair as usize) {
        Some(Entry::Pair { descr, .. }) => Some(*descr),
        _ => None,
    }
}

/// The tag of the entry at an index (table 4.4-A), 0 where there is none.
pub fn tag(entries: &[Entry], index: u16) -> u8
    ensures { result ≡ tag_at entries.now index }
{
    match at(entries, index as usize) {
        Some(entry) => tag_of(entry),
        None => 0,
    }
}

/// The tag of an entry, 0 for what holds none.
fn tag_of(entry: &Entry) -> u8
    ensures { result ≡ entries.tag_of entry.now }
{
    match entry {
        Entry::Unused => 0,
        Entry::Utf8(_) => 1,
        Entry::Integer(_) => 3,
        Entry::Float(_) => 4,
        Entry::Long(_) => 5,
        Entry::Double(_) => 6,
        Entry::Class(_) => 7,
        Entry::Text(_) => 8,
        Entry::FieldRef { .. } => 9,
        Entry::MethodRef { .. } => 10,
        Entry::InterfaceRef { .. } => 11,
        Entry::Pair { .. } => 12,
        Entry::Handle { .. } => 15,
        Entry::MethodType(_) => 16,
        Entry::Dynamic { .. } => 17,
        Entry::InvokeDynamic { .. } => 18,
        Entry::Module(_) => 19,
        Entry::Package(_) => 20,
    }
}
