//! Which descriptors an index leads to. Where it leads to no text, nothing is amiss here.
ghost use Rattle.std.specs.Prelude.{◌≡◌, not, option_map};
ghost use Rattle.fp_model.specs.Descriptor.{is_array_like, is_class_text, is_field_descriptor, is_method_descriptor};
ghost use Rattle.fp_model.specs.References.{holds_of, descr_at, is_descriptor};
ghost use Rattle.fp_model.specs.Entries.{text_at};
ghost use Rattle.fp_pool.specs.Sorts.{sort_marks, sorts_of};

use crate::sorts::{Sorts, sorts_at};
use fp_model::Entry;
use fp_model::look_up::{descr_index, text};

/// Whether a text begins like an array type.
fn is_array(text: &[u8]) -> bool
    ensures { result ≡ is_array_like text.now }
{
    matches!(text, [b'[', ..])
}

/// Whether the text is a field descriptor.
pub fn is_field(entries: &[Entry], marks: &[Option<Sorts>], index: u16) -> bool
    requires { marks.now ≡ sort_marks entries.now }
    ensures { result ≡ holds_of is_field_descriptor (text_at entries.now index) }
{
    match sorts_at(entries, marks, index) {
        Some(sorts) => sorts.field,
        None => true,
    }
}

/// Whether the text is a method descriptor.
pub fn is_method(entries: &[Entry], marks: &[Option<Sorts>], index: u16) -> bool
    requires { marks.now ≡ sort_marks entries.now }
    ensures { result ≡ holds_of is_method_descriptor (text_at entries.now index) }
{
    match sorts_at(entries, marks, index) {
        Some(sorts) => sorts.method,
        None => true,
    }
}

/// Whether the text is a descriptor of either sort.
pub fn is_described(entries: &[Entry], marks: &[Option<Sorts>], index: u16) -> bool
    requires { marks.now ≡ sort_marks entries.now }
    ensures { result ≡ holds_of is_descriptor (text_at entries.now index) }
{
    match sorts_at(entries, marks, index) {
        Some(sorts) => sorts.field || sorts.method,
        None => true,
    }
}

/// Whether the text is what a class entry may name: an array type, or what doesn't begin like one.
pub fn is_class_name(entries: &[Entry], marks: &[Option<Sorts>], index: u16) -> bool
    requires { marks.now ≡ sort_marks entries.now }
    ensures { result ≡ holds_of is_class_text (text_at entries.now index) }
{
    match text(entries, index) {
        Some(text) => !is_array(text) || is_field(entries, marks, index),
        None => true,
    }
}

/// What the descriptor of a name and type is, where there is one.
fn pair_sorts(entries: &[Entry], marks: &[Option<Sorts>], pair: u16) -> Option<Sorts>
    requires { marks.now ≡ sort_marks entries.now }
    ensures { result ≡ option_map sorts_of (descr_at entries.now pair) }
{
    match descr_index(entries, pair) {
        Some(descr) => sorts_at(entries, marks, descr),
        None => None,
    }
}

/// Whether the descriptor of a name and type is a field's.
pub fn is_field_pair(entries: &[Entry], marks: &[Option<Sorts>], pair: u16) -> bool
    requires { marks.now ≡ sort_marks entries.now }
    ensures { result ≡ holds_of is_field_descriptor (descr_at entries.now pair) }
{
    match pair_sorts(entries, marks, pair) {
        Some(sorts) => sorts.field,
        None => true,
    }
}

/// Whether the descriptor of a name and type is a method's.
pub fn is_method_pair(entries: &[Entry], marks: &[Option<Sorts>], pair: u16) -> bool
    requires { marks.now ≡ sort_marks entries.now }
    ensures { result ≡ holds_of is_method_descriptor (descr_at entries.now pair) }
{
    match pair_sorts(entries, marks, pair) {
        Some(sorts) => sorts.method,
        None => true,
    }
}

/// Whether the descriptor of a name and type is no field's.
pub fn is_no_field_pair(entries: &[Entry], marks: &[Option<Sorts>], pair: u16) -> bool
    requires { marks.now ≡ sort_marks entries.now }
    ensures { result ≡ holds_of (λ text. not (is_field_descriptor text)) (descr_at entries.now pair) }
{
    match pair_sorts(entries, marks, pair) {
        Some(sorts) => !sorts.field,
        None => true,
    }
}

/// Whether the descriptor of a name and type is no method's.
pub fn is_no_method_pair(entries: &[Entry], marks: &[Option<Sorts>], pair: u16) -> bool
    requires { marks.now ≡ sort_marks entries.now }
    ensures { result ≡ holds_of (λ text. not (is_method_descriptor text)) (descr_at entries.now pair) }
{
    match pair_sorts(entries, marks, pair) {
        Some(sorts) => !sorts.method,
        None => true,
    }
}
