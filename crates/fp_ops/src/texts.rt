//! The texts of references to members.
ghost use Rattle.std.specs.Prelude.{◌≡◌, None, Some, IfNone, IfSome};
ghost use Rattle.fp_model.specs.Entries.{text_at};
ghost use Rattle.fp_model.specs.NamedInstructions.{all_texts, member_at};

use crate::references::{Reference, reference_at};
use fp_model::Entry;
use fp_model::look_up::text;

/// The texts of a reference to a member.
#[derive(Clone, Copy)]
pub struct Member<'a> {
    pub class: &'a [u8],
    pub name: &'a [u8],
    pub descr: &'a [u8],
}

/// The texts of a reference, where all three are there.
pub fn texts_with(entries: &[Entry], reference: Reference) -> Option<Member<'_>>
    ensures some { IfSome result (λ m. all_texts (text_at entries.now reference.class) (text_at entries.now reference.name) (text_at entries.now reference.descr) ≡ Some (record { class = m.class.now; name = m.name.now; descr = m.descr.now })) }
    ensures none { IfNone result (all_texts (text_at entries.now reference.class) (text_at entries.now reference.name) (text_at entries.now reference.descr) ≡ None) }
{
    match text(entries, reference.class) {
        Some(class) => match text(entries, reference.name) {
            Some(name) => match text(entries, reference.descr) {
                Some(descr) => Some(Member { class, name, descr }),
                None => None,
            },
            None => None,
        },
        None => None,
    }
}

/// The texts of the reference to a member at an index.
pub fn texts_of(entries: &[Entry], index: u16) -> Option<Member<'_>>
    ensures some { IfSome result (λ m. member_at entries.now index ≡ Some (record { class = m.class.now; name = m.name.now; descr = m.descr.now })) }
    ensures none { IfNone result (member_at entries.now index ≡ None) }
{
    match reference_at(entries, index) {
        Some(reference) => texts_with(entries, reference),
        None => None,
    }
}
