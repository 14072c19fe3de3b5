//! References to members, in numbers of a table of names.
ghost use Rattle.std.specs.Prelude.{◌≡◌, slice_get, IfNone, IfOk, IfSome, OnOk};
ghost use Rattle.fp_ops.specs.Memos.{IsMemo};
ghost use Rattle.fp_ops.specs.References.{member_names, texts_at, AreTexts};
ghost use Rattle.fp_model.specs.Entries.{class_name_at, text_at};
ghost use Rattle.fp_model.specs.Interning.{Interned};
ghost use Rattle.fp_model.specs.NamedInstructions.{all_texts, member_at, member_with, IsMember};

use crate::memo::Memo;
use crate::naming::text;
use fp_base::{NameFault, Names};
use fp_model::Entry;
use sqlite_items::at;
use std::alloc::Global;

/// The indexes of the texts of a reference to a member.
#[derive(Clone, Copy)]
pub struct Reference {
    pub class: u16,
    pub name: u16,
    pub descr: u16,
}

/// The numbers of the texts of a reference to a member.
#[derive(Clone, Copy)]
pub struct Numbers {
    pub class: u32,
    pub name: u32,
    pub descr: u32,
}

/// The index of the name of the class at an index.
pub fn class_text(entries: &[Entry], index: u16) -> Option<u16>
    ensures some { IfSome result (λ name. class_name_at entries.now index ≡ text_at entries.now name) }
    ensures none { IfNone result (class_name_at entries.now index ≡ None) }
{
    match at(entries, index as usize) {
        Some(Entry::Class(name)) => Some(*name),
        _ => None,
    }
}

/// The indexes of the texts of the reference at an index.
pub fn reference_at(entries: &[Entry], index: u16) -> Option<Reference>
    ensures some { IfSome result (λ r. member_at entries.now index ≡ all_texts (text_at entries.now r.class) (text_at entries.now r.name) (text_at entries.now r.descr)) }
    ensures none { IfNone result (member_at entries.now index ≡ None) }
{
    match at(entries, index as usize) {
        Some(
            Entry::FieldRef { class, pair }
            | Entry::MethodRef { class, pair }
            | Entry::InterfaceRef { class, pair },
        ) => reference_with(entries, *class, *pair),
        _ => None,
    }
}

/// Those of a class and a pair.
fn reference_with(entries: &[Entry], class: u16, pair: u16) -> Option<Reference>
    ensures some { IfSome result (λ r. member_with entries.now class (slice_get entries.now pair) ≡ all_texts (text_at entries.now r.class) (text_at entries.now r.name) (text_at entries.now r.descr)) }
    ensures none { IfNone result (member_with entries.now class (slice_get entries.now pair) ≡ None) }
{
    match at(entries, pair as usize) {
        Some(Entry::Pair { name, descr }) => match class_text(entries, class) {
            Some(class) => Some(Reference {
                class,
                name: *name,
                descr: *descr,
            }),
            None => None,
        },
        _ => None,
    }
}

/// The numbers of the texts of a reference.
pub fn number_all(
    alloc: Global,
    entries: &[Entry],
    reference: Reference,
    names: &mut Names,
    memo: &mut Memo,
) -> Result<Numbers, NameFault>
    requires there { AreTexts entries.now reference.class reference.name reference.descr }
    requires memo { IsMemo names.old entries.now memo.old }
    ensures numbers { IfOk result (λ n. IsMember names.new (texts_at entries.now reference.class reference.name reference.descr) n.class n.name n.descr) }
    ensures names { Interned result names.old names.new (member_names (texts_at entries.now reference.class reference.name reference.descr)) }
    ensures memo { OnOk result (IsMemo names.new entries.now memo.new) }
{
    let class = text(alloc, entries, reference.class, names, memo)?;
    let name = text(alloc, entries, reference.name, names, memo)?;
    let descr = text(alloc, entries, reference.descr, names, memo)?;
    Ok(Numbers { class, name, descr })
}
