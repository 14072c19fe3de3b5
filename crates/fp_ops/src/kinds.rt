//! What descriptors at indexes of the constant pool say, each read once.
ghost use Rattle.std.specs.Prelude.{◌≡◌, ◌^◌, ◌<◌, [], drop, length, true, unwrap_or, IfOk, OnOk};
ghost use Rattle.fp_ops.specs.Memos.{IsMemo};
ghost use Rattle.fp_model.specs.Descriptor.{descr_names, is_field_descriptor, is_method_descriptor, kind_names, IsDescrOf, IsKindOf};
ghost use Rattle.fp_model.specs.Entries.{passes, text_at};
ghost use Rattle.fp_model.specs.Interning.{Interned};
ghost use Rattle.fp_model.specs.NamedInstructions.{is_array_text, is_entry_text};
ghost use Rattle.fp_model.specs.Taking.{Taken};

use crate::memo::{
    Memo, keep_descr, keep_element, keep_kind, known_descr, known_element, known_kind,
};
use fp_base::{NameFault, Names};
use fp_model::{Descr, DescrFault, Entry, Kind, Shared, look_up, read_descr, read_kind};
use std::alloc::Global;

/// The kind that a field descriptor says.
fn kind(alloc: Global, descr: &[u8], names: &mut Names) -> Result<Kind, NameFault>
    requires descr { is_field_descriptor descr.now ≡ true }
    requires short { length descr.now < 2 ^ 31 }
    ensures kind { IfOk result (IsKindOf names.new descr.now) }
    ensures names { Interned result names.old names.new (kind_names descr.now) }
{
    match read_kind(alloc, descr, names) {
        Ok(kind) => Ok(kind),
        Err(DescrFault::Full) => Err(NameFault::Full),
        Err(DescrFault::Memory) => Err(NameFault::Memory),
        Err(DescrFault::Bad { .. }) => unreachable!(),
    }
}

/// The kind that the descriptor at an index says, whatever is known of it.
fn read_kind_at(
    alloc: Global,
    entries: &[Entry],
    index: u16,
    names: &mut Names,
) -> Result<Kind, NameFault>
    requires descr { passes (is_entry_text is_field_descriptor) (text_at entries.now index) ≡ true }
    ensures kind { IfOk result (IsKindOf names.new (unwrap_or (text_at entries.now index) [])) }
    ensures names { Interned result names.old names.new (kind_names (unwrap_or (text_at entries.now index) [])) }
{
    match look_up::text(entries, index) {
        Some(descr) => kind(alloc, descr, names),
        None => unreachable!(),
    }
}

/// The kind that the descriptor at an index says, which is then known.
pub fn kind_at(
    alloc: Global,
    entries: &[Entry],
    index: u16,
    names: &mut Names,
    memo: &mut Memo,
) -> Result<Kind, NameFault>
    requires descr { passes (is_entry_text is_field_descriptor) (text_at entries.now index) ≡ true }
    requires memo { IsMemo names.old entries.now memo.old }
    ensures kind { IfOk result (IsKindOf names.new (unwrap_or (text_at entries.now index) [])) }
    ensures names { Interned result names.old names.new (kind_names (unwrap_or (text_at entries.now index) [])) }
    ensures memo { OnOk result (IsMemo names.new entries.now memo.new) }
{
    if let Some(kind) = known_kind(memo, index) {
        return Ok(kind);
    }
    let kind = read_kind_at(alloc, entries, index, names)?;
    keep_kind(memo, index, kind);
    Ok(kind)
}

/// The kind of the elements of the array class whose name stands at an index, whatever is known of it.
fn read_element_at(
    alloc: Global,
    entries: &[Entry],
    index: u16,
    names: &mut Names,
) -> Result<Kind, NameFault>
    requires class { passes (is_entry_text is_array_text) (text_at entries.now index) ≡ true }
    ensures kind { IfOk result (IsKindOf names.new (drop 1 (unwrap_or (text_at entries.now index) []))) }
    ensures names { Interned result names.old names.new (kind_names (drop 1 (unwrap_or (text_at entries.now index) []))) }
{
    match look_up::text(entries, index) {
        Some(class) => kind(alloc, &class[1..], names),
        None => unreachable!(),
    }
}

/// The kind of the elements of the array class whose name stands at an index, which is then known.
pub fn element_at(
    alloc: Global,
    entries: &[Entry],
    index: u16,
    names: &mut Names,
    memo: &mut Memo,
) -> Result<Kind, NameFault>
    requires class { passes (is_entry_text is_array_text) (text_at entries.now index) ≡ true }
    requires memo { IsMemo names.old entries.now memo.old }
    ensures kind { IfOk result (IsKindOf names.new (drop 1 (unwrap_or (text_at entries.now index) []))) }
    ensures names { Interned result names.old names.new (kind_names (drop 1 (unwrap_or (text_at entries.now index) []))) }
    ensures memo { OnOk result (IsMemo names.new entries.now memo.new) }
{
    if let Some(kind) = known_element(memo, index) {
        return Ok(kind);
    }
    let kind = read_element_at(alloc, entries, index, names)?;
    keep_element(memo, index, kind);
    Ok(kind)
}

/// The kinds that a method descriptor says.
fn method_kinds(alloc: Global, descr: &[u8], names: &mut Names) -> Result<Descr, NameFault>
    requires descr { is_method_descriptor descr.now ≡ true }
    requires short { length descr.now < 2 ^ 31 }
    ensures kinds { IfOk result (IsDescrOf names.new descr.now) }
    ensures names { Taken result names.old names.new (descr_names descr.now) }
{
    match read_descr(alloc, descr, names) {
        Ok(kinds) => Ok(kinds),
        Err(DescrFault::Full) => Err(NameFault::Full),
        Err(DescrFault::Memory) => Err(NameFault::Memory),
        Err(DescrFault::Bad { .. }) => unreachable!(),
    }
}

/// The kinds that the descriptor at an index says, whatever is known of it.
fn read_kinds_at(
    alloc: Global,
    entries: &[Entry],
    index: u16,
    names: &mut Names,
) -> Result<Descr, NameFault>
    requires descr { passes (is_entry_text is_method_descriptor) (text_at entries.now index) ≡ true }
    ensures kinds { IfOk result (IsDescrOf names.new (unwrap_or (text_at entries.now index) [])) }
    ensures names { Taken result names.old names.new (descr_names (unwrap_or (text_at entries.now index) [])) }
{
    match look_up::text(entries, index) {
        Some(descr) => method_kinds(alloc, descr, names),
        None => unreachable!(),
    }
}

/// The kinds that the descriptor at an index says, which is then known.
pub fn kinds_at(
    alloc: Global,
    entries: &[Entry],
    index: u16,
    names: &mut Names,
    memo: &mut Memo,
) -> Result<Shared<Descr>, NameFault>
    requires descr { passes (is_entry_text is_method_descriptor) (text_at entries.now index) ≡ true }
    requires memo { IsMemo names.old entries.now memo.old }
    ensures kinds { IfOk result (IsDescrOf names.new (unwrap_or (text_at entries.now index) [])) }
    ensures names { Taken result names.old names.new (descr_names (unwrap_or (text_at entries.now index) [])) }
    ensures memo { OnOk result (IsMemo names.new entries.now memo.new) }
{
    if let Some(kinds) = known_descr(memo, index) {
        return match kinds.share() {
            Ok(kinds) => Ok(kinds),
            Err(_) => Err(NameFault::Memory),
        };
    }
    let kinds = read_kinds_at(alloc, entries, index, names)?;
    match Shared::pair(alloc, kinds) {
        Ok((kept, kinds)) => {
            keep_descr(memo, index, kept);
            Ok(kinds)
        }
        Err(_) => Err(NameFault::Memory),
    }
}
