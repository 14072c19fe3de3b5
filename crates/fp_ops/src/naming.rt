//! Texts of a constant pool in numbers of a table of names, each looked up once.
ghost use Rattle.std.specs.Prelude.{◌≡◌, [], ◌∷◌, true, slice_get, unwrap_or, is_some, IfOk, OnOk};
ghost use Rattle.std.specs.Option.{option_to_list};
ghost use Rattle.fp_model.specs.Entries.{class_name_at, text_at};
ghost use Rattle.fp_model.specs.Interning.{Interned};
ghost use Rattle.fp_ops.specs.Memos.{IsMemo};
ghost use Rattle.fp_ops.specs.References.{IsClassName};

use crate::memo::{Memo, keep_number, known_number};
use fp_base::{NameFault, Names};
use fp_model::{Entry, look_up};
use sqlite_items::at;
use std::alloc::Global;

/// The number of the text at an index, whatever is known of it.
fn intern_text(
    alloc: Global,
    entries: &[Entry],
    index: u16,
    names: &mut Names,
) -> Result<u32, NameFault>
    requires { is_some (text_at entries.now index) ≡ true }
    ensures number { IfOk result (λ n. slice_get names.new n ≡ text_at entries.now index) }
    ensures names { Interned result names.old names.new (unwrap_or (text_at entries.now index) [] ∷ []) }
{
    match look_up::text(entries, index) {
        Some(text) => names.intern(alloc, text),
        None => unreachable!(),
    }
}

/// The number of the text at an index, which is then known.
pub fn text(
    alloc: Global,
    entries: &[Entry],
    index: u16,
    names: &mut Names,
    memo: &mut Memo,
) -> Result<u32, NameFault>
    requires there { is_some (text_at entries.now index) ≡ true }
    requires memo { IsMemo names.old entries.now memo.old }
    ensures number { IfOk result (λ n. slice_get names.new n ≡ text_at entries.now index) }
    ensures names { Interned result names.old names.new (unwrap_or (text_at entries.now index) [] ∷ []) }
    ensures memo { OnOk result (IsMemo names.new entries.now memo.new) }
{
    if let Some(number) = known_number(memo, index) {
        return Ok(number);
    }
    let number = intern_text(alloc, entries, index, names)?;
    keep_number(memo, index, number);
    Ok(number)
}

/// The number of the name of the class at an index.
pub fn class_name(
    alloc: Global,
    entries: &[Entry],
    index: u16,
    names: &mut Names,
    memo: &mut Memo,
) -> Result<u32, NameFault>
    requires there { is_some (class_name_at entries.now index) ≡ true }
    requires memo { IsMemo names.old entries.now memo.old }
    ensures number { IfOk result (λ n. IsClassName names.new entries.now n index) }
    ensures names { Interned result names.old names.new (option_to_list (class_name_at entries.now index)) }
    ensures memo { OnOk result (IsMemo names.new entries.now memo.new) }
{
    match at(entries, index as usize) {
        Some(Entry::Class(name)) => text(alloc, entries, *name, names, memo),
        _ => unreachable!(),
    }
}
