//! The forms of instructions that take names and of calls, where each text of the constant pool is read once.
ghost use Rattle.std.specs.Prelude.{◌≡◌, ℕ, List, [], ◌∷◌, Some, drop, is_some, slice_get, true, unwrap_or, IfOk, OnOk};
ghost use Rattle.fp_ops.specs.Memos.{IsMemo};
ghost use Rattle.fp_ops.specs.References.{texts_at, AreTexts};
ghost use Rattle.fp_model.specs.Descriptor.{is_array_like, is_class_text, is_field_descriptor, is_method_descriptor, kind_names, IsDescrOf, IsKindOf};
ghost use Rattle.fp_model.specs.Entries.{class_name_at, passes, text_at};
ghost use Rattle.fp_model.specs.Interning.{Interned};
ghost use Rattle.fp_model.specs.NamedInstructions.{call_texts, class_kind_names, field_texts, is_array_text, is_call_op, is_class_op, is_entry_text, is_field_op, is_named_sound, member_at, named_texts, texts_by, IsArrayAt, IsArrayInstr, IsCallAt, IsCallInstr, IsClassAt, IsClassInstr, IsClassKind, IsFieldAt, IsFieldInstr, IsMember, IsMultiArrayAt, IsMultiArrayInstr, IsNamedInstr, MemberTexts};
ghost use Rattle.fp_model.specs.Taking.{Taken};

use crate::kinds::{element_at, kind_at, kinds_at};
use crate::memo::Memo;
use crate::naming::{class_name, text};
use crate::references::{Numbers, Reference, class_text, number_all, reference_at};
use fp_base::{NameFault, Names};
use fp_model::{Descr, Entry, Instr, Kind, Shared, look_up};
use std::alloc::Global;

/// An access to a field, by its opcode.
fn field_access(op: u8, numbers: Numbers, kind: Kind) -> Instr
    requires { is_field_op op ≡ true }
    ensures { (names : List (List ℕ)) (texts : MemberTexts)
        → IsMember names texts numbers.class numbers.name numbers.descr
        → IsKindOf names texts.descr kind
        → IsFieldInstr names op texts result }
{
    let Numbers { class, name, descr } = numbers;
    match op {
        178 => Instr::GetStatic {
            class,
            name,
            descr,
            kind,
        },
        179 => Instr::PutStatic {
            class,
            name,
            descr,
            kind,
        },
        180 => Instr::GetField {
            class,
            name,
            descr,
            kind,
        },
        _ => Instr::PutField {
            class,
            name,
            descr,
            kind,
        },
    }
}

/// A call of a method, by its opcode.
fn call(op: u8, numbers: Numbers, kinds: Shared<Descr>) -> Instr
    requires { is_call_op op ≡ true }
    ensures { (names : List (List ℕ)) (texts : MemberTexts)
        → IsMember names texts numbers.class numbers.name numbers.descr
        → IsDescrOf names texts.descr kinds
        → IsCallInstr names op texts result }
{
    let Numbers { class, name, descr } = numbers;
    match op {
        182 => Instr::InvokeVirtual {
            class,
            name,
            descr,
            kinds,
        },
        183 => Instr::InvokeSpecial {
            class,
            name,
            descr,
            kinds,
        },
        184 => Instr::InvokeStatic {
            class,
            name,
            descr,
            kinds,
        },
        _ => Instr::InvokeInterface {
            class,
            name,
            descr,
            kinds,
        },
    }
}

/// An instruction with a class alone, by its opcode.
fn class_instr(op: u8, class: u32) -> Instr
    requires { is_class_op op ≡ true }
    ensures { (names : List (List ℕ)) (text : List ℕ) → slice_get names class ≡ Some text → IsClassInstr names op text result }
{
    match op {
        187 => Instr::New { class },
        192 => Instr::CheckCast { class },
        _ => Instr::InstanceOf { class },
    }
}

/// An access to a field, by its opcode and its reference.
fn field_instr(
    alloc: Global,
    entries: &[Entry],
    op: u8,
    reference: Reference,
    names: &mut Names,
    memo: &mut Memo,
) -> Result<Instr, NameFault>
    requires op { is_field_op op ≡ true }
    requires there { AreTexts entries.now reference.class reference.name reference.descr }
    requires descr { passes (is_entry_text is_field_descriptor) (text_at entries.now reference.descr) ≡ true }
    requires memo { IsMemo names.old entries.now memo.old }
    ensures instr { IfOk result (IsFieldInstr names.new op (texts_at entries.now reference.class reference.name reference.descr)) }
    ensures names { Interned result names.old names.new (field_texts (texts_at entries.now reference.class reference.name reference.descr)) }
    ensures memo { OnOk result (IsMemo names.new entries.now memo.new) }
{
    let numbers = number_all(alloc, entries, reference, names, memo)?;
    let kind = kind_at(alloc, entries, reference.descr, names, memo)?;
    Ok(field_access(op, numbers, kind))
}

/// An access to a field, by its opcode and the index of its reference.
fn field_at(
    alloc: Global,
    entries: &[Entry],
    op: u8,
    index: u16,
    names: &mut Names,
    memo: &mut Memo,
) -> Result<Instr, NameFault>
    requires op { is_field_op op ≡ true }
    requires there { passes (λ texts. is_entry_text is_field_descriptor texts.descr) (member_at entries.now index) ≡ true }
    requires memo { IsMemo names.old entries.now memo.old }
    ensures instr { IfOk result (IsFieldAt names.new entries.now op index) }
    ensures names { Interned result names.old names.new (texts_by field_texts (member_at entries.now index)) }
    ensures memo { OnOk result (IsMemo names.new entries.now memo.new) }
{
    match reference_at(entries, index) {
        Some(reference) => field_instr(alloc, entries, op, reference, names, memo),
        None => unreachable!(),
    }
}

/// A call of a method, by its opcode and its reference.
fn call_instr(
    alloc: Global,
    entries: &[Entry],
    op: u8,
    reference: Reference,
    names: &mut Names,
    memo: &mut Memo,
) -> Result<Instr, NameFault>
    requires op { is_call_op op ≡ true }
    requires there { AreTexts entries.now reference.class reference.name reference.descr }
    requires descr { passes (is_entry_text is_method_descriptor) (text_at entries.now reference.descr) ≡ true }
    requires memo { IsMemo names.old entries.now memo.old }
    ensures instr { IfOk result (IsCallInstr names.new op (texts_at entries.now reference.class reference.name reference.descr)) }
    ensures names { Taken result names.old names.new (call_texts (texts_at entries.now reference.class reference.name reference.descr)) }
    ensures memo { OnOk result (IsMemo names.new entries.now memo.new) }
{
    let numbers = number_all(alloc, entries, reference, names, memo)?;
    let kinds = kinds_at(alloc, entries, reference.descr, names, memo)?;
    Ok(call(op, numbers, kinds))
}

/// A call of a method, by its opcode and the index of its reference.
pub fn call_at(
    alloc: Global,
    entries: &[Entry],
    op: u8,
    index: u16,
    names: &mut Names,
    memo: &mut Memo,
) -> Result<Instr, NameFault>
    requires op { is_call_op op ≡ true }
    requires there { passes (λ texts. is_entry_text is_method_descriptor texts.descr) (member_at entries.now index) ≡ true }
    requires memo { IsMemo names.old entries.now memo.old }
    ensures instr { IfOk result (IsCallAt names.new entries.now op index) }
    ensures names { Taken result names.old names.new (texts_by call_texts (member_at entries.now index)) }
    ensures memo { OnOk result (IsMemo names.new entries.now memo.new) }
{
    match reference_at(entries, index) {
        Some(reference) => call_instr(alloc, entries, op, reference, names, memo),
        None => unreachable!(),
    }
}

/// An instruction with a class alone, by its opcode and the index of the class.
fn class_at(
    alloc: Global,
    entries: &[Entry],
    op: u8,
    index: u16,
    names: &mut Names,
    memo: &mut Memo,
) -> Result<Instr, NameFault>
    requires op { is_class_op op ≡ true }
    requires there { is_some (class_name_at entries.now index) ≡ true }
    requires memo { IsMemo names.old entries.now memo.old }
    ensures instr { IfOk result (IsClassAt names.new entries.now op index) }
    ensures names { Interned result names.old names.new (texts_by (λ text. text ∷ []) (class_name_at entries.now index)) }
    ensures memo { OnOk result (IsMemo names.new entries.now memo.new) }
{
    let class = class_name(alloc, entries, index, names, memo)?;
    Ok(class_instr(op, class))
}

/// Whether the text at an index is the name of an array class.
fn is_array(entries: &[Entry], index: u16) -> bool
    ensures { result ≡ is_array_like (unwrap_or (text_at entries.now index) []) }
{
    match look_up::text(entries, index) {
        Some(name) => matches!(name, [b'[', ..]),
        None => false,
    }
}

/// The kind of a class, by the index of its name.
fn class_kind(
    alloc: Global,
    entries: &[Entry],
    index: u16,
    names: &mut Names,
    memo: &mut Memo,
) -> Result<Kind, NameFault>
    requires class { passes (is_entry_text is_class_text) (text_at entries.now index) ≡ true }
    requires memo { IsMemo names.old entries.now memo.old }
    ensures kind { IfOk result (IsClassKind names.new (unwrap_or (text_at entries.now index) [])) }
    ensures names { Interned result names.old names.new (class_kind_names (unwrap_or (text_at entries.now index) [])) }
    ensures memo { OnOk result (IsMemo names.new entries.now memo.new) }
{
    if is_array(entries, index) {
        return kind_at(alloc, entries, index, names, memo);
    }
    let name = text(alloc, entries, index, names, memo)?;
    Ok(Kind::Class(name))
}

/// An array of one dimension, by the index of the name of its elements' class.
fn array_instr(
    alloc: Global,
    entries: &[Entry],
    index: u16,
    names: &mut Names,
    memo: &mut Memo,
) -> Result<Instr, NameFault>
    requires class { passes (is_entry_text is_class_text) (text_at entries.now index) ≡ true }
    requires memo { IsMemo names.old entries.now memo.old }
    ensures instr { IfOk result (IsArrayInstr names.new (unwrap_or (text_at entries.now index) [])) }
    ensures names { Interned result names.old names.new (class_kind_names (unwrap_or (text_at entries.now index) [])) }
    ensures memo { OnOk result (IsMemo names.new entries.now memo.new) }
{
    let element = class_kind(alloc, entries, index, names, memo)?;
    Ok(Instr::NewArray { dims: 1, element })
}

/// An array of one dimension, by the index of its elements' class.
fn array_at(
    alloc: Global,
    entries: &[Entry],
    index: u16,
    names: &mut Names,
    memo: &mut Memo,
) -> Result<Instr, NameFault>
    requires there { passes (is_entry_text is_class_text) (class_name_at entries.now index) ≡ true }
    requires memo { IsMemo names.old entries.now memo.old }
    ensures instr { IfOk result (IsArrayAt names.new entries.now index) }
    ensures names { Interned result names.old names.new (texts_by class_kind_names (class_name_at entries.now index)) }
    ensures memo { OnOk result (IsMemo names.new entries.now memo.new) }
{
    match class_text(entries, index) {
        Some(name) => array_instr(alloc, entries, name, names, memo),
        None => unreachable!(),
    }
}

/// An array of so many dimensions, by the index of the name of its class.
fn multi_array_instr(
    alloc: Global,
    entries: &[Entry],
    index: u16,
    dims: u8,
    names: &mut Names,
    memo: &mut Memo,
) -> Result<Instr, NameFault>
    requires class { passes (is_entry_text is_array_text) (text_at entries.now index) ≡ true }
    requires memo { IsMemo names.old entries.now memo.old }
    ensures instr { IfOk result (IsMultiArrayInstr names.new dims (unwrap_or (text_at entries.now index) [])) }
    ensures names { Interned result names.old names.new (kind_names (drop 1 (unwrap_or (text_at entries.now index) []))) }
    ensures memo { OnOk result (IsMemo names.new entries.now memo.new) }
{
    let element = element_at(alloc, entries, index, names, memo)?;
    Ok(Instr::NewArray { dims, element })
}

/// An array of so many dimensions, by the index of its class.
fn multi_array_at(
    alloc: Global,
    entries: &[Entry],
    index: u16,
    dims: u8,
    names: &mut Names,
    memo: &mut Memo,
) -> Result<Instr, NameFault>
    requires there { passes (is_entry_text is_array_text) (class_name_at entries.now index) ≡ true }
    requires memo { IsMemo names.old entries.now memo.old }
    ensures instr { IfOk result (IsMultiArrayAt names.new entries.now index dims) }
    ensures names { Interned result names.old names.new (texts_by (λ text. kind_names (drop 1 text)) (class_name_at entries.now index)) }
    ensures memo { OnOk result (IsMemo names.new entries.now memo.new) }
{
    match class_text(entries, index) {
        Some(name) => multi_array_instr(alloc, entries, name, dims, names, memo),
        None => unreachable!(),
    }
}

/// An instruction that takes names and calls nothing, by its opcode, the index behind it, and the number of dimensions
/// behind that.
pub fn named_instr(
    alloc: Global,
    entries: &[Entry],
    op: u8,
    index: u16,
    dims: u8,
    names: &mut Names,
    memo: &mut Memo,
) -> Result<Instr, NameFault>
    requires sound { is_named_sound entries.now op index ≡ true }
    requires memo { IsMemo names.old entries.now memo.old }
    ensures instr { IfOk result (IsNamedInstr names.new entries.now op index dims) }
    ensures names { Interned result names.old names.new (named_texts entries.now op index) }
    ensures memo { OnOk result (IsMemo names.new entries.now memo.new) }
{
    match op {
        178..=181 => field_at(alloc, entries, op, index, names, memo),
        187 | 192 | 193 => class_at(alloc, entries, op, index, names, memo),
        189 => array_at(alloc, entries, index, names, memo),
        197 => multi_array_at(alloc, entries, index, dims, names, memo),
        _ => unreachable!(),
    }
}
