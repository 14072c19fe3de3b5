//! The form of an instruction, with the names that it takes.
ghost use Rattle.std.specs.Prelude.{◌≡◌, true, is_some, slice_index, IfErr, IfOk, OnOk};
ghost use Rattle.std.specs.Int.{w16};
ghost use Rattle.fp_model.specs.Descriptor.{is_method_descriptor};
ghost use Rattle.fp_model.specs.Instructions as instructions;
ghost use Rattle.fp_model.specs.NamedInstructions.{call_texts, is_call_op, is_entry_text, is_named_sound, member_at, named_texts, texts_by, IsCallAt, IsNamedInstr, IsOf};
ghost use Rattle.fp_model.specs.Taking.{Taken};
ghost use Rattle.fp_model.specs.Entries.{passes};
ghost use Rattle.fp_ops.specs.CallSites.{is_sound_site_at, site_texts_at, IsSiteAt};
ghost use Rattle.fp_ops.specs.BootMemos.{IsBootMemo};
ghost use Rattle.fp_ops.specs.Memos.{IsMemo};
ghost use Rattle.fp_ops.specs.Forms.{dims_in, index_in, instr_texts, is_named_op, is_site_op, is_sound_ins, takes_names, IsInstrOf};

use crate::boot_memo::{BootMemo, empty_boot_memo};
use crate::memo::{Memo, empty_memo};
use crate::named::call_at;
use crate::plain::number_in;
use crate::sites::site_instr_at;
use crate::{jumps, named};
use fp_base::{NameFault, Names};
use fp_model::opcode::INVOKE_DYNAMIC;
use fp_model::{BootRow, Entry, Instr, Pool, RawIns};
use std::alloc::Global;

/// Whether an opcode is that of an instruction that takes names and calls nothing.
pub fn is_named(op: u8) -> bool
    ensures { result ≡ is_named_op op }
{
    matches!(op, 178..=181 | 187 | 189 | 192 | 193 | 197)
}

/// Whether an opcode is that of a call of a method by its reference.
pub fn is_call(op: u8) -> bool
    ensures { result ≡ is_call_op op }
{
    matches!(op, 182..=185)
}

/// The index that the operands begin with.
pub fn index_of(ins: &RawIns) -> Option<u16>
    ensures { result ≡ index_in ins.now }
{
    number_in(ins.args.as_slice())
}

/// The number of dimensions behind the index.
fn dims_of(ins: &RawIns) -> u8
    ensures { result ≡ dims_in ins.now }
{
    let args = ins.args.as_slice();
    if args.len() > 2 { args[2] } else { 0 }
}

/// An instruction that takes names and calls nothing.
fn named_instr(
    alloc: Global,
    entries: &[Entry],
    ins: &RawIns,
    names: &mut Names,
    memo: &mut Memo,
) -> Result<Instr, NameFault>
    requires there { passes (λ index. is_named_sound entries.now ins.now.op index) (index_in ins.now) ≡ true }
    requires memo { IsMemo names.old entries.now memo.old }
    ensures instr { IfOk result (λ i. IsOf (λ index. IsNamedInstr names.new entries.now ins.now.op index (dims_in ins.now) i) (index_in ins.now)) }
    ensures names { Taken result names.old names.new (texts_by (λ index. named_texts entries.now ins.now.op index) (index_in ins.now)) }
    ensures memo { OnOk result (IsMemo names.new entries.now memo.new) }
{
    match index_of(ins) {
        Some(index) => named::named_instr(alloc, entries, ins.op, index, dims_of(ins), names, memo),
        None => unreachable!(),
    }
}

/// A call of a method.
fn call_instr(
    alloc: Global,
    entries: &[Entry],
    ins: &RawIns,
    names: &mut Names,
    memo: &mut Memo,
) -> Result<Instr, NameFault>
    requires op { is_call_op ins.now.op ≡ true }
    requires there { passes (λ index. passes (λ texts. is_entry_text is_method_descriptor texts.descr) (member_at entries.now index)) (index_in ins.now) ≡ true }
    requires memo { IsMemo names.old entries.now memo.old }
    ensures instr { IfOk result (λ i. IsOf (λ index. IsCallAt names.new entries.now ins.now.op index i) (index_in ins.now)) }
    ensures names { Taken result names.old names.new (texts_by (λ index. texts_by call_texts (member_at entries.now index)) (index_in ins.now)) }
    ensures memo { OnOk result (IsMemo names.new entries.now memo.new) }
{
    match index_of(ins) {
        Some(index) => call_at(alloc, entries, ins.op, index, names, memo),
        None => unreachable!(),
    }
}

/// A call at a call site that a bootstrap method computes.
fn site_instr(
    alloc: Global,
    entries: &[Entry],
    boots: &[BootRow],
    ins: &RawIns,
    names: &mut Names,
    memo: &mut Memo,
    boot_memo: &mut BootMemo,
) -> Result<Instr, NameFault>
    requires there { passes (λ index. is_sound_site_at entries.now boots.now index) (index_in ins.now) ≡ true }
    requires memo { IsMemo names.old entries.now memo.old }
    requires rows { IsBootMemo names.old entries.now boots.now boot_memo.old }
    ensures instr { IfOk result (λ i. IsOf (λ index. IsSiteAt names.new entries.now boots.now index i) (index_in ins.now)) }
    ensures names { Taken result names.old names.new (texts_by (λ index. site_texts_at entries.now boots.now index) (index_in ins.now)) }
    ensures memo { OnOk result (IsMemo names.new entries.now memo.new) }
    ensures rows { OnOk result (IsBootMemo names.new entries.now boots.now boot_memo.new) }
{
    match index_of(ins) {
        Some(index) => site_instr_at(alloc, entries, boots, index, names, memo, boot_memo),
        None => unreachable!(),
    }
}

/// An instruction that takes no name.
fn plain_instr(alloc: Global, entries: &[Entry], pc: u16, ins: &RawIns) -> Result<Instr, NameFault>
    requires { is_some (instructions.plain_instr entries.now pc ins.now) ≡ true }
    ensures instr { IfOk result (λ i. instructions.plain_instr entries.now pc ins.now ≡ Some i) }
    ensures memory { IfErr result (λ e. e ≡ NameFault.Memory) }
{
    match jumps::plain_instr(alloc, entries, pc as u32, ins) {
        Ok(Some(instr)) => Ok(instr),
        Ok(None) => unreachable!(),
        Err(_) => Err(NameFault::Memory),
    }
}

/// The form of an instruction at an offset in a code, in bytes (JVMS SE 21 chapter 6), over a table of names, which takes
/// the names that the instruction has. What is known of the texts of the constant pool is in the memo, and is kept there; what is
/// known of the rows of `BootstrapMethods` is in the other one.
///
/// The instruction is one that `decode` gives over this pool, with the rows of `BootstrapMethods`. Where the table is full
/// or memory runs out, the table may have grown, and the memos are of no more use; the table is full only where it lacks one
/// of the names.
pub fn instr_with(
    alloc: Global,
    ins: &RawIns,
    pc: u16,
    pool: &Pool,
    boots: &[BootRow],
    names: &mut Names,
    memo: &mut Memo,
    boot_memo: &mut BootMemo,
) -> Result<Instr, NameFault>
    requires sound { is_sound_ins pool.now.entries boots.now pc ins.now ≡ true }
    requires memo { IsMemo names.old pool.now.entries memo.old }
    requires rows { IsBootMemo names.old pool.now.entries boots.now boot_memo.old }
    ensures instr { IfOk result (IsInstrOf names.new pool.now.entries boots.now pc ins.now) }
    ensures names { Taken result names.old names.new (instr_texts pool.now.entries boots.now ins.now) }
    ensures memo { OnOk result (IsMemo names.new pool.now.entries memo.new) }
    ensures rows { OnOk result (IsBootMemo names.new pool.now.entries boots.now boot_memo.new) }
{
    let entries = pool.entries.as_slice();
    if is_named(ins.op) {
        return named_instr(alloc, entries, ins, names, memo);
    }
    if is_call(ins.op) {
        return call_instr(alloc, entries, ins, names, memo);
    }
    if ins.op == INVOKE_DYNAMIC {
        return site_instr(alloc, entries, boots, ins, names, memo, boot_memo);
    }
    plain_instr(alloc, entries, pc, ins)
}

/// The same of one instruction alone.
///
/// The instruction is one that `decode` gives over this pool, with the rows of `BootstrapMethods`. Where the table is full
/// or memory runs out, the table may have grown; it is full only where it lacks one of the names.
pub fn to_instr(
    alloc: Global,
    ins: &RawIns,
    pc: u16,
    pool: &Pool,
    boots: &[BootRow],
    names: &mut Names,
) -> Result<Instr, NameFault>
    requires { is_sound_ins pool.now.entries boots.now pc ins.now ≡ true }
    ensures instr { IfOk result (IsInstrOf names.new pool.now.entries boots.now pc ins.now) }
    ensures names { Taken result names.old names.new (instr_texts pool.now.entries boots.now ins.now) }
{
    let Ok(mut memo) = empty_memo(alloc, pool.entries.as_slice()) else {
        return Err(NameFault::Memory);
    };
    let Ok(mut boot_memo) = empty_boot_memo(alloc, boots) else {
        return Err(NameFault::Memory);
    };
    instr_with(
        alloc,
        ins,
        pc,
        pool,
        boots,
        names,
        &mut memo,
        &mut boot_memo,
    )
}
