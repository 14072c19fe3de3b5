//! Calls at call sites that a bootstrap method computes (JVMS SE 21 section 6.5.invokedynamic), where each text of the
//! constant pool is read once.
ghost use Rattle.std.specs.Prelude.{◌≡◌, ◌<◌, None, Some, is_some, length, slice_get, true, IfNone, IfOk, IfSome, OnOk};
ghost use Rattle.std.specs.List.{flat_map, list_all, AllZip};
ghost use Rattle.fp_ops.specs.BootMemos.{IsBootMemo};
ghost use Rattle.fp_ops.specs.Memos.{IsMemo};
ghost use Rattle.fp_ops.specs.References.{handle_of, member_names, site_of, AreTexts};
ghost use Rattle.fp_model.specs.Descriptor.{descr_names, is_method_descriptor};
ghost use Rattle.fp_model.specs.Entries.{passes, text_at};
ghost use Rattle.fp_model.specs.Interning.{Interned};
ghost use Rattle.fp_model.specs.NamedInstructions.{all_texts, is_entry_text, member_at, texts_by, IsOf};
ghost use Rattle.fp_model.specs.Taking.{Taken};
ghost use Rattle.fp_ops.specs.CallSites.{arg_texts_at, handle_texts, handle_with, is_sound_arg_at, is_sound_site_at, row_args_at, site_by, site_texts, site_texts_at, site_with, IsArgAt, IsBootRef, IsHandleArg, IsSiteAt, IsSiteInstr, IsTypeArg};
ghost use Rattle.fp_ops.specs.CallSites as call_sites;

use crate::boot_memo::{BootMemo, keep_args, known_args};
use crate::kinds::kinds_at;
use crate::memo::Memo;
use crate::naming::text;
use crate::references::{Reference, number_all, reference_at};
use fp_base::{NameFault, Names};
use fp_model::{BootArg, BootRef, BootRow, Entry, Instr, Shared};
use sqlite_items::{Items, at};
use std::alloc::Global;

/// A method handle: its kind, and the indexes of the texts of its member.
#[derive(Clone, Copy)]
pub struct Handle {
    pub kind: u8,
    pub member: Reference,
}

/// A call site: the indexes of its name and descriptor, its bootstrap method, the number of the row of this method, and the
/// indexes of the static arguments.
#[derive(Clone, Copy)]
pub struct Site<'a> {
    pub name: u16,
    pub descr: u16,
    pub method: Handle,
    pub row: u16,
    pub args: &'a [u16],
}

/// The method handle at an index.
fn handle_at(entries: &[Entry], index: u16) -> Option<Handle>
    ensures some { IfSome result (λ h. call_sites.handle_at entries.now index ≡ handle_with h.kind (all_texts (text_at entries.now h.member.class) (text_at entries.now h.member.name) (text_at entries.now h.member.descr))) }
    ensures none { IfNone result (call_sites.handle_at entries.now index ≡ None) }
{
    match at(entries, index as usize) {
        Some(Entry::Handle { kind, index }) => match reference_at(entries, *index) {
            Some(member) => Some(Handle {
                kind: *kind,
                member,
            }),
            None => None,
        },
        _ => None,
    }
}

/// The reference of a method handle.
fn boot_ref(
    alloc: Global,
    entries: &[Entry],
    handle: Handle,
    names: &mut Names,
    memo: &mut Memo,
) -> Result<BootRef, NameFault>
    requires there { AreTexts entries.now handle.member.class handle.member.name handle.member.descr }
    requires memo { IsMemo names.old entries.now memo.old }
    ensures reference { IfOk result (IsBootRef names.new (handle_of entries.now handle.kind handle.member.class handle.member.name handle.member.descr)) }
    ensures names { Interned result names.old names.new (handle_texts (handle_of entries.now handle.kind handle.member.class handle.member.name handle.member.descr)) }
    ensures memo { OnOk result (IsMemo names.new entries.now memo.new) }
{
    let kind = handle.kind;
    let numbers = number_all(alloc, entries, handle.member, names, memo)?;
    Ok(BootRef {
        kind,
        class: numbers.class,
        name: numbers.name,
        descr: numbers.descr,
    })
}

/// The argument of a method type, by the index of its descriptor.
fn type_arg(
    alloc: Global,
    entries: &[Entry],
    descr: u16,
    names: &mut Names,
    memo: &mut Memo,
) -> Result<BootArg, NameFault>
    requires descr { passes (is_entry_text is_method_descriptor) (text_at entries.now descr) ≡ true }
    requires memo { IsMemo names.old entries.now memo.old }
    ensures arg { IfOk result (λ a. IsOf (λ text. IsTypeArg names.new text a) (text_at entries.now descr)) }
    ensures names { Taken result names.old names.new (texts_by descr_names (text_at entries.now descr)) }
    ensures memo { OnOk result (IsMemo names.new entries.now memo.new) }
{
    let kinds = kinds_at(alloc, entries, descr, names, memo)?;
    Ok(BootArg::Sig(kinds))
}

/// The argument of a method handle.
fn handle_arg(
    alloc: Global,
    entries: &[Entry],
    handle: Handle,
    names: &mut Names,
    memo: &mut Memo,
) -> Result<BootArg, NameFault>
    requires there { AreTexts entries.now handle.member.class handle.member.name handle.member.descr }
    requires memo { IsMemo names.old entries.now memo.old }
    ensures arg { IfOk result (IsHandleArg names.new (handle_of entries.now handle.kind handle.member.class handle.member.name handle.member.descr)) }
    ensures names { Taken result names.old names.new (handle_texts (handle_of entries.now handle.kind handle.member.class handle.member.name handle.member.descr)) }
    ensures memo { OnOk result (IsMemo names.new entries.now memo.new) }
{
    let reference = boot_ref(alloc, entries, handle, names, memo)?;
    Ok(BootArg::Ref(reference))
}

/// The argument of a method handle, by its kind and the index of its member.
fn handle_arg_at(
    alloc: Global,
    entries: &[Entry],
    kind: u8,
    index: u16,
    names: &mut Names,
    memo: &mut Memo,
) -> Result<BootArg, NameFault>
    requires there { is_some (member_at entries.now index) ≡ true }
    requires memo { IsMemo names.old entries.now memo.old }
    ensures arg { IfOk result (λ a. IsOf (λ handle. IsHandleArg names.new handle a) (handle_with kind (member_at entries.now index))) }
    ensures names { Taken result names.old names.new (texts_by handle_texts (handle_with kind (member_at entries.now index))) }
    ensures memo { OnOk result (IsMemo names.new entries.now memo.new) }
{
    match reference_at(entries, index) {
        Some(member) => handle_arg(alloc, entries, Handle { kind, member }, names, memo),
        None => unreachable!(),
    }
}

/// The static argument at an index.
fn boot_arg(
    alloc: Global,
    entries: &[Entry],
    index: u16,
    names: &mut Names,
    memo: &mut Memo,
) -> Result<BootArg, NameFault>
    requires sound { is_sound_arg_at entries.now index ≡ true }
    requires memo { IsMemo names.old entries.now memo.old }
    ensures arg { IfOk result (IsArgAt names.new entries.now index) }
    ensures names { Taken result names.old names.new (arg_texts_at entries.now index) }
    ensures memo { OnOk result (IsMemo names.new entries.now memo.new) }
{
    match at(entries, index as usize) {
        Some(Entry::MethodType(descr)) => type_arg(alloc, entries, *descr, names, memo),
        Some(Entry::Handle { kind, index }) => {
            handle_arg_at(alloc, entries, *kind, *index, names, memo)
        }
        _ => Ok(BootArg::Other),
    }
}

/// The static arguments at these indexes.
fn boot_args(
    alloc: Global,
    entries: &[Entry],
    indexes: &[u16],
    names: &mut Names,
    memo: &mut Memo,
) -> Result<Items<BootArg>, NameFault>
    requires sound { list_all (is_sound_arg_at entries.now) indexes.now ≡ true }
    requires memo { IsMemo names.old entries.now memo.old }
    ensures args { IfOk result (λ args. AllZip (IsArgAt names.new entries.now) indexes.now args) }
    ensures names { Taken result names.old names.new (flat_map (arg_texts_at entries.now) indexes.now) }
    ensures memo { OnOk result (IsMemo names.new entries.now memo.new) }
{
    let Ok(mut args) = Vec::with_capacity(alloc, indexes.len()) else {
        return Err(NameFault::Memory);
    };
    for index in indexes {
        let arg = boot_arg(alloc, entries, *index, names, memo)?;
        if args.push(arg).is_err() {
            return Err(NameFault::Memory);
        }
    }
    Ok(Items::from_vec(args))
}

/// The indexes of the static arguments of the row of a number, none where there is no row.
fn row_args(boots: &[BootRow], row: u16) -> &[u16]
    ensures { result.now ≡ row_args_at boots.now row }
{
    match at(boots, row as usize) {
        Some(row) => row.args.as_slice(),
        None => &[],
    }
}

/// The static arguments of the row of a number, which are then known.
fn shared_args(
    alloc: Global,
    entries: &[Entry],
    boots: &[BootRow],
    row: u16,
    names: &mut Names,
    memo: &mut Memo,
    boot_memo: &mut BootMemo,
) -> Result<Shared<Items<BootArg>>, NameFault>
    requires there { row < length boots.now }
    requires sound { list_all (is_sound_arg_at entries.now) (row_args_at boots.now row) ≡ true }
    requires memo { IsMemo names.old entries.now memo.old }
    requires rows { IsBootMemo names.old entries.now boots.now boot_memo.old }
    ensures args { IfOk result (λ args. AllZip (IsArgAt names.new entries.now) (row_args_at boots.now row) args) }
    ensures names { Taken result names.old names.new (flat_map (arg_texts_at entries.now) (row_args_at boots.now row)) }
    ensures memo { OnOk result (IsMemo names.new entries.now memo.new) }
    ensures rows { OnOk result (IsBootMemo names.new entries.now boots.now boot_memo.new) }
{
    if let Some(args) = known_args(boot_memo, row) {
        return match args.share() {
            Ok(args) => Ok(args),
            Err(_) => Err(NameFault::Memory),
        };
    }
    let args = boot_args(alloc, entries, row_args(boots, row), names, memo)?;
    match Shared::pair(alloc, args) {
        Ok((kept, args)) => {
            keep_args(boot_memo, row, kept);
            Ok(args)
        }
        Err(_) => Err(NameFault::Memory),
    }
}

/// A call at a call site.
fn site_instr(
    alloc: Global,
    entries: &[Entry],
    boots: &[BootRow],
    site: Site,
    names: &mut Names,
    memo: &mut Memo,
    boot_memo: &mut BootMemo,
) -> Result<Instr, NameFault>
    requires name { is_some (text_at entries.now site.name) ≡ true }
    requires descr { passes (is_entry_text is_method_descriptor) (text_at entries.now site.descr) ≡ true }
    requires there { AreTexts entries.now site.method.member.class site.method.member.name site.method.member.descr }
    requires args { list_all (is_sound_arg_at entries.now) site.args.now ≡ true }
    requires row { site.args.now ≡ row_args_at boots.now site.row }
    requires within { site.row < length boots.now }
    requires memo { IsMemo names.old entries.now memo.old }
    requires rows { IsBootMemo names.old entries.now boots.now boot_memo.old }
    ensures instr { IfOk result (IsSiteInstr names.new entries.now (site_of entries.now site.entry.name site.entry.descr (handle_of entries.now site.entry.method.kind site.entry.method.member.class site.entry.method.member.name site.entry.method.member.descr) site.entry.args.now)) }
    ensures names { Taken result names.old names.new (site_texts entries.now (site_of entries.now site.entry.name site.entry.descr (handle_of entries.now site.entry.method.kind site.entry.method.member.class site.entry.method.member.name site.entry.method.member.descr) site.entry.args.now)) }
    ensures memo { OnOk result (IsMemo names.new entries.now memo.new) }
    ensures rows { OnOk result (IsBootMemo names.new entries.now boots.now boot_memo.new) }
{
    let name = text(alloc, entries, site.name, names, memo)?;
    let descr = kinds_at(alloc, entries, site.descr, names, memo)?;
    let boot = boot_ref(alloc, entries, site.method, names, memo)?;
    let args = shared_args(alloc, entries, boots, site.row, names, memo, boot_memo)?;
    Ok(Instr::InvokeDynamic {
        name,
        descr,
        boot,
        args,
    })
}

/// The call site of a row of bootstrap methods, its number, and the index of a name and type.
fn site_with_row<'a>(
    entries: &'a [Entry],
    row: &'a BootRow,
    number: u16,
    pair: u16,
) -> Option<Site<'a>>
    ensures some { IfSome result (λ s. site_with entries.now (Some row.now) (slice_get entries.now pair) ≡ site_by (text_at entries.now s.name) (text_at entries.now s.descr) (handle_with s.method.kind (all_texts (text_at entries.now s.method.member.class) (text_at entries.now s.method.member.name) (text_at entries.now s.method.member.descr))) s.args.now) }
    ensures none { IfNone result (site_with entries.now (Some row.now) (slice_get entries.now pair) ≡ None) }
    ensures row { IfSome result (λ s. s.row ≡ number) }
    ensures args { IfSome result (λ s. s.args.now ≡ row.now.args) }
{
    match at(entries, pair as usize) {
        Some(Entry::Pair { name, descr }) => match handle_at(entries, row.method) {
            Some(method) => Some(Site {
                name: *name,
                descr: *descr,
                method,
                row: number,
                args: row.args.as_slice(),
            }),
            None => None,
        },
        _ => None,
    }
}

/// The call site at an index.
pub fn site_at<'a>(entries: &'a [Entry], boots: &'a [BootRow], index: u16) -> Option<Site<'a>>
    ensures some { IfSome result (λ s. call_sites.site_at entries.now boots.now index ≡ site_by (text_at entries.now s.name) (text_at entries.now s.descr) (handle_with s.method.kind (all_texts (text_at entries.now s.method.member.class) (text_at entries.now s.method.member.name) (text_at entries.now s.method.member.descr))) s.args.now) }
    ensures none { IfNone result (call_sites.site_at entries.now boots.now index ≡ None) }
    ensures row { IfSome result (λ s. s.args.now ≡ row_args_at boots.now s.row) }
    ensures within { IfSome result (λ s. s.row < length boots.now) }
{
    match at(entries, index as usize) {
        Some(Entry::InvokeDynamic { boot, pair }) => match at(boots, *boot as usize) {
            Some(row) => site_with_row(entries, row, *boot, *pair),
            None => None,
        },
        _ => None,
    }
}

/// A call at a call site, by the index of the call site.
pub fn site_instr_at(
    alloc: Global,
    entries: &[Entry],
    boots: &[BootRow],
    index: u16,
    names: &mut Names,
    memo: &mut Memo,
    boot_memo: &mut BootMemo,
) -> Result<Instr, NameFault>
    requires sound { is_sound_site_at entries.now boots.now index ≡ true }
    requires memo { IsMemo names.old entries.now memo.old }
    requires rows { IsBootMemo names.old entries.now boots.now boot_memo.old }
    ensures instr { IfOk result (IsSiteAt names.new entries.now boots.now index) }
    ensures names { Taken result names.old names.new (site_texts_at entries.now boots.now index) }
    ensures memo { OnOk result (IsMemo names.new entries.now memo.new) }
    ensures rows { OnOk result (IsBootMemo names.new entries.now boots.now boot_memo.new) }
{
    match site_at(entries, boots, index) {
        Some(site) => site_instr(alloc, entries, boots, site, names, memo, boot_memo),
        None => unreachable!(),
    }
}
