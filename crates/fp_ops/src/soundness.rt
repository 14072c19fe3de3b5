//! Whether what an instruction asks of the constant pool and of the bootstrap methods is there.
ghost use Rattle.std.specs.Prelude.{◌≡◌, is_some, slice_get, IfOk};
ghost use Rattle.std.specs.List.{list_all};
ghost use Rattle.fp_model.specs.Descriptor as descriptor;
ghost use Rattle.fp_model.specs.Descriptor.{is_field_descriptor, is_method_descriptor};
ghost use Rattle.fp_model.specs.Instructions as instructions;
ghost use Rattle.fp_model.specs.NamedInstructions as named;
ghost use Rattle.fp_model.specs.NamedInstructions.{all_texts, is_entry_text, member_at};
ghost use Rattle.fp_model.specs.Entries.{class_name_at, passes, text_at};
ghost use Rattle.fp_ops.specs.CallSites as call_sites;
ghost use Rattle.fp_ops.specs.CallSites.{handle_with, is_sound_arg_at, is_sound_site_at, site_by};
ghost use Rattle.fp_ops.specs.Forms.{index_in, is_sound_ins};

use crate::instr::{index_of, is_call, is_named};
use crate::jumps::plain_instr;
use crate::sites::{Site, site_at};
use crate::texts::{texts_of, texts_with};
use fp_model::look_up::{class_name, text};
use fp_model::opcode::INVOKE_DYNAMIC;
use fp_model::{BootRow, Entry, Pool, RawIns, is_descr, is_kind};
use sqlite_items::at;
use std::alloc::{AllocError, Global};

/// How long a text of a class file is at most, in bytes.
const LONGEST_TEXT: usize = 65535;

/// Whether a text of a class file is a method descriptor.
fn is_method_text(text: &[u8]) -> bool
    ensures { result ≡ is_entry_text is_method_descriptor text.now }
{
    text.len() <= LONGEST_TEXT && is_descr(text)
}

/// Whether a text of a class file is a field descriptor.
fn is_field_text(text: &[u8]) -> bool
    ensures { result ≡ is_entry_text is_field_descriptor text.now }
{
    text.len() <= LONGEST_TEXT && is_kind(text)
}

/// Whether a text of a class file names a class.
fn is_class_text(text: &[u8]) -> bool
    ensures { result ≡ is_entry_text descriptor.is_class_text text.now }
{
    text.len() <= LONGEST_TEXT && (!matches!(text, [b'[', ..]) || is_kind(text))
}

/// Whether a text of a class file names the class of an array whose elements have a descriptor.
fn is_array_text(text: &[u8]) -> bool
    ensures { result ≡ is_entry_text named.is_array_text text.now }
{
    text.len() <= LONGEST_TEXT && (!text.is_empty() && is_kind(&text[1..]))
}

/// Whether a member with a field descriptor is referred to.
fn is_field(entries: &[Entry], index: u16) -> bool
    ensures { result ≡ passes (λ texts. is_entry_text is_field_descriptor texts.descr) (member_at entries.now index) }
{
    match texts_of(entries, index) {
        Some(texts) => is_field_text(texts.descr),
        None => false,
    }
}

/// Whether a member with a method descriptor is referred to.
fn is_method(entries: &[Entry], index: u16) -> bool
    ensures { result ≡ passes (λ texts. is_entry_text is_method_descriptor texts.descr) (member_at entries.now index) }
{
    match texts_of(entries, index) {
        Some(texts) => is_method_text(texts.descr),
        None => false,
    }
}

/// Whether a class is named that has arrays.
fn is_element_class(entries: &[Entry], index: u16) -> bool
    ensures { result ≡ passes (is_entry_text descriptor.is_class_text) (class_name_at entries.now index) }
{
    match class_name(entries, index) {
        Some(name) => is_class_text(name),
        None => false,
    }
}

/// Whether the class of an array is named.
fn is_array_class(entries: &[Entry], index: u16) -> bool
    ensures { result ≡ passes (is_entry_text named.is_array_text) (class_name_at entries.now index) }
{
    match class_name(entries, index) {
        Some(name) => is_array_text(name),
        None => false,
    }
}

/// Whether what stands at the index is what the opcode asks for.
fn is_named_sound(entries: &[Entry], op: u8, index: u16) -> bool
    ensures { result ≡ named.is_named_sound entries.now op index }
{
    match op {
        178..=181 => is_field(entries, index),
        187 | 192 | 193 => class_name(entries, index).is_some(),
        189 => is_element_class(entries, index),
        197 => is_array_class(entries, index),
        _ => false,
    }
}

/// Whether the descriptor at an index is a method's.
fn is_method_type(entries: &[Entry], descr: u16) -> bool
    ensures { result ≡ passes (is_entry_text is_method_descriptor) (text_at entries.now descr) }
{
    match text(entries, descr) {
        Some(descr) => is_method_text(descr),
        None => false,
    }
}

/// Whether the static argument at an index is sound.
fn is_sound_arg(entries: &[Entry], index: u16) -> bool
    ensures { result ≡ is_sound_arg_at entries.now index }
{
    match at(entries, index as usize) {
        Some(Entry::MethodType(descr)) => is_method_type(entries, *descr),
        Some(Entry::Handle { index, .. }) => texts_of(entries, *index).is_some(),
        _ => true,
    }
}

/// Whether the static arguments at these indexes are sound.
fn are_sound_args(entries: &[Entry], indexes: &[u16]) -> bool
    ensures { result ≡ list_all (is_sound_arg_at entries.now) indexes.now }
{
    indexes.iter().all(|index| is_sound_arg(entries, *index))
}

/// Whether a call site has all of its texts and is sound.
fn is_sound_site(entries: &[Entry], site: Site) -> bool
    ensures { result ≡ passes (call_sites.is_sound_site entries.now) (site_by (text_at entries.now site.entry.name) (text_at entries.now site.entry.descr) (handle_with site.entry.method.kind (all_texts (text_at entries.now site.entry.method.member.class) (text_at entries.now site.entry.method.member.name) (text_at entries.now site.entry.method.member.descr))) site.entry.args.now) }
{
    let has_member = texts_with(entries, site.method.member).is_some();
    match text(entries, site.descr) {
        Some(descr) if has_member && text(entries, site.name).is_some() => {
            is_method_text(descr) && are_sound_args(entries, site.args)
        }
        _ => false,
    }
}

/// Whether the call site at an index is sound.
fn is_site(entries: &[Entry], boots: &[BootRow], index: u16) -> bool
    ensures { result ≡ is_sound_site_at entries.now boots.now index }
{
    match site_at(entries, boots, index) {
        Some(site) => is_sound_site(entries, site),
        None => false,
    }
}

/// Whether an instruction that takes names and calls nothing has what it asks for.
fn is_sound_named(entries: &[Entry], ins: &RawIns) -> bool
    ensures { result ≡ passes (λ index. named.is_named_sound entries.now ins.now.op index) (index_in ins.now) }
{
    match index_of(ins) {
        Some(index) => is_named_sound(entries, ins.op, index),
        None => false,
    }
}

/// Whether a call has the method that it asks for.
fn is_sound_call(entries: &[Entry], ins: &RawIns) -> bool
    ensures { result ≡ passes (λ index. passes (λ texts. is_entry_text is_method_descriptor texts.descr) (member_at entries.now index)) (index_in ins.now) }
{
    match index_of(ins) {
        Some(index) => is_method(entries, index),
        None => false,
    }
}

/// Whether `invokedynamic` has the call site that it asks for.
fn is_sound_site_call(entries: &[Entry], boots: &[BootRow], ins: &RawIns) -> bool
    ensures { result ≡ passes (λ index. is_sound_site_at entries.now boots.now index) (index_in ins.now) }
{
    match index_of(ins) {
        Some(index) => is_site(entries, boots, index),
        None => false,
    }
}

/// Whether what an instruction asks of its operands, of the constant pool and of the rows of `BootstrapMethods` is there, so
/// that `to_instr` may tell its form. `pc` is its offset in the code, in bytes.
pub fn has_form(
    alloc: Global,
    ins: &RawIns,
    pc: u16,
    pool: &Pool,
    boots: &[BootRow],
) -> Result<bool, AllocError>
    ensures { IfOk result (λ b. b ≡ is_sound_ins pool.now.entries boots.now pc ins.now) }
{
    let entries = pool.entries.as_slice();
    if is_named(ins.op) {
        return Ok(is_sound_named(entries, ins));
    }
    if is_call(ins.op) {
        return Ok(is_sound_call(entries, ins));
    }
    if ins.op == INVOKE_DYNAMIC {
        return Ok(is_sound_site_call(entries, boots, ins));
    }
    let instr = plain_instr(alloc, entries, pc as u32, ins)?;
    Ok(instr.is_some())
}
