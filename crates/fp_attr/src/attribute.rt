//! Attributes, by their names and by what they belong to (JVMS SE 21 section 4.7).
ghost use Rattle.std.specs.Prelude.{◌≡◌, ◌^◌, ◌<◌, ℕ, List, IfOk, Ok, codes, length, option_copied, take};
ghost use Rattle.fp_model.specs.declared.raw.attribute.RawAttr.{RawAttr};
ghost use Rattle.fp_model.specs.declared.raw.pool.Entry.{Entry};
ghost use Rattle.fp_model.specs.Entries.{text_at};
ghost use Rattle.fp_model.specs.Reading.{Gives, Takes};
ghost use Rattle.fp_model.specs.Spelling.{spelled_attr};
ghost use Rattle.fp_attr.specs.declared.owner.Owner.{Owner};
ghost use Rattle.fp_attr.specs.Attributes.{attribute_at, attribute_skipped, body_at, constant_at, is_called, is_value_tag, unread_at};

use crate::boots::read_boots;
use crate::code::read_code;
use crate::owner::Owner;
use fp_model::look_up::{UTF8, tag, text};
use fp_model::reading::{behind, run_at, u16_at, u32_at};
use fp_model::{Entry, FileFault, Pool, RawAttr, RawBody};
use std::alloc::Global;

/// What an attribute holds that is kept unread.
#[tactic(auto, unfolding(crate::specs::Attributes::unread_at))]
fn keep_unread(alloc: Global, window: &[u8], at: u32) -> Result<RawBody, FileFault>
    requires { length window.now < 2 ^ 32 }
    ensures { Gives result (unread_at window.now at) }
{
    let len = (window.len() as u32).saturating_sub(at);
    let (held, _end) = run_at(alloc, window, at, len)?;
    Ok(RawBody::Bytes(held))
}

/// Whether a field may be given a constant of the tag.
fn is_value(tag: u8) -> bool
    ensures { result ≡ is_value_tag tag }
{
    matches!(tag, 3..=6 | 8)
}

/// What a `ConstantValue` attribute holds; its length stands at `len_at`.
#[tactic(auto, unfolding(crate::specs::Attributes::constant_at))]
fn read_constant(
    entries: &[Entry],
    len_at: u32,
    window: &[u8],
    at: u32,
) -> Result<RawBody, FileFault>
    requires { length window.now < 2 ^ 32 }
    ensures { Gives result (constant_at entries.now len_at window.now at) }
{
    if window.len() as u64 != at as u64 + 2 {
        return Err(FileFault::Bounds { at: len_at });
    }
    let (index, _end) = u16_at(window, at)?;
    if !is_value(tag(entries, index)) {
        return Err(FileFault::Index { at, index });
    }
    Ok(RawBody::Constant(index))
}

/// Whether the text at an index is a name.
fn is_named(entries: &[Entry], index: u16, wanted: &[u8]) -> bool
    ensures { result ≡ is_called (text_at entries.now index) wanted.now }
{
    match text(entries, index) {
        Some(name) => name == wanted,
        None => false,
    }
}

/// What an attribute holds that is named by the text at an index.
#[tactic(auto, unfolding(crate::specs::Attributes::body_at))]
fn read_body(
    alloc: Global,
    pool: &Pool,
    owner: Owner,
    name: u16,
    len_at: u32,
    window: &[u8],
    at: u32,
) -> Result<RawBody, FileFault>
    requires { length window.now < 2 ^ 32 }
    ensures { Gives result (body_at pool.now.entries owner (text_at pool.now.entries name) len_at window.now at) }
{
    let entries = pool.entries.as_slice();
    match owner {
        Owner::Field if is_named(entries, name, b"ConstantValue") => {
            read_constant(entries, len_at, window, at)
        }
        Owner::Method { words } if is_named(entries, name, b"Code") => {
            read_code(alloc, pool, words, window, at)
        }
        Owner::Class if is_named(entries, name, b"BootstrapMethods") => {
            read_boots(alloc, entries, window, at)
        }
        _ => keep_unread(alloc, window, at),
    }
}

/// An attribute at an offset, and the offset after it.
#[tactic(auto, unfolding(crate::specs::Attributes::attribute_at))]
fn attribute(
    alloc: Global,
    bytes: &[u8],
    at: u32,
    pool: &Pool,
    owner: Owner,
) -> Result<(RawAttr, u32), FileFault>
    requires { length bytes.now < 2 ^ 32 }
    ensures { Gives result (attribute_at pool.now.entries owner bytes.now at) }
{
    let (name, len_at) = u16_at(bytes, at)?;
    let (len, start) = u32_at(bytes, len_at)?;
    let end = behind(bytes, start, len)?;
    if tag(pool.entries.as_slice(), name) != UTF8 {
        return Err(FileFault::Index { at, index: name });
    }
    let window = &bytes[..end as usize];
    let body = read_body(alloc, pool, owner, name, len_at, window, start)?;
    Ok((RawAttr { name, body }, end))
}

/// The attribute of an owner at an offset of a file, and the offset after it (JVMS SE 21 section 4.7).
///
/// The bytes are fewer than 2^32. A fault is the first one in this order: the attribute is cut by its length (`Truncated`),
/// its name is a text (`Index`), and then what it holds. A `ConstantValue` of a field has the length 2 (`Bounds` at the
/// length) and the index of a value (`Index`). A `Code` of a method is cut within its length (`Truncated`, `Trailing`); then
/// `max_locals` has room for the arguments and the code has 1 to 65,535 bytes (`Bounds`), its instructions are decoded, its
/// branches lead to instructions (`Bounds` at the instruction), its exception table has ranges of instructions (`Bounds` at
/// the row) and classes (`Index`), and the names of its attributes are texts (`Index`). The `BootstrapMethods` of a class is
/// cut within its length, and then its indexes are those of method handles and constants (`Index`). Every other attribute
/// is kept unread. `Memory` says nothing of the file.
pub fn read_attr(
    alloc: Global,
    bytes: &[u8],
    at: u32,
    pool: &Pool,
    owner: Owner,
) -> Result<(RawAttr, u32), FileFault>
    requires { length bytes.now < 2 ^ 32 }
    // The attribute that stands there, or the first fault.
    ensures exact { Gives result (attribute_at pool.now.entries owner bytes.now at) }
    // What is read is spelled there.
    ensures spelled { IfOk result (λ x. Takes bytes.now at (spelled_attr x.0) x.1) }
{
    attribute(alloc, bytes, at, pool, owner)
}

/// The offset behind the attribute at an offset, by its length alone.
///
/// The bytes are fewer than 2^32. `Truncated` is told at the first number or run of bytes that doesn't lie whole in them.
#[tactic(auto, unfolding(crate::specs::Attributes::attribute_skipped))]
pub fn skip_attr(bytes: &[u8], at: u32) -> Result<u32, FileFault>
    requires { length bytes.now < 2 ^ 32 }
    ensures { Gives result (attribute_skipped bytes.now at) }
{
    let (_name, next) = u16_at(bytes, at)?;
    let (len, next) = u32_at(bytes, next)?;
    behind(bytes, next, len)
}

/// A law: an attribute that is read ends where it is skipped to.
pub fn law_skipped()
    ensures { (entries : List Entry) (owner : Owner) (bytes : List ℕ) (at : ℕ) (attr : RawAttr) (next : ℕ)
        → attribute_at entries owner bytes at ≡ Ok (attr, next)
        → attribute_skipped bytes at ≡ Ok next }
{}
