//! The `Code` attribute of a method (JVMS SE 21 section 4.7.3).
ghost use Rattle.std.specs.Prelude.{◌≡◌, ◌+◌, ◌^◌, ◌<◌, ◌≤◌, ◌&&◌, length, nat_le, nat_lt};
ghost use Rattle.std.specs.List.{flat_map};
ghost use Rattle.fp_model.specs.Reading.{Gives};
ghost use Rattle.fp_model.specs.References.{each_checked};
ghost use Rattle.fp_model.specs.Spelling.{spelled_plain};
ghost use Rattle.fp_attr.specs.Codes.{code_at, name_checked};

use crate::cut::cut_code;
use crate::rows::check_rows;
use fp_model::look_up::{UTF8, tag};
use fp_model::{Entry, FileFault, Pool, RawAttr, RawBody, RawCode};
use fp_ops::{check_targets, decode};
use std::alloc::Global;

/// How many bytes of code a method has at most.
const LONGEST_CODE: u32 = 65535;

/// Whether the locals hold the words of the arguments.
fn has_room(max_locals: u16, words: u16) -> bool
    ensures { result ≡ nat_le words max_locals }
{
    words <= max_locals
}

/// Whether a code may have so many bytes.
fn has_size(len: u32) -> bool
    ensures { result ≡ (nat_lt 0 len && nat_lt len 65536) }
{
    len != 0 && len <= LONGEST_CODE
}

/// How many bytes an attribute of a code takes, which is kept unread.
fn size(attribute: &RawAttr) -> u32
    requires { length (spelled_plain attribute.now) < 2 ^ 32 }
    ensures { result ≡ length (spelled_plain attribute.now) }
{
    match &attribute.body {
        RawBody::Bytes(held) => 6 + held.len() as u32,
        _ => 6,
    }
}

/// Checks that the name of each attribute is a text; the first attribute stands at an offset.
fn check_names(entries: &[Entry], at: u32, attributes: &[RawAttr]) -> Result<(), FileFault>
    requires { at + length (flat_map spelled_plain attributes.now) < 2 ^ 32 }
    ensures { Gives result (each_checked spelled_plain (name_checked entries.now) at attributes.now) }
{
    let mut next = at;
    for attribute in attributes {
        if tag(entries, attribute.name) != UTF8 {
            return Err(FileFault::Index {
                at: next,
                index: attribute.name,
            });
        }
        next += size(attribute);
    }
    Ok(())
}

/// What a `Code` attribute holds, which begins at an offset and ends where the window does. The method's arguments take so
/// many words.
#[tactic(auto, unfolding(crate::specs::Codes::code_at))]
pub fn read_code(
    alloc: Global,
    pool: &Pool,
    words: u16,
    window: &[u8],
    at: u32,
) -> Result<RawBody, FileFault>
    requires { length window.now < 2 ^ 32 }
    ensures { Gives result (code_at pool.now.entries words window.now at) }
{
    let cut = cut_code(alloc, window, at)?;
    if !has_room(cut.max_locals, words) {
        return Err(FileFault::Bounds { at: at + 2 });
    }
    if !has_size(cut.len) {
        return Err(FileFault::Bounds { at: at + 4 });
    }
    let entries = pool.entries.as_slice();
    let code = decode(alloc, window, cut.start, cut.len, pool, cut.max_locals)?;
    check_targets(alloc, code.as_slice(), cut.start)?;
    check_rows(
        alloc,
        entries,
        code.as_slice(),
        cut.len,
        cut.rows_at,
        cut.rows.as_slice(),
    )?;
    check_names(entries, cut.attributes_at, cut.attributes.as_slice())?;
    Ok(RawBody::Code(RawCode {
        max_stack: cut.max_stack,
        max_locals: cut.max_locals,
        code,
        rows: cut.rows,
        attributes: cut.attributes,
    }))
}
