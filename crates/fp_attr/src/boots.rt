//! The bootstrap methods of a class (JVMS SE 21 section 4.7.23).
ghost use Rattle.std.specs.Prelude.{◌≡◌, ◌+◌, ◌^◌, ◌<◌, [], length};
ghost use Rattle.std.specs.List.{flat_map};
ghost use Rattle.fp_model.specs.Reading.{Gives, counted_at, many_at};
ghost use Rattle.fp_model.specs.References.{each_checked};
ghost use Rattle.fp_model.specs.Spelling.{spelled_boot, u2};
ghost use Rattle.fp_attr.specs.Attributes.{argument_checked, boot_at, boot_checked, boots_at, is_argument_tag};

use fp_model::look_up::{METHOD_HANDLE, tag};
use fp_model::reading::{u16_at, u16s_at};
use fp_model::{BootRow, Entry, FileFault, RawBody};
use sqlite_items::Items;
use std::alloc::Global;

/// A row at an offset, and the offset after it.
#[tactic(auto, unfolding(crate::specs::Attributes::boot_at))]
fn row(alloc: Global, bytes: &[u8], at: u32) -> Result<(BootRow, u32), FileFault>
    requires { length bytes.now < 2 ^ 32 }
    ensures { Gives result (boot_at bytes.now at) }
{
    let (method, next) = u16_at(bytes, at)?;
    let (args, end) = u16s_at(alloc, bytes, next)?;
    Ok((BootRow { method, args }, end))
}

/// How many rows there are, and each of them.
#[tactic(auto, unfolding(fp_model::specs::Reading::counted_at))]
fn rows(alloc: Global, bytes: &[u8], at: u32) -> Result<(Items<BootRow>, u32), FileFault>
    requires { length bytes.now < 2 ^ 32 }
    ensures { Gives result (counted_at (boot_at bytes.now) bytes.now at) }
{
    let (count, next) = u16_at(bytes, at)?;
    many_rows(alloc, bytes, next, count)
}

fn many_rows(
    alloc: Global,
    bytes: &[u8],
    at: u32,
    count: u16,
) -> Result<(Items<BootRow>, u32), FileFault>
    requires { length bytes.now < 2 ^ 32 }
    ensures { Gives result (many_at (boot_at bytes.now) count [] at) }
{
    let mut rows = Vec::new(alloc);
    let mut next = at;
    for _left in 0..count {
        let (one, end) = row(alloc, bytes, next)?;
        rows.push(one)?;
        next = end;
    }
    Ok((Items::from_vec(rows), next))
}

/// Whether constants of the tag can be arguments of a bootstrap method.
fn is_argument(tag: u8) -> bool
    ensures { result ≡ is_argument_tag tag }
{
    matches!(tag, 3..=8 | 15..=17)
}

/// Checks the arguments of a row, the first of which stands at an offset.
fn check_arguments(entries: &[Entry], at: u32, args: &[u16]) -> Result<(), FileFault>
    requires { at + length (flat_map u2 args.now) < 2 ^ 32 }
    ensures { Gives result (each_checked u2 (argument_checked entries.now) at args.now) }
{
    let mut next = at;
    for index in args {
        if !is_argument(tag(entries, *index)) {
            return Err(FileFault::Index {
                at: next,
                index: *index,
            });
        }
        next += 2;
    }
    Ok(())
}

/// Checks a row at an offset.
#[tactic(auto, unfolding(crate::specs::Attributes::boot_checked))]
fn check_row(entries: &[Entry], at: u32, row: &BootRow) -> Result<(), FileFault>
    requires { at + length (spelled_boot row.now) < 2 ^ 32 }
    ensures { Gives result (boot_checked entries.now at row.now) }
{
    if tag(entries, row.method) != METHOD_HANDLE {
        return Err(FileFault::Index {
            at,
            index: row.method,
        });
    }
    check_arguments(entries, at + 4, row.args.as_slice())
}

/// How many bytes a row takes.
fn size(row: &BootRow) -> u32
    requires { length (spelled_boot row.now) < 2 ^ 32 }
    ensures { result ≡ length (spelled_boot row.now) }
{
    4 + 2 * row.args.len() as u32
}

/// Checks the rows, the first of which stands at an offset.
fn check_rows(entries: &[Entry], at: u32, rows: &[BootRow]) -> Result<(), FileFault>
    requires { at + length (flat_map spelled_boot rows.now) < 2 ^ 32 }
    ensures { Gives result (each_checked spelled_boot (boot_checked entries.now) at rows.now) }
{
    let mut next = at;
    for row in rows {
        check_row(entries, next, row)?;
        next += size(row);
    }
    Ok(())
}

/// What a `BootstrapMethods` attribute holds, which begins at an offset and ends where the window does.
#[tactic(auto, unfolding(crate::specs::Attributes::boots_at))]
pub fn read_boots(
    alloc: Global,
    entries: &[Entry],
    window: &[u8],
    at: u32,
) -> Result<RawBody, FileFault>
    requires { length window.now < 2 ^ 32 }
    ensures { Gives result (boots_at entries.now window.now at) }
{
    let (rows, end) = rows(alloc, window, at)?;
    if end as usize != window.len() {
        return Err(FileFault::Trailing { at: end });
    }
    check_rows(entries, at + 2, rows.as_slice())?;
    Ok(RawBody::Boot(rows))
}
