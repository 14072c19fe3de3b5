//! The parts of a `Code` attribute (JVMS SE 21 section 4.7.3).
ghost use Rattle.std.specs.Prelude.{◌≡◌, ◌+◌, ◌^◌, ◌<◌, ◌≤◌, [], length, IfOk};
ghost use Rattle.fp_model.specs.Reading.{Gives, counted_at, many_at};
ghost use Rattle.fp_attr.specs.Codes.{cut_at, inner_at, row_at};

use fp_model::reading::{behind, run_at, u16_at, u32_at};
use fp_model::{CatchRow, FileFault, RawAttr, RawBody};
use sqlite_items::Items;
use std::alloc::Global;

/// Where the bytes of a code lie, and what stands behind them. Each place is an offset in the file.
#[derive(Drop)]
pub struct Cut {
    /// In words.
    pub max_stack: u16,
    /// In words.
    pub max_locals: u16,
    /// Where the first instruction stands.
    pub start: u32,
    /// How many bytes the instructions take.
    pub len: u32,
    pub rows: Items<CatchRow>,
    /// Where the first row stands.
    pub rows_at: u32,
    pub attributes: Items<RawAttr>,
    /// Where the first attribute stands.
    pub attributes_at: u32,
}

/// A row of the exception table at an offset, and the offset after it.
#[tactic(auto, unfolding(crate::specs::Codes::row_at))]
fn row(bytes: &[u8], at: u32) -> Result<(CatchRow, u32), FileFault>
    requires { length bytes.now < 2 ^ 32 }
    ensures { Gives result (row_at bytes.now at) }
{
    let (start, next) = u16_at(bytes, at)?;
    let (end, next) = u16_at(bytes, next)?;
    let (handler, next) = u16_at(bytes, next)?;
    let (class, next) = u16_at(bytes, next)?;
    let row = CatchRow {
        start,
        end,
        handler,
        class,
    };
    Ok((row, next))
}

/// How many rows there are, and each of them.
#[tactic(auto, unfolding(fp_model::specs::Reading::counted_at))]
fn rows(alloc: Global, bytes: &[u8], at: u32) -> Result<(Items<CatchRow>, u32), FileFault>
    requires { length bytes.now < 2 ^ 32 }
    ensures { Gives result (counted_at (row_at bytes.now) bytes.now at) }
{
    let (count, next) = u16_at(bytes, at)?;
    many_rows(alloc, bytes, next, count)
}

fn many_rows(
    alloc: Global,
    bytes: &[u8],
    at: u32,
    count: u16,
) -> Result<(Items<CatchRow>, u32), FileFault>
    requires { length bytes.now < 2 ^ 32 }
    ensures { Gives result (many_at (row_at bytes.now) count [] at) }
{
    let mut rows = Vec::new(alloc);
    let mut next = at;
    for _left in 0..count {
        let (one, end) = row(bytes, next)?;
        rows.push(one)?;
        next = end;
    }
    Ok((Items::from_vec(rows), next))
}

/// An attribute of the code, which is kept unread, and the offset after it.
#[tactic(auto, unfolding(crate::specs::Codes::inner_at))]
fn inner(alloc: Global, bytes: &[u8], at: u32) -> Result<(RawAttr, u32), FileFault>
    requires { length bytes.now < 2 ^ 32 }
    ensures { Gives result (inner_at bytes.now at) }
{
    let (name, next) = u16_at(bytes, at)?;
    let (len, next) = u32_at(bytes, next)?;
    let (held, end) = run_at(alloc, bytes, next, len)?;
    let body = RawBody::Bytes(held);
    Ok((RawAttr { name, body }, end))
}

/// How many attributes of the code there are, and each of them.
#[tactic(auto, unfolding(fp_model::specs::Reading::counted_at))]
fn inners(alloc: Global, bytes: &[u8], at: u32) -> Result<(Items<RawAttr>, u32), FileFault>
    requires { length bytes.now < 2 ^ 32 }
    ensures { Gives result (counted_at (inner_at bytes.now) bytes.now at) }
{
    let (count, next) = u16_at(bytes, at)?;
    many_inners(alloc, bytes, next, count)
}

fn many_inners(
    alloc: Global,
    bytes: &[u8],
    at: u32,
    count: u16,
) -> Result<(Items<RawAttr>, u32), FileFault>
    requires { length bytes.now < 2 ^ 32 }
    ensures { Gives result (many_at (inner_at bytes.now) count [] at) }
{
    let mut attributes = Vec::new(alloc);
    let mut next = at;
    for _left in 0..count {
        let (attribute, end) = inner(alloc, bytes, next)?;
        attributes.push(attribute)?;
        next = end;
    }
    Ok((Items::from_vec(attributes), next))
}

/// Cuts what a `Code` attribute holds, which begins at an offset and ends where the window does.
#[tactic(auto, unfolding(crate::specs::Codes::cut_at), using(crate::proofs::Spelled::behind_found))]
pub fn cut_code(alloc: Global, window: &[u8], at: u32) -> Result<Cut, FileFault>
    requires { length window.now < 2 ^ 32 }
    ensures exact { Gives result (cut_at window.now at) }
    ensures lies { IfOk result (λ cut. cut.start + cut.len ≤ length window.now) }
{
    let (max_stack, next) = u16_at(window, at)?;
    let (max_locals, next) = u16_at(window, next)?;
    let (len, start) = u32_at(window, next)?;
    let end = behind(window, start, len)?;
    let (rows, next) = rows(alloc, window, end)?;
    let (attributes, last) = inners(alloc, window, next)?;
    if last as usize != window.len() {
        return Err(FileFault::Trailing { at: last });
    }
    Ok(Cut {
        max_stack,
        max_locals,
        start,
        len,
        rows,
        rows_at: end + 2,
        attributes,
        attributes_at: next + 2,
    })
}
