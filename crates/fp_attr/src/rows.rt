//! The rows of an exception table: ranges of instructions (JVMS SE 21 section 4.7.3).
ghost use Rattle.std.specs.Prelude.{◌≡◌, ◌+◌, ◌^◌, ◌<◌, ℕ, List, length};
ghost use Rattle.std.specs.List.{flat_map};
ghost use Rattle.fp_model.specs.declared.raw.attribute.RawIns.{RawIns};
ghost use Rattle.fp_model.specs.Branches.{starts_at};
ghost use Rattle.fp_model.specs.Reading.{Gives};
ghost use Rattle.fp_model.specs.References.{each_checked};
ghost use Rattle.fp_model.specs.Spelling.{spelled_ins, spelled_row};
ghost use Rattle.fp_attr.specs.Codes as codes;
ghost use Rattle.fp_ops.specs.Marks.{is_marked};

use fp_model::look_up::{CLASS, tag};
use fp_model::{CatchRow, Entry, FileFault, RawIns};
use fp_ops::starts;
use std::alloc::Global;

/// How many bytes a row takes.
const ROW_SIZE: u32 = 8;

/// Whether an instruction begins at a place.
fn is_start(marks: &[bool], place: u16) -> bool
    ensures { result ≡ is_marked marks.now place }
{
    match marks.get(place as usize) {
        Some(mark) => *mark,
        None => false,
    }
}

/// Whether a row has a range of instructions of a code of so many bytes, and a handler that begins at one.
fn is_range(marks: &[bool], len: u32, row: CatchRow) -> bool
    ensures { (code : List RawIns) → ((place : ℕ) → is_marked marks.now place ≡ starts_at 0 code place)
        → result ≡ codes.is_range code len row }
{
    row.start < row.end
        && row.end as u32 <= len
        && is_start(marks, row.start)
        && is_start(marks, row.handler)
        && (row.end as u32 == len || is_start(marks, row.end))
}

/// Checks a row at an offset.
#[tactic(auto, unfolding(crate::specs::Codes::row_checked))]
fn check_row(
    entries: &[Entry],
    marks: &[bool],
    len: u32,
    at: u32,
    row: CatchRow,
) -> Result<(), FileFault>
    requires { at + 6 < 2 ^ 32 }
    ensures { (code : List RawIns) → ((place : ℕ) → is_marked marks.now place ≡ starts_at 0 code place)
        → Gives result (codes.row_checked entries.now code len at row) }
{
    if !is_range(marks, len, row) {
        return Err(FileFault::Bounds { at });
    }
    if row.class != 0 && tag(entries, row.class) != CLASS {
        return Err(FileFault::Index {
            at: at + 6,
            index: row.class,
        });
    }
    Ok(())
}

/// Checks the rows of a code of so many bytes, the first of which stands at an offset.
pub fn check_rows(
    alloc: Global,
    entries: &[Entry],
    code: &[RawIns],
    len: u32,
    at: u32,
    rows: &[CatchRow],
) -> Result<(), FileFault>
    requires code { length (flat_map spelled_ins code.now) < 2 ^ 32 }
    requires rows { at + length (flat_map spelled_row rows.now) < 2 ^ 32 }
    ensures { Gives result (each_checked spelled_row (codes.row_checked entries.now code.now len) at rows.now) }
{
    let marks = starts(alloc, code)?;
    check_each(entries, marks.as_slice(), len, at, rows)
}

fn check_each(
    entries: &[Entry],
    marks: &[bool],
    len: u32,
    at: u32,
    rows: &[CatchRow],
) -> Result<(), FileFault>
    requires { at + length (flat_map spelled_row rows.now) < 2 ^ 32 }
    ensures { (code : List RawIns) → ((place : ℕ) → is_marked marks.now place ≡ starts_at 0 code place)
        → Gives result (each_checked spelled_row (codes.row_checked entries.now code len) at rows.now) }
{
    let mut next = at;
    for row in rows {
        check_row(entries, marks, len, next, *row)?;
        next += ROW_SIZE;
    }
    Ok(())
}
