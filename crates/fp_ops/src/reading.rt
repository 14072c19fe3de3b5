//! Instructions, one after the other.
ghost use Rattle.std.specs.Prelude.{◌≡◌, ◌^◌, ◌<◌, ◌≤◌, ◌+◌, [], IfOk, length, take, drop};
ghost use Rattle.std.specs.List.{flat_map};
ghost use Rattle.fp_model.specs.Reading.{Gives};
ghost use Rattle.fp_model.specs.Spelling.{spelled_ins};
ghost use Rattle.fp_model.specs.Decoding.{all_at, decoded, ins_at, plain_at, padding_len, widened_at};

use crate::forms::operands_of;
use crate::operands::{operands_end, wide_end};
use fp_model::opcode::WIDE;
use fp_model::reading::{run_at, u8_at};
use fp_model::{Entry, FileFault, Form, Pool, RawIns};
use sqlite_items::Items;
use std::alloc::Global;

/// How many bytes stand before the operands of a switch, so that these begin at a multiple of four bytes from `start`.
fn padding(start: u32, op_at: u32, form: Form) -> u32
    ensures { result ≡ padding_len start op_at form }
{
    match form {
        Form::TableSwitch | Form::LookupSwitch => 3 - op_at.saturating_sub(start) % 4,
        _ => 0,
    }
}

/// An instruction by its opcode at `op_at` and its form.
#[tactic(auto, unfolding(fp_model::specs::Decoding::plain_at))]
fn plain(
    alloc: Global,
    entries: &[Entry],
    max_locals: u16,
    start: u32,
    op_at: u32,
    op: u8,
    form: Form,
    bytes: &[u8],
    at: u32,
) -> Result<(RawIns, u32), FileFault>
    requires { length bytes.now < 2 ^ 32 }
    ensures { Gives result (plain_at entries.now max_locals start op_at op form bytes.now at) }
{
    let count = padding(start, op_at, form);
    let first = at.saturating_add(count);
    let end = operands_end(entries, max_locals, op_at, op, form, bytes, first)?;
    let (padding, next) = run_at(alloc, bytes, at, count)?;
    let (args, end) = run_at(alloc, bytes, next, end.saturating_sub(next))?;
    let ins = RawIns {
        op,
        wide: false,
        padding,
        args,
    };
    Ok((ins, end))
}

/// An instruction behind the `wide` at `wide_at`.
#[tactic(auto, unfolding(fp_model::specs::Decoding::widened_at))]
fn widened(
    alloc: Global,
    max_locals: u16,
    wide_at: u32,
    bytes: &[u8],
    at: u32,
) -> Result<(RawIns, u32), FileFault>
    requires { length bytes.now < 2 ^ 32 }
    ensures { Gives result (widened_at max_locals wide_at bytes.now at) }
{
    let (op, next) = u8_at(bytes, at)?;
    let end = wide_end(max_locals, wide_at, at, op, operands_of(op), bytes, next)?;
    let (args, end) = run_at(alloc, bytes, next, end.saturating_sub(next))?;
    let ins = RawIns {
        op,
        wide: true,
        padding: Items::new(alloc),
        args,
    };
    Ok((ins, end))
}

/// An instruction of a code that begins at `start`.
#[tactic(auto, unfolding(fp_model::specs::Decoding::ins_at))]
fn instruction(
    alloc: Global,
    entries: &[Entry],
    max_locals: u16,
    start: u32,
    bytes: &[u8],
    at: u32,
) -> Result<(RawIns, u32), FileFault>
    requires { length bytes.now < 2 ^ 32 }
    ensures { Gives result (ins_at entries.now max_locals start bytes.now at) }
{
    let (op, next) = u8_at(bytes, at)?;
    if op == WIDE {
        return widened(alloc, max_locals, at, bytes, next);
    }
    let form = operands_of(op);
    plain(alloc, entries, max_locals, start, at, op, form, bytes, next)
}

/// The instructions of a code that begins at `start` and ends where the bytes do, of which there are at most so many.
fn instructions(
    alloc: Global,
    entries: &[Entry],
    max_locals: u16,
    start: u32,
    bytes: &[u8],
    most: u32,
) -> Result<Items<RawIns>, FileFault>
    requires { length bytes.now < 2 ^ 32 }
    ensures { Gives result (all_at (ins_at entries.now max_locals start bytes.now) bytes.now most [] start) }
{
    let mut code = Vec::new(alloc);
    let mut next = start;
    for _left in 0..most {
        if next as usize >= bytes.len() {
            return Ok(Items::from_vec(code));
        }
        let (ins, end) = instruction(alloc, entries, max_locals, start, bytes, next)?;
        code.push(ins)?;
        next = end;
    }
    Ok(Items::from_vec(code))
}

/// Decodes the `len` bytes of code at an offset of a file (JVMS SE 21 section 4.9.1).
///
/// The file has fewer than 2^32 bytes, and the code lies in it. A fault is the first one in the order of the code, and is
/// told by its offset in the file: `Opcode` and `Subroutine` at the opcode, `Truncated` at an operand, and then what the
/// instruction asks for, `Bounds` at its opcode or `Index` at the index. `Memory` says nothing of the code. Where branches
/// lead is not looked at.
pub fn decode(
    alloc: Global,
    bytes: &[u8],
    at: u32,
    len: u32,
    pool: &Pool,
    max_locals: u16,
) -> Result<Items<RawIns>, FileFault>
    requires file { length bytes.now < 2 ^ 32 }
    requires range { at + len ≤ length bytes.now }
    // The instructions that the bytes spell, or the first fault.
    ensures exact { Gives result (decoded pool.now.entries max_locals len bytes.now at) }
    // What is decoded is spelled there.
    ensures spelled { IfOk result (λ code. flat_map spelled_ins code ≡ take len (drop at bytes.now)) }
{
    let window = &bytes[..at as usize + len as usize];
    instructions(alloc, pool.entries.as_slice(), max_locals, at, window, len)
}
