//! `Code` attributes (JVMS SE 21 section 4.7.3).
ghost use Rattle.std.specs.Prelude.{◌≡◌, ◌++◌, ◌%◌, ◌^◌, length, OnOk};
ghost use Rattle.std.specs.List.{flat_map};
ghost use Rattle.fp_model.specs.Spelling.{code_bytes, counted, spelled_ins, spelled_row, u4};
ghost use Rattle.fp_model.specs.declared.raw.attribute.RawCode.{out-RawCode};

use crate::numbers::{low, put_count, put_u8, put_u16, put_u32};
use crate::unread::{put_inner_attributes, size_of_inner_attributes};
use fp_model::opcode::WIDE;
use fp_model::{CatchRow, RawCode, RawIns};
use std::alloc::AllocError;

/// What a `Code` attribute holds, behind its length (section 4.7.3).
pub fn put_code(out: &mut Vec<u8>, code: &RawCode) -> Result<(), AllocError>
    ensures { OnOk result
        (out.new.items ≡ out.old.items ++ (u4 (length (code_bytes code.now)) ++ code_bytes code.now)) }
{
    let instructions = size_of_instructions(code.code.as_slice());
    put_u32(out, size_of_code(code, instructions))?;
    put_parts_of_code(out, code, instructions)
}

/// What a `Code` attribute holds whose instructions take so many bytes, by the four low bytes of the number.
#[tactic(auto, using(crate::proofs::Low::u4_low))]
fn put_parts_of_code(out: &mut Vec<u8>, code: &RawCode, instructions: u32) -> Result<(), AllocError>
    requires { instructions ≡ length (flat_map spelled_ins (out-RawCode code.now).code) % 2 ^ 32 }
    ensures { OnOk result (out.new.items ≡ out.old.items ++ code_bytes code.now) }
{
    put_u16(out, code.max_stack)?;
    put_u16(out, code.max_locals)?;
    put_u32(out, instructions)?;
    put_instructions(out, code.code.as_slice())?;
    put_rows(out, code.rows.as_slice())?;
    put_inner_attributes(out, code.attributes.as_slice())
}

/// How many bytes a `Code` attribute holds whose instructions take so many, by the four low bytes of both numbers.
fn size_of_code(code: &RawCode, instructions: u32) -> u32
    requires { instructions ≡ length (flat_map spelled_ins (out-RawCode code.now).code) % 2 ^ 32 }
    ensures { result ≡ length (code_bytes code.now) % 2 ^ 32 }
{
    10u32
        .wrapping_add(instructions)
        .wrapping_add(size_of_rows(code.rows.as_slice()))
        .wrapping_add(size_of_inner_attributes(code.attributes.as_slice()))
}

/// How many bytes instructions take, by the four low bytes of the number.
fn size_of_instructions(code: &[RawIns]) -> u32
    ensures { result ≡ length (flat_map spelled_ins code.now) % 2 ^ 32 }
{
    let mut total = 0u32;
    for ins in code {
        total = total.wrapping_add(size_of_instruction(ins));
    }
    total
}

fn size_of_instruction(ins: &RawIns) -> u32
    ensures { result ≡ length (spelled_ins ins.now) % 2 ^ 32 }
{
    let opcodes = if ins.wide { 2u32 } else { 1 };
    opcodes
        .wrapping_add(low(ins.padding.len()))
        .wrapping_add(low(ins.args.len()))
}

fn put_instructions(out: &mut Vec<u8>, code: &[RawIns]) -> Result<(), AllocError>
    ensures { OnOk result (out.new.items ≡ out.old.items ++ flat_map spelled_ins code.now) }
{
    for ins in code {
        put_instruction(out, ins)?;
    }
    Ok(())
}

fn put_instruction(out: &mut Vec<u8>, ins: &RawIns) -> Result<(), AllocError>
    ensures { OnOk result (out.new.items ≡ out.old.items ++ spelled_ins ins.now) }
{
    if ins.wide {
        put_u8(out, WIDE)?;
    }
    put_u8(out, ins.op)?;
    out.extend_from_slice(ins.padding.as_slice())?;
    out.extend_from_slice(ins.args.as_slice())
}

/// How many bytes the exception table takes, by the four low bytes of the number.
#[tactic(auto, using(crate::proofs::Sizes::rows_size))]
fn size_of_rows(rows: &[CatchRow]) -> u32
    ensures { result ≡ length (counted spelled_row rows.now) % 2 ^ 32 }
{
    2u32.wrapping_add(low(rows.len()).wrapping_mul(8))
}

/// How many rows the exception table has, and each of them.
fn put_rows(out: &mut Vec<u8>, rows: &[CatchRow]) -> Result<(), AllocError>
    ensures { OnOk result (out.new.items ≡ out.old.items ++ counted spelled_row rows.now) }
{
    put_count(out, rows.len())?;
    for row in rows {
        put_row(out, row)?;
    }
    Ok(())
}

fn put_row(out: &mut Vec<u8>, row: &CatchRow) -> Result<(), AllocError>
    ensures { OnOk result (out.new.items ≡ out.old.items ++ spelled_row row.now) }
{
    put_u16(out, row.start)?;
    put_u16(out, row.end)?;
    put_u16(out, row.handler)?;
    put_u16(out, row.class)
}
