//! Attributes (JVMS SE 21 section 4.7).
ghost use Rattle.std.specs.Prelude.{◌≡◌, ◌++◌, ◌%◌, ◌^◌, length, OnOk};
ghost use Rattle.fp_model.specs.Spelling.{body_bytes, counted, spelled_attr, spelled_boot, u4};

use crate::code::put_code;
use crate::numbers::{low, put_count, put_u16, put_u16s, put_u32};
use crate::unread::put_bytes;
use fp_model::{BootRow, RawAttr, RawBody};
use std::alloc::AllocError;

/// How many attributes there are, and each of them.
pub fn put_attributes(out: &mut Vec<u8>, attributes: &[RawAttr]) -> Result<(), AllocError>
    ensures { OnOk result (out.new.items ≡ out.old.items ++ counted spelled_attr attributes.now) }
{
    put_count(out, attributes.len())?;
    for attribute in attributes {
        put_attribute(out, attribute)?;
    }
    Ok(())
}

fn put_attribute(out: &mut Vec<u8>, attribute: &RawAttr) -> Result<(), AllocError>
    ensures { OnOk result (out.new.items ≡ out.old.items ++ spelled_attr attribute.now) }
{
    put_u16(out, attribute.name)?;
    put_body(out, &attribute.body)
}

/// What an attribute holds, behind its length.
fn put_body(out: &mut Vec<u8>, body: &RawBody) -> Result<(), AllocError>
    ensures { OnOk result
        (out.new.items ≡ out.old.items ++ (u4 (length (body_bytes body.now)) ++ body_bytes body.now)) }
{
    match body {
        RawBody::Bytes(bytes) => put_bytes(out, bytes.as_slice()),
        RawBody::Code(code) => put_code(out, code),
        RawBody::Boot(rows) => put_boot(out, rows.as_slice()),
        RawBody::Constant(index) => {
            put_u32(out, 2)?;
            put_u16(out, *index)
        }
    }
}

/// The rows of `BootstrapMethods`, behind their length (section 4.7.23).
#[tactic(auto, using(crate::proofs::Low::u4_low))]
fn put_boot(out: &mut Vec<u8>, rows: &[BootRow]) -> Result<(), AllocError>
    ensures { OnOk result
        (out.new.items ≡ out.old.items ++ (u4 (length (counted spelled_boot rows.now)) ++ counted spelled_boot rows.now)) }
{
    put_u32(out, size_of_boot_rows(rows))?;
    put_boot_rows(out, rows)
}

/// How many rows there are, and each of them.
fn put_boot_rows(out: &mut Vec<u8>, rows: &[BootRow]) -> Result<(), AllocError>
    ensures { OnOk result (out.new.items ≡ out.old.items ++ counted spelled_boot rows.now) }
{
    put_count(out, rows.len())?;
    for row in rows {
        put_boot_row(out, row)?;
    }
    Ok(())
}

fn put_boot_row(out: &mut Vec<u8>, row: &BootRow) -> Result<(), AllocError>
    ensures { OnOk result (out.new.items ≡ out.old.items ++ spelled_boot row.now) }
{
    put_u16(out, row.method)?;
    put_u16s(out, row.args.as_slice())
}

fn size_of_boot_rows(rows: &[BootRow]) -> u32
    ensures { result ≡ length (counted spelled_boot rows.now) % 2 ^ 32 }
{
    let mut total = 2u32;
    for row in rows {
        total = total.wrapping_add(size_of_boot_row(row));
    }
    total
}

#[tactic(auto, using(crate::proofs::Sizes::u2s_size))]
fn size_of_boot_row(row: &BootRow) -> u32
    ensures { result ≡ length (spelled_boot row.now) % 2 ^ 32 }
{
    4u32.wrapping_add(low(row.args.len()).wrapping_mul(2))
}
