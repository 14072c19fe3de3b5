//! Attributes that are kept unread, as all those inside a code are.
ghost use Rattle.std.specs.Prelude.{◌≡◌, ◌++◌, ◌%◌, ◌^◌, length, OnOk};
ghost use Rattle.std.specs.List.{flat_map};
ghost use Rattle.fp_model.specs.Spelling.{counted, plain_bytes, spelled_plain, u4};

use crate::numbers::{low, put_count, put_u16, put_u32};
use fp_model::{RawAttr, RawBody};
use std::alloc::AllocError;

/// Bytes, behind their number.
#[tactic(auto, using(crate::proofs::Low::u4_low))]
pub fn put_bytes(out: &mut Vec<u8>, bytes: &[u8]) -> Result<(), AllocError>
    ensures { OnOk result (out.new.items ≡ out.old.items ++ (u4 (length bytes.now) ++ bytes.now)) }
{
    put_u32(out, low(bytes.len()))?;
    out.extend_from_slice(bytes)
}

/// How many bytes the attributes inside a code take, without their count, by the four low bytes of the number.
pub fn size_of_inner_attributes(attributes: &[RawAttr]) -> u32
    ensures { result ≡ length (flat_map spelled_plain attributes.now) % 2 ^ 32 }
{
    let mut total = 0u32;
    for attribute in attributes {
        total = total
            .wrapping_add(6)
            .wrapping_add(low(unread(&attribute.body).len()));
    }
    total
}

/// How many attributes there are inside a code, and each of them.
pub fn put_inner_attributes(out: &mut Vec<u8>, attributes: &[RawAttr]) -> Result<(), AllocError>
    ensures { OnOk result (out.new.items ≡ out.old.items ++ counted spelled_plain attributes.now) }
{
    put_count(out, attributes.len())?;
    for attribute in attributes {
        put_inner_attribute(out, attribute)?;
    }
    Ok(())
}

fn put_inner_attribute(out: &mut Vec<u8>, attribute: &RawAttr) -> Result<(), AllocError>
    ensures { OnOk result (out.new.items ≡ out.old.items ++ spelled_plain attribute.now) }
{
    put_u16(out, attribute.name)?;
    put_bytes(out, unread(&attribute.body))
}

/// What an attribute holds that is kept unread, and nothing of another.
fn unread(body: &RawBody) -> &[u8]
    ensures { result.now ≡ plain_bytes body.now }
{
    match body {
        RawBody::Bytes(bytes) => bytes.as_slice(),
        _ => &[],
    }
}
