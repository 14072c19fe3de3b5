//! Numbers as bytes, the high byte first.
ghost use Rattle.std.specs.Prelude.{◌≡◌, ◌++◌, ◌%◌, ◌^◌, OnOk};
ghost use Rattle.fp_model.specs.Spelling as spelling;

use byteorder::{BigEndian, ByteOrder};
use std::alloc::AllocError;

pub fn put_u8(out: &mut Vec<u8>, number: u8) -> Result<(), AllocError>
    ensures { OnOk result (out.new.items ≡ out.old.items ++ spelling.u1 number) }
{
    out.push(number)?;
    Ok(())
}

pub fn put_u16(out: &mut Vec<u8>, number: u16) -> Result<(), AllocError>
    ensures { OnOk result (out.new.items ≡ out.old.items ++ spelling.u2 number) }
{
    let mut bytes = [0u8; 2];
    let all: &mut [u8] = &mut bytes;
    BigEndian::write_u16(all, number);
    out.extend_from_slice(all)
}

pub fn put_u32(out: &mut Vec<u8>, number: u32) -> Result<(), AllocError>
    ensures { OnOk result (out.new.items ≡ out.old.items ++ spelling.u4 number) }
{
    let mut bytes = [0u8; 4];
    let all: &mut [u8] = &mut bytes;
    BigEndian::write_u32(all, number);
    out.extend_from_slice(all)
}

pub fn put_u64(out: &mut Vec<u8>, number: u64) -> Result<(), AllocError>
    ensures { OnOk result (out.new.items ≡ out.old.items ++ spelling.u8 number) }
{
    let mut bytes = [0u8; 8];
    let all: &mut [u8] = &mut bytes;
    BigEndian::write_u64(all, number);
    out.extend_from_slice(all)
}

/// A count, by its two low bytes.
#[tactic(auto, using(crate::proofs::Low::u2_low))]
pub fn put_count(out: &mut Vec<u8>, count: usize) -> Result<(), AllocError>
    ensures { OnOk result (out.new.items ≡ out.old.items ++ spelling.u2 count) }
{
    put_u16(out, (count % 0x1_0000) as u16)
}

/// How many there are, and each of them.
pub fn put_u16s(out: &mut Vec<u8>, numbers: &[u16]) -> Result<(), AllocError>
    ensures { OnOk result (out.new.items ≡ out.old.items ++ spelling.counted spelling.u2 numbers.now) }
{
    put_count(out, numbers.len())?;
    for number in numbers {
        put_u16(out, *number)?;
    }
    Ok(())
}

/// The low four bytes of a count.
pub fn low(count: usize) -> u32
    ensures { result ≡ count % 2 ^ 32 }
{
    (count % 0x1_0000_0000) as u32
}
