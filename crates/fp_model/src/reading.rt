ghost use Rattle.std.specs.Prelude.{◌≡◌, ◌+◌, ◌^◌, ◌<◌, ◌≤◌, ◌↔◌, [], length, IsTrue};
ghost use Rattle.std.specs.Int.{w8, w16, w32, w64};
ghost use Rattle.fp_model.specs.Reading as reading;
ghost use Rattle.fp_model.specs.Reading.{Gives, number_at, bytes_at, counted_at, many_at};

use crate::FileFault;
use sqlite_items::Items;
use std::alloc::Global;

/// Whether so many bytes lie whole in a file, from an offset on.
fn lies(bytes: &[u8], at: u32, count: u32) -> bool
    ensures { IsTrue result ↔ (at + count ≤ length bytes.now) }
{
    at as u64 + count as u64 <= bytes.len() as u64
}

/// The byte at an offset, and the offset after it.
#[tactic(auto, unfolding(crate::specs::Reading::number_at))]
pub fn u8_at(bytes: &[u8], at: u32) -> Result<(u8, u32), FileFault>
    requires { length bytes.now < 2 ^ 32 }
    ensures { Gives result (number_at w8 bytes.now at) }
{
    if !lies(bytes, at, 1) {
        return Err(FileFault::Truncated { at });
    }
    Ok((bytes[at as usize], at + 1))
}

/// The number of two bytes at an offset, and the offset after it.
#[tactic(auto, unfolding(crate::specs::Reading::number_at))]
pub fn u16_at(bytes: &[u8], at: u32) -> Result<(u16, u32), FileFault>
    requires { length bytes.now < 2 ^ 32 }
    ensures { Gives result (number_at w16 bytes.now at) }
{
    if !lies(bytes, at, 2) {
        return Err(FileFault::Truncated { at });
    }
    let i = at as usize;
    Ok((u16::from_be_bytes([bytes[i], bytes[i + 1]]), at + 2))
}

/// The number of four bytes at an offset, and the offset after it.
#[tactic(auto, unfolding(crate::specs::Reading::number_at))]
pub fn u32_at(bytes: &[u8], at: u32) -> Result<(u32, u32), FileFault>
    requires { length bytes.now < 2 ^ 32 }
    ensures { Gives result (number_at w32 bytes.now at) }
{
    if !lies(bytes, at, 4) {
        return Err(FileFault::Truncated { at });
    }
    let i = at as usize;
    let number = u32::from_be_bytes([bytes[i], bytes[i + 1], bytes[i + 2], bytes[i + 3]]);
    Ok((number, at + 4))
}

/// The number of eight bytes at an offset, and the offset after it.
#[tactic(auto, unfolding(crate::specs::Reading::number_at))]
pub fn u64_at(bytes: &[u8], at: u32) -> Result<(u64, u32), FileFault>
    requires { length bytes.now < 2 ^ 32 }
    ensures { Gives result (number_at w64 bytes.now at) }
{
    if !lies(bytes, at, 8) {
        return Err(FileFault::Truncated { at });
    }
    let i = at as usize;
    let number = u64::from_be_bytes([
        bytes[i],
        bytes[i + 1],
        bytes[i + 2],
        bytes[i + 3],
        bytes[i + 4],
        bytes[i + 5],
        bytes[i + 6],
        bytes[i + 7],
    ]);
    Ok((number, at + 8))
}

/// The offset behind so many bytes.
#[tactic(auto, unfolding(crate::specs::Reading::behind))]
pub fn behind(bytes: &[u8], at: u32, count: u32) -> Result<u32, FileFault>
    requires { length bytes.now < 2 ^ 32 }
    ensures { Gives result (reading.behind count bytes.now at) }
{
    if !lies(bytes, at, count) {
        return Err(FileFault::Truncated { at });
    }
    Ok(at + count)
}

/// How many numbers of two bytes there are at an offset, each of them, and the offset after them.
#[tactic(auto, unfolding(crate::specs::Reading::counted_at))]
pub fn u16s_at(alloc: Global, bytes: &[u8], at: u32) -> Result<(Items<u16>, u32), FileFault>
    requires { length bytes.now < 2 ^ 32 }
    ensures { Gives result (counted_at (number_at w16 bytes.now) bytes.now at) }
{
    let (count, next) = u16_at(bytes, at)?;
    many_u16s_at(alloc, bytes, next, count)
}

/// So many numbers of two bytes.
fn many_u16s_at(
    alloc: Global,
    bytes: &[u8],
    at: u32,
    count: u16,
) -> Result<(Items<u16>, u32), FileFault>
    requires { length bytes.now < 2 ^ 32 }
    ensures { Gives result (many_at (number_at w16 bytes.now) count [] at) }
{
    let mut numbers = Vec::new(alloc);
    let mut next = at;
    for _left in 0..count {
        let (number, end) = u16_at(bytes, next)?;
        numbers.push(number)?;
        next = end;
    }
    Ok((Items::from_vec(numbers), next))
}

/// A copy of so many bytes at an offset, and the offset after them.
#[tactic(auto, unfolding(crate::specs::Reading::bytes_at))]
pub fn run_at(
    alloc: Global,
    bytes: &[u8],
    at: u32,
    count: u32,
) -> Result<(Items<u8>, u32), FileFault>
    requires { length bytes.now < 2 ^ 32 }
    ensures { Gives result (bytes_at count bytes.now at) }
{
    if !lies(bytes, at, count) {
        return Err(FileFault::Truncated { at });
    }
    let start = at as usize;
    let copy = Items::from_slice(alloc, &bytes[start..start + count as usize])?;
    Ok((copy, at + count))
}
