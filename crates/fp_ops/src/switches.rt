//! The operands of `tableswitch` and `lookupswitch` (JVMS SE 21 section 6.5).
ghost use Rattle.std.specs.Prelude.{◌≡◌, ◌^◌, ◌<◌, length};
ghost use Rattle.fp_model.specs.Reading.{Gives};
ghost use Rattle.fp_model.specs.Decoding as decoding;
ghost use Rattle.fp_model.specs.Decoding.{signed_rank};

use fp_model::FileFault;
use fp_model::reading::u32_at;

/// The most pairs that a `lookupswitch` may have.
const MAX_PAIRS: u32 = 0x7FFF_FFFF;

/// The place of a number of four bytes in the order of the signed values.
fn rank(number: u32) -> u32
    ensures { result ≡ signed_rank number }
{
    number.wrapping_add(0x8000_0000)
}

/// Where the operands of a `tableswitch` end.
#[tactic(auto, unfolding(fp_model::specs::Decoding::table_end))]
pub fn table_end(op_at: u32, bytes: &[u8], at: u32) -> Result<u32, FileFault>
    requires { length bytes.now < 2 ^ 32 }
    ensures { Gives result (decoding.table_end op_at bytes.now at) }
{
    let (_default, next) = u32_at(bytes, at)?;
    let (low, next) = u32_at(bytes, next)?;
    let (high, table) = u32_at(bytes, next)?;
    let (low, high) = (rank(low), rank(high));
    if low > high {
        return Err(FileFault::Bounds { at: op_at });
    }
    let end = table as u64 + 4 * ((high - low) as u64 + 1);
    if end > bytes.len() as u64 {
        return Err(FileFault::Bounds { at: op_at });
    }
    Ok(end as u32)
}

/// Where the operands of a `lookupswitch` end.
#[tactic(auto, unfolding(fp_model::specs::Decoding::lookup_end))]
pub fn lookup_end(op_at: u32, bytes: &[u8], at: u32) -> Result<u32, FileFault>
    requires { length bytes.now < 2 ^ 32 }
    ensures { Gives result (decoding.lookup_end op_at bytes.now at) }
{
    let (_default, next) = u32_at(bytes, at)?;
    let (count, pairs) = u32_at(bytes, next)?;
    if count > MAX_PAIRS {
        return Err(FileFault::Bounds { at: op_at });
    }
    if pairs as u64 + 8 * count as u64 > bytes.len() as u64 {
        return Err(FileFault::Bounds { at: op_at });
    }
    pairs_end(op_at, count, bytes, pairs)
}

/// Where so many pairs end, whose keys ascend.
fn pairs_end(op_at: u32, count: u32, bytes: &[u8], at: u32) -> Result<u32, FileFault>
    requires { length bytes.now < 2 ^ 32 }
    ensures { Gives result (decoding.pairs_end op_at count 0 bytes.now at) }
{
    let mut least = 0;
    let mut next = at;
    for _left in 0..count {
        let (higher, end) = pair(op_at, least, bytes, next)?;
        least = higher;
        next = end;
    }
    Ok(next)
}

/// The least rank that the next key may have, and the offset behind a pair whose key is at least of the given rank.
#[tactic(auto, unfolding(fp_model::specs::Decoding::pair_at))]
fn pair(op_at: u32, least: u64, bytes: &[u8], at: u32) -> Result<(u64, u32), FileFault>
    requires { length bytes.now < 2 ^ 32 }
    ensures { Gives result (decoding.pair_at op_at least bytes.now at) }
{
    let (key, next) = u32_at(bytes, at)?;
    let (_offset, end) = u32_at(bytes, next)?;
    let key = rank(key) as u64;
    if key < least {
        return Err(FileFault::Bounds { at: op_at });
    }
    Ok((key + 1, end))
}
