//! The constant pool as it is cut into entries, whatever these refer to.
ghost use Rattle.std.specs.Prelude.{◌≡◌, ◌^◌, ◌-◌, ◌<◌, [], length, true, IfOk, IsTrue};
ghost use Rattle.fp_model.specs.Pool as format;
ghost use Rattle.fp_model.specs.Reading.{Gives, Takes};
ghost use Rattle.fp_model.specs.Spelling.{spelled_pool};
ghost use Rattle.fp_pool.specs.Form.{has_form};

use crate::entry::tagged_entry;
use fp_model::reading::{u8_at, u16_at};
use fp_model::{Entry, FileFault, Pool};
use sqlite_items::Items;
use std::alloc::Global;

/// The constant pool at an offset, and the offset after it. What its entries refer to is not looked at.
///
/// The first fault in the order of the file is `Truncated` where a number or a text doesn't lie whole in the bytes,
/// `Tag` where a tag is none of the format's, `Index` at the tag of a `Long` or `Double` at the last index, and
/// `Bounds` where the pool's count is 0.
pub fn cut_pool(alloc: Global, bytes: &[u8], at: u32) -> Result<(Pool, u32), FileFault>
    requires { length bytes.now < 2 ^ 32 }
    // Which fault it is.
    ensures exact { Gives result (format.pool_at bytes.now at) }
    // What is read is spelled there.
    ensures spelled { IfOk result (λ x. Takes bytes.now at (spelled_pool x.0) x.1) }
    ensures formed { IfOk result (λ x. IsTrue (has_form x.0)) }
{
    pool(alloc, bytes, at)
}

#[tactic(auto, unfolding(fp_model::specs::Pool::pool_at))]
fn pool(alloc: Global, bytes: &[u8], at: u32) -> Result<(Pool, u32), FileFault>
    requires { length bytes.now < 2 ^ 32 }
    ensures { Gives result (format.pool_at bytes.now at) }
{
    let (count, next) = u16_at(bytes, at)?;
    if count == 0 {
        return Err(FileFault::Bounds { at });
    }
    let (entries, end) = slots(alloc, bytes, next, count)?;
    Ok((Pool { entries }, end))
}

/// What so many indexes hold.
fn slots(alloc: Global, bytes: &[u8], at: u32, count: u16) -> Result<(Items<Entry>, u32), FileFault>
    requires short { length bytes.now < 2 ^ 32 }
    requires some { 0 < count }
    ensures { Gives result (format.slots_at (count - 1) count [] true bytes.now at) }
{
    let last = count - 1;
    let mut entries = Vec::new(alloc);
    let mut empty = true;
    let mut next = at;
    for index in 0..count {
        let (entry, end) = slot(alloc, bytes, next, last, last - index, empty)?;
        empty = is_wide(&entry);
        entries.push(entry)?;
        next = end;
    }
    Ok((Items::from_vec(entries), next))
}

/// What an index holds, behind which so many are left up to the last.
#[tactic(auto, unfolding(fp_model::specs::Pool::slot_at))]
fn slot(
    alloc: Global,
    bytes: &[u8],
    at: u32,
    last: u16,
    left: u16,
    empty: bool,
) -> Result<(Entry, u32), FileFault>
    requires { length bytes.now < 2 ^ 32 }
    ensures { Gives result (format.slot_at last left empty bytes.now at) }
{
    if empty {
        return Ok((Entry::Unused, at));
    }
    let (tag, next) = u8_at(bytes, at)?;
    if is_wide_tag(tag) && left == 0 {
        return Err(FileFault::Index { at, index: last });
    }
    tagged_entry(alloc, bytes, at, tag, next)
}

/// Whether an entry of the tag takes two indexes.
fn is_wide_tag(tag: u8) -> bool
    ensures { result ≡ format.is_wide_tag tag }
{
    tag == 5 || tag == 6
}

/// Whether an entry takes two indexes.
fn is_wide(entry: &Entry) -> bool
    ensures { result ≡ format.is_wide entry.now }
{
    matches!(entry, Entry::Long(_) | Entry::Double(_))
}
