//! The layout of a class file (JVMS SE 21 section 4.1).
ghost use Rattle.std.specs.Prelude.{◌≡◌, ◌^◌, ◌<◌, length};
ghost use Rattle.fp_model.specs.Reading.{Gives};
ghost use Rattle.fp_attr.specs.Attributes.{attribute_skipped};
ghost use Rattle.fp_class.specs.Layout as layout;
ghost use Rattle.fp_class.specs.Layout.{counted_skipped, layout_of, many_skipped, member_skipped};

use fp_attr::skip_attr;
use fp_model::reading::{u16_at, u16s_at, u32_at};
use fp_model::{FileFault, Pool};
use fp_pool::cut_pool;
use sqlite_items::Items;
use std::alloc::Global;

/// What a class file begins with.
const MAGIC: u32 = 0xCAFE_BABE;

/// The parts of a class file up to its fields.
#[derive(Drop)]
pub struct Layout {
    pub minor: u16,
    pub major: u16,
    pub pool: Pool,
    /// The access flags.
    pub flags: u16,
    /// The constant pool index of this class.
    pub this: u16,
    /// The constant pool index of the superclass, or 0.
    pub parent: u16,
    /// The constant pool indexes of the direct superinterfaces.
    pub interfaces: Items<u16>,
    /// The offset of the access flags.
    pub flags_at: u32,
    /// The offset of the number of fields.
    pub fields_at: u32,
}

/// Passes over so many attributes.
fn skip_many_attributes(bytes: &[u8], at: u32, count: u16) -> Result<u32, FileFault>
    requires { length bytes.now < 2 ^ 32 }
    ensures { Gives result (many_skipped (attribute_skipped bytes.now) count at) }
{
    let mut next = at;
    for _left in 0..count {
        let end = skip_attr(bytes, next)?;
        next = end;
    }
    Ok(next)
}

/// Passes over attributes behind their number.
#[tactic(auto, unfolding(crate::specs::Layout::counted_skipped))]
fn skip_attributes(bytes: &[u8], at: u32) -> Result<u32, FileFault>
    requires { length bytes.now < 2 ^ 32 }
    ensures { Gives result (counted_skipped (attribute_skipped bytes.now) bytes.now at) }
{
    let (count, next) = u16_at(bytes, at)?;
    skip_many_attributes(bytes, next, count)
}

/// Passes over a field or a method.
#[tactic(auto, unfolding(crate::specs::Layout::member_skipped))]
fn skip_member(bytes: &[u8], at: u32) -> Result<u32, FileFault>
    requires { length bytes.now < 2 ^ 32 }
    ensures { Gives result (member_skipped bytes.now at) }
{
    let (_flags, next) = u16_at(bytes, at)?;
    let (_name, next) = u16_at(bytes, next)?;
    let (_descr, next) = u16_at(bytes, next)?;
    skip_attributes(bytes, next)
}

/// Passes over so many fields or methods.
fn skip_many_members(bytes: &[u8], at: u32, count: u16) -> Result<u32, FileFault>
    requires { length bytes.now < 2 ^ 32 }
    ensures { Gives result (many_skipped (member_skipped bytes.now) count at) }
{
    let mut next = at;
    for _left in 0..count {
        let end = skip_member(bytes, next)?;
        next = end;
    }
    Ok(next)
}

/// Passes over fields or methods behind their number.
#[tactic(auto, unfolding(crate::specs::Layout::counted_skipped))]
fn skip_members(bytes: &[u8], at: u32) -> Result<u32, FileFault>
    requires { length bytes.now < 2 ^ 32 }
    ensures { Gives result (counted_skipped (member_skipped bytes.now) bytes.now at) }
{
    let (count, next) = u16_at(bytes, at)?;
    skip_many_members(bytes, next, count)
}

/// Whether a class file version is read: 50 to 65, with minor 0.
fn is_version(major: u16, minor: u16) -> bool
    ensures { result ≡ layout.is_version major minor }
{
    50 <= major && major <= 65 && minor == 0
}

/// Cuts a file into its parts, attributes by their lengths alone.
#[tactic(auto, unfolding(crate::specs::Layout::layout_of))]
pub fn lay_out(alloc: Global, bytes: &[u8]) -> Result<Layout, FileFault>
    requires { length bytes.now < 2 ^ 32 }
    ensures { Gives result (layout_of bytes.now) }
{
    let (magic, next) = u32_at(bytes, 0)?;
    if magic != MAGIC {
        return Err(FileFault::Magic);
    }
    let (minor, next) = u16_at(bytes, next)?;
    let (major, next) = u16_at(bytes, next)?;
    if !is_version(major, minor) {
        return Err(FileFault::Version { major, minor });
    }
    let (pool, flags_at) = cut_pool(alloc, bytes, next)?;
    let (flags, next) = u16_at(bytes, flags_at)?;
    let (this, next) = u16_at(bytes, next)?;
    let (parent, next) = u16_at(bytes, next)?;
    let (interfaces, fields_at) = u16s_at(alloc, bytes, next)?;
    let methods_at = skip_members(bytes, fields_at)?;
    let attributes_at = skip_members(bytes, methods_at)?;
    let end = skip_attributes(bytes, attributes_at)?;
    if end as usize != bytes.len() {
        return Err(FileFault::Trailing { at: end });
    }
    Ok(Layout {
        minor,
        major,
        pool,
        flags,
        this,
        parent,
        interfaces,
        flags_at,
        fields_at,
    })
}
