//! The whole of a class file.
ghost use Rattle.std.specs.Prelude.{◌≡◌, IfOk};
ghost use Rattle.fp_model.specs.Spelling.{spelled};

use crate::attributes::put_attributes;
use crate::members::put_members;
use crate::numbers::{put_u16, put_u16s, put_u32};
use crate::pool::put_pool;
use fp_model::Raw;
use std::alloc::{AllocError, Global};

const MAGIC: u32 = 0xCAFE_BABE;

/// The bytes of a class file (JVMS SE 21 section 4.1).
///
/// Any parts are spelled, also those of no class file: a count is written by its two low bytes and a length by its four,
/// and an attribute inside a code is written as empty if it isn't kept unread. The only error is want of memory.
pub fn spell(alloc: Global, raw: &Raw) -> Result<Vec<u8>, AllocError>
    ensures { IfOk result (λ bytes. bytes.items ≡ spelled raw.now) }
{
    let mut out = Vec::new(alloc);
    put_u32(&mut out, MAGIC)?;
    put_u16(&mut out, raw.minor)?;
    put_u16(&mut out, raw.major)?;
    put_pool(&mut out, &raw.pool)?;
    put_u16(&mut out, raw.flags)?;
    put_u16(&mut out, raw.this)?;
    put_u16(&mut out, raw.parent)?;
    put_u16s(&mut out, raw.interfaces.as_slice())?;
    put_members(&mut out, raw.fields.as_slice())?;
    put_members(&mut out, raw.methods.as_slice())?;
    put_attributes(&mut out, raw.attributes.as_slice())?;
    Ok(out)
}
