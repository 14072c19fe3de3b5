//! Fields and methods (JVMS SE 21 sections 4.5 and 4.6).
ghost use Rattle.std.specs.Prelude.{◌≡◌, ◌++◌, OnOk};
ghost use Rattle.fp_model.specs.Spelling.{counted, spelled_member};

use crate::attributes::put_attributes;
use crate::numbers::{put_count, put_u16};
use fp_model::RawMember;
use std::alloc::AllocError;

/// How many members there are, and each of them.
pub fn put_members(out: &mut Vec<u8>, members: &[RawMember]) -> Result<(), AllocError>
    ensures { OnOk result (out.new.items ≡ out.old.items ++ counted spelled_member members.now) }
{
    put_count(out, members.len())?;
    for member in members {
        put_member(out, member)?;
    }
    Ok(())
}

fn put_member(out: &mut Vec<u8>, member: &RawMember) -> Result<(), AllocError>
    ensures { OnOk result (out.new.items ≡ out.old.items ++ spelled_member member.now) }
{
    put_u16(out, member.flags)?;
    put_u16(out, member.name)?;
    put_u16(out, member.descr)?;
    put_attributes(out, member.attributes.as_slice())
}
