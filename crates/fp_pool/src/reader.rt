ghost use Rattle.std.specs.Prelude.{◌≡◌, ◌^◌, ◌<◌, length, IfOk, IsTrue};
ghost use Rattle.fp_model.specs.Reading.{Gives, Takes};
ghost use Rattle.fp_model.specs.References.{checked_pool_at};
ghost use Rattle.fp_model.specs.Spelling.{spelled_pool};
ghost use Rattle.fp_pool.specs.Form.{has_form};

use crate::cut::cut_pool;
use crate::references::check_references;
use fp_model::{FileFault, Pool};
use std::alloc::Global;

/// The constant pool at an offset, whose entries refer to what they have to, and the offset after it.
///
/// The faults of `cut_pool` come before those of `check_references`.
#[tactic(auto, unfolding(fp_model::specs::References::checked_pool_at))]
pub fn read_pool(alloc: Global, bytes: &[u8], at: u32) -> Result<(Pool, u32), FileFault>
    requires { length bytes.now < 2 ^ 32 }
    // Which fault it is.
    ensures exact { Gives result (checked_pool_at bytes.now at) }
    // What is read is spelled there.
    ensures spelled { IfOk result (λ x. Takes bytes.now at (spelled_pool x.0) x.1) }
    ensures formed { IfOk result (λ x. IsTrue (has_form x.0)) }
{
    let (pool, end) = cut_pool(alloc, bytes, at)?;
    check_references(alloc, pool.entries.as_slice(), at + 2)?;
    Ok((pool, end))
}
