//! The offsets of the instructions of a code, which ascend.
ghost use Rattle.std.specs.Prelude.{◌≡◌, ℕ, ◌<◌, ◌≤◌, nat_lt, true, length, slice_index, IfOk};
ghost use Rattle.fp_model.specs.SoundCode.{ascend_from_0, pcs_of};
ghost use Rattle.fp_facts.specs.Edges.{number_at};
ghost use Rattle.fp_flow.specs.EdgeCounts as defined;

use fp_model::Code;
use std::alloc::{AllocError, Global};

/// The offset of each instruction, in bytes.
pub fn offsets_of(alloc: Global, code: &Code) -> Result<Vec<u16>, AllocError>
    ensures { IfOk result (λ pcs. pcs.items ≡ pcs_of code.now) }
{
    let mut pcs = Vec::with_capacity(alloc, code.instrs.len())?;
    for (pc, _) in code.instrs.as_slice() {
        pcs.push(*pc)?;
    }
    Ok(pcs)
}

/// The number of the instruction at an offset; behind the last where none stands there.
pub fn number_of(pcs: &[u16], pc: u16) -> u32
    requires { ascend_from_0 pcs.now ≡ true }
    ensures { result ≡ number_at pcs.now pc }
{
    match pcs.binary_search(&pc) {
        Ok(at) => at as u32,
        Err(_) => pcs.len() as u32,
    }
}

/// How many instructions stand before an offset.
pub fn count_before(pcs: &[u16], pc: u16) -> usize
    requires { ascend_from_0 pcs.now ≡ true }
    ensures { result ≡ defined.count_before pcs.now pc }
{
    match pcs.binary_search(&pc) {
        Ok(at) => at,
        Err(at) => at,
    }
}
