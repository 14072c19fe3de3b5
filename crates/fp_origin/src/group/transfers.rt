//! What the instructions of a code do to the words of frames.
ghost use Rattle.std.specs.Prelude.{◌≡◌, ◌≤◌, length, map, IfOk};
ghost use Rattle.fp_origin.specs.Groups.{transfer_of};

use super::bits::made_bits;
use fp_facts::{Effect, Origin};
use fp_flow::effect;
use fp_model::{Code, Instr};
use sqlite_items::Items;
use std::alloc::{AllocError, Global};

/// What an instruction does to the words of a frame.
#[derive(Drop)]
pub struct Transfer {
    /// How it moves them.
    pub(crate) effect: Effect,
    /// The words that it makes anew.
    pub(crate) made: Items<u64>,
}

/// That of an instruction at an offset.
fn transfer_at(
    alloc: Global,
    group: &[Origin],
    pc: u16,
    instr: &Instr,
) -> Result<Transfer, AllocError>
    requires { length group.now ≤ 64 }
    ensures { IfOk result (λ t. t ≡ transfer_of group.now (pc, instr.now)) }
{
    let effect = effect(alloc, instr)?;
    let made = made_bits(alloc, group, pc, instr, &effect)?;
    Ok(Transfer { effect, made })
}

/// Those of a code, made once: each is used at every visit.
pub(crate) fn transfers(
    alloc: Global,
    group: &[Origin],
    code: &Code,
) -> Result<Vec<Transfer>, AllocError>
    requires { length group.now ≤ 64 }
    ensures { IfOk result (λ v. v.items ≡ map (transfer_of group.now) code.now.instrs) }
{
    let mut transfers = Vec::with_capacity(alloc, code.instrs.len())?;
    for entry in code.instrs.as_slice() {
        transfers.push(transfer_at(alloc, group, entry.0, &entry.1)?)?;
    }
    Ok(transfers)
}
