//! The targets of switches.
ghost use Rattle.std.specs.Prelude.{◌≡◌, ◌∷◌, [], ◌<◌, ◌≤◌, ◌+◌, ◌*◌, ◌^◌, IfOk};
ghost use Rattle.fp_model.specs.Form.{form_of};
ghost use Rattle.fp_model.specs.Branches.{far_target, far_targets, targets_of};
ghost use Rattle.fp_model.specs.Instructions as instructions;

use crate::branches::far;
use crate::plain::{constant_instr, fixed_instr, operand_instr, short};
use fp_model::{Entry, Instr, RawIns};
use sqlite_items::Items;
use std::alloc::{AllocError, Global};

/// The place of a default, and so many places whose distances stand from the offset 12 on, each so many bytes on; none
/// where one of them is no place in a code.
fn places(
    alloc: Global,
    pc: u32,
    step: usize,
    args: &[u8],
    count: usize,
) -> Result<Option<Items<u16>>, AllocError>
    requires short { 12 + step * count < 2 ^ 63 }
    requires positive { 4 ≤ step }
    ensures { IfOk result (λ to. to ≡ instructions.places_after [] (far_target pc args.now 0 ∷ far_targets pc step args.now count 12)) }
{
    let mut to = Vec::with_capacity(alloc, count.saturating_add(1))?;
    let Some(default) = short(far(pc, args, 0)) else {
        return Ok(None);
    };
    to.push(default)?;
    let mut at = 12;
    for _left in 0..count {
        let Some(place) = short(far(pc, args, at)) else {
            return Ok(None);
        };
        to.push(place)?;
        at += step;
    }
    Ok(Some(Items::from_vec(to)))
}

/// A switch at a place.
#[tactic(auto, unfolding(fp_model::specs::Instructions::switch_instr, fp_model::specs::Branches::targets_of, fp_model::specs::Form::form_of))]
pub fn switch_instr(alloc: Global, pc: u32, ins: &RawIns) -> Result<Option<Instr>, AllocError>
    ensures { IfOk result (λ i. i ≡ instructions.switch_instr pc ins.now) }
{
    let args = ins.args.as_slice();
    let to = match ins.op {
        170 => places(alloc, pc, 4, args, args.len().saturating_sub(12) / 4)?,
        171 => places(alloc, pc, 8, args, args.len().saturating_sub(8) / 8)?,
        _ => return Ok(None),
    };
    match to {
        Some(to) => Ok(Some(Instr::Switch { to })),
        None => Ok(None),
    }
}

/// The instruction at a place, where it takes no name from the constant pool.
pub fn plain_instr(
    alloc: Global,
    entries: &[Entry],
    pc: u32,
    ins: &RawIns,
) -> Result<Option<Instr>, AllocError>
    ensures { IfOk result (λ i. i ≡ instructions.plain_instr entries.now pc ins.now) }
{
    if let Some(instr) = fixed_instr(ins.op) {
        return Ok(Some(instr));
    }
    if let Some(instr) = operand_instr(pc, ins) {
        return Ok(Some(instr));
    }
    if let Some(instr) = constant_instr(entries, ins) {
        return Ok(Some(instr));
    }
    switch_instr(alloc, pc, ins)
}
