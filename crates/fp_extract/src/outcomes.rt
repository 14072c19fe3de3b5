//! What leaves a method: what it gives back, and what it raises.
ghost use Rattle.std.specs.Prelude.{◌≡◌, ◌++◌, length, IfOk, OnOk};
ghost use Rattle.fp_facts.specs.Behaviour.{returned_of, thrown_of};
ghost use Rattle.fp_facts.specs.Steps.{step_of, steps_of};

use crate::arguments::operand;
use fp_facts::OriginSet;
use fp_model::Instr;
use sqlite_items::Items;
use std::alloc::{AllocError, Global};

/// The opcode of `areturn`.
const RETURN_REFERENCE: u8 = 176;

/// The origins of what each `areturn` of a code gives back that control may come to, in the order of the code.
pub(crate) fn returned(
    alloc: Global,
    instrs: &[(u16, Instr)],
    frames: &[Option<Items<OriginSet>>],
) -> Result<Vec<OriginSet>, AllocError>
    requires { length instrs.now ≡ length frames.now }
    ensures { IfOk result (λ sets. sets.items ≡ returned_of (steps_of instrs.now frames.now)) }
{
    let mut sets = Vec::new(alloc);
    for at in 0..instrs.len() {
        let (pc, instr) = &instrs[at];
        push_returned(alloc, &mut sets, *pc, instr, &frames[at])?;
    }
    Ok(sets)
}

// Adds the origins of what an `areturn` gives back, where control may come to it.
fn push_returned(
    alloc: Global,
    sets: &mut Vec<OriginSet>,
    pc: u16,
    instr: &Instr,
    frame: &Option<Items<OriginSet>>,
) -> Result<(), AllocError>
    ensures { OnOk result (sets.new.items ≡ sets.old.items ++ returned_of (step_of (pc, instr.now) frame.now)) }
{
    let Some(words) = frame else {
        return Ok(());
    };
    if let Instr::Return { op } = instr {
        if *op == RETURN_REFERENCE {
            sets.push(operand(alloc, words.as_slice(), 1)?)?;
        }
    }
    Ok(())
}

/// The origins of what each `athrow` of a code raises that control may come to, in the order of the code.
pub(crate) fn thrown(
    alloc: Global,
    instrs: &[(u16, Instr)],
    frames: &[Option<Items<OriginSet>>],
) -> Result<Vec<OriginSet>, AllocError>
    requires { length instrs.now ≡ length frames.now }
    ensures { IfOk result (λ sets. sets.items ≡ thrown_of (steps_of instrs.now frames.now)) }
{
    let mut sets = Vec::new(alloc);
    for at in 0..instrs.len() {
        let (pc, instr) = &instrs[at];
        push_thrown(alloc, &mut sets, *pc, instr, &frames[at])?;
    }
    Ok(sets)
}

// Adds the origins of what an `athrow` raises, where control may come to it.
fn push_thrown(
    alloc: Global,
    sets: &mut Vec<OriginSet>,
    pc: u16,
    instr: &Instr,
    frame: &Option<Items<OriginSet>>,
) -> Result<(), AllocError>
    ensures { OnOk result (sets.new.items ≡ sets.old.items ++ thrown_of (step_of (pc, instr.now) frame.now)) }
{
    let Some(words) = frame else {
        return Ok(());
    };
    if let Instr::Throw = instr {
        sets.push(operand(alloc, words.as_slice(), 1)?)?;
    }
    Ok(())
}
