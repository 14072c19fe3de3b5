//! The transfer function of each instruction.
ghost use Rattle.std.specs.Prelude.{◌≡◌, ◌<◌, ◌^◌, ◌+◌, length, IfOk};
ghost use Rattle.fp_facts.specs.Transfer as transfer;
ghost use Rattle.fp_facts.specs.declared.label.Label.TheVariants.{Unreached, Bad, Frame};

use crate::effect::label_of;
use crate::words::{has_unset, same_sorts};
use fp_facts::{Effect, Label};
use fp_flow::return_takes;
use fp_model::{Instr, Sort};
use sqlite_items::Items;
use std::alloc::{AllocError, Global};

/// What an instruction does to frames.
#[derive(Drop)]
pub struct Transfer {
    pub(crate) effect: Effect,
    /// Control goes on past the end of the code, or what is returned is not of the method's type.
    pub(crate) wrong: bool,
}

/// What is wrong with an instruction of a code of so many, whatever its frame is.
pub(crate) fn is_wrong(
    alloc: Global,
    instrs: usize,
    number: usize,
    results: &[Sort],
    instr: &Instr,
) -> Result<bool, AllocError>
    requires { number < instrs }
    ensures { IfOk result (λ wrong. wrong ≡ transfer.is_wrong instrs number results.now instr.now) }
{
    match instr {
        Instr::Return { op } => {
            let returned = return_takes(alloc, *op)?;
            Ok(!same_sorts(returned.as_slice(), results))
        }
        Instr::Goto { .. } | Instr::Switch { .. } | Instr::Throw => Ok(false),
        _ => Ok(!(number + 1 < instrs)),
    }
}

/// The label behind an instruction, by the label before it.
pub(crate) fn after(
    alloc: Global,
    most: u16,
    instr: &Transfer,
    before: &Label<Sort>,
) -> Result<Label<Sort>, AllocError>
    ensures { IfOk result (λ l. l ≡ transfer.after most instr.now.wrong instr.now.effect before.now) }
{
    match before {
        Label::Unreached => Ok(Label::Unreached),
        Label::Bad => Ok(Label::Bad),
        Label::Frame { locals, stack } => {
            if instr.wrong || stack.len() > most as usize || has_unset(stack.as_slice()) {
                return Ok(Label::Bad);
            }
            let behind = label_of(alloc, &instr.effect, locals.as_slice(), stack.as_slice())?;
            Ok(capped(most, behind))
        }
    }
}

/// A label, and `Bad` where its stack has more words than it may.
fn capped(most: u16, label: Label<Sort>) -> Label<Sort>
    ensures { result ≡ transfer.capped most label }
{
    match label {
        Label::Frame { locals, stack } => {
            if stack.len() <= most as usize {
                Label::Frame { locals, stack }
            } else {
                Label::Bad
            }
        }
        other => other,
    }
}

/// The label that an exception handler gets from an instruction, by those before and behind that.
pub(crate) fn to_handler(
    alloc: Global,
    before: &Label<Sort>,
    behind: &Label<Sort>,
) -> Result<Label<Sort>, AllocError>
    ensures { IfOk result (λ l. l ≡ transfer.to_handler before.now behind.now) }
{
    match (behind, before) {
        (Label::Unreached, _) => Ok(Label::Unreached),
        (Label::Bad, _) => Ok(Label::Bad),
        (_, Label::Unreached) => Ok(Label::Unreached),
        (_, Label::Bad) => Ok(Label::Bad),
        (_, Label::Frame { locals, .. }) => Ok(Label::Frame {
            locals: Items::from_slice(alloc, locals.as_slice())?,
            stack: Items::from_slice(alloc, &[Sort::Ref])?,
        }),
    }
}
