//! The transfer functions of a code.
ghost use Rattle.std.specs.Prelude.{◌≡◌, IfOk};
ghost use Rattle.fp_kinds.specs.Transfers.{transfers_of};

use crate::transfer::{Transfer, is_wrong};
use fp_flow::effect;
use fp_model::{Code, Sort};
use std::alloc::{AllocError, Global};

/// Those of a method with results of these words, made once: each is used at every visit.
#[tactic(auto, unfolding(crate::specs::Transfers::transfers_behind))]
pub(crate) fn transfers(
    alloc: Global,
    code: &Code,
    results: &[Sort],
) -> Result<Vec<Transfer>, AllocError>
    ensures { IfOk result (λ v. v.items ≡ transfers_of code.now results.now) }
{
    let instrs = code.instrs.len();
    let mut transfers = Vec::with_capacity(alloc, instrs)?;
    for (number, entry) in code.instrs.as_slice().iter().enumerate() {
        let wrong = is_wrong(alloc, instrs, number, results, &entry.1)?;
        transfers.push(Transfer {
            effect: effect(alloc, &entry.1)?,
            wrong,
        })?;
    }
    Ok(transfers)
}
