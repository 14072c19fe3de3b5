//! The flow of a group of origins through a code.
ghost use Rattle.std.specs.Prelude.{◌≡◌, ◌≤◌, Some, length, IfOk};
ghost use Rattle.fp_model.specs.SoundCode.{IsSoundMethod};
ghost use Rattle.fp_facts.specs.Edges.{edges_of};
ghost use Rattle.fp_facts.specs.Kinded.{IsKindedCode};
ghost use Rattle.fp_origin.specs.Groups.{AreGroupLabels};

mod arguments;
mod bits;
mod moves;
mod problem;
mod transfers;

use arguments::entry_words;
use bits::origin_bits;
use fp_facts::{Label, Origin};
use fp_flow::{Flow, entry_label, first_labels, instr_count, solve};
use fp_model::{Code, Method};
use problem::OriginsProblem;
use std::alloc::{AllocError, Global};
use transfers::transfers;

/// The label before each instruction, whose words tell by a bit for each origin of the group whether they may come from it.
pub(crate) fn group_labels(
    alloc: Global,
    code: &Code,
    flow: &Flow,
    method: &Method,
    group: &[Origin],
) -> Result<Vec<Label<u64>>, AllocError>
    requires sound { IsSoundMethod method.now }
    requires code { method.now.code ≡ Some code.now }
    requires kinded { IsKindedCode method.now code.now }
    requires flow { flow.now.edges ≡ edges_of code.now }
    requires few { length group.now ≤ 64 }
    ensures { IfOk result (λ v. AreGroupLabels method.now code.now group.now v.items) }
{
    let transfers = transfers(alloc, group, code)?;
    let arguments = entry_words(alloc, group, method, code.max_locals)?;
    let entry = entry_label(alloc, code, arguments.as_slice(), 0)?;
    let first = first_labels(alloc, entry, instr_count(code) as usize)?;
    let edges = flow.edges.as_slice();
    let problem = OriginsProblem {
        code,
        group,
        arguments: arguments.as_slice(),
        caught: origin_bits(group, Origin::Other),
        edges,
        transfers: transfers.as_slice(),
    };
    solve(alloc, &problem, edges, first)
}
