ghost use Rattle.std.specs.Prelude.{◌≡◌, ◌<◌, ◌^◌, length, IfOk};
ghost use Rattle.fp_facts.specs.Dataflow.{labels, solution};
ghost use Rattle.fp_flow.specs.Ascending.{IsAscending};

mod list;
mod starts;
mod visit;

use crate::dataflow::Dataflow;
use list::Worklist;
use starts::edge_starts;
use std::alloc::{AllocError, Global};
use visit::visit;

/// The least labels of a problem's nodes that are above the first ones and settled at every edge.
///
/// The edges ascend by the node that they start at.
pub fn solve<D: Dataflow>(
    alloc: Global,
    problem: &D,
    edges: &[(u32, u32, bool)],
    first: Vec<D::Label>,
) -> Result<Vec<D::Label>, AllocError>
    requires edges { edges.now ≡ (D.problem problem.now).edges }
    requires ascending { IsAscending edges.now }
    requires long { length first.items ≡ (D.problem problem.now).nodes }
    requires few { (D.problem problem.now).nodes < 2 ^ 32 }
    requires first { labels (D.problem problem.now) first.items ≡ (D.problem problem.now).first }
    ensures long { IfOk result (λ v. length v.items ≡ (D.problem problem.now).nodes) }
    ensures value { IfOk result (λ v. labels (D.problem problem.now) v.items ≡ solution (D.problem problem.now)) }
{
    let mut found = first;
    let count = found.len() as u32;
    let starts = edge_starts(alloc, edges, count)?;
    let mut work = Worklist::full(alloc, count)?;
    while let Some(node) = work.pop() {
        visit(alloc, problem, edges, &starts, node, &mut found, &mut work)?;
    }
    Ok(found)
}
