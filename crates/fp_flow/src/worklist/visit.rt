ghost use Rattle.std.specs.Prelude.{◌≡◌, ◌≤◌, ◌<◌, ◌+◌, ℕ, IfOk, IsTrue, OnOk, false, length, slice_index};
ghost use Rattle.fp_facts.specs.Dataflow.{labels};
ghost use Rattle.fp_flow.specs.Sent.{IsSent};
ghost use Rattle.fp_flow.specs.Waiting.{is_listed};
ghost use Rattle.fp_flow.specs.Working.{IsFollowed, IsIndexed, IsWorking, work_left};

use crate::dataflow::Dataflow;
use crate::worklist::list::Worklist;
use std::alloc::{AllocError, Global};

/// Follows each edge that starts at a node, and puts the nodes whose labels change on the list. It ends early where the node's own
/// label changes, since the node is on the list then.
///
/// The edges of node `n` are those from `starts[n]` on, up to `starts[n + 1]`.
pub fn visit<D: Dataflow>(
    alloc: Global,
    problem: &D,
    edges: &[(u32, u32, bool)],
    starts: &[usize],
    node: u32,
    found: &mut Vec<D::Label>,
    work: &mut Worklist,
) -> Result<(), AllocError>
    requires edges { edges.now ≡ (D.problem problem.now).edges }
    requires indexed { IsIndexed edges.now (D.problem problem.now).nodes starts.now }
    requires node { node < (D.problem problem.now).nodes }
    requires count { length work.old.waiting.items ≡ (D.problem problem.now).nodes }
    requires working { IsWorking (D.problem problem.now) found.old.items work.old.nodes.items node (slice_index starts.now node) }
    ensures count { length work.new.waiting.items ≡ (D.problem problem.now).nodes }
    ensures working { OnOk result (IsWorking (D.problem problem.now) found.new.items work.new.nodes.items node (slice_index starts.now (node + 1))) }
    ensures less { OnOk result (work_left (D.problem problem.now) found.new.items work.new.nodes.items ≤ work_left (D.problem problem.now) found.old.items work.old.nodes.items) }
{
    let at = node as usize;
    let behind = problem.behind(alloc, node, &found[at])?;
    for place in starts[at]..starts[at + 1] {
        if follow(alloc, problem, edges[place], &behind, found, work)? {
            return Ok(());
        }
    }
    Ok(())
}

/// Follows an edge, by the label behind the node that it starts at, and tells whether the label of that node has changed.
fn follow<D: Dataflow>(
    alloc: Global,
    problem: &D,
    edge: (u32, u32, bool),
    behind: &D::Label,
    found: &mut Vec<D::Label>,
    work: &mut Worklist,
) -> Result<bool, AllocError>
    requires from { edge.0 < (D.problem problem.now).nodes }
    requires to { edge.1 < (D.problem problem.now).nodes }
    requires count { length work.old.waiting.items ≡ (D.problem problem.now).nodes }
    requires long { length found.old.items ≡ (D.problem problem.now).nodes }
    requires fits { (p : ℕ) → IsTrue ((D.problem problem.now).lattice.fits (labels (D.problem problem.now) found.old.items p)) }
    requires behind { IsSent (D.problem problem.now) false edge.0 (labels (D.problem problem.now) found.old.items edge.0) behind.now }
    ensures count { length work.new.waiting.items ≡ (D.problem problem.now).nodes }
    ensures followed { OnOk result (IsFollowed (D.problem problem.now) edge found.old.items found.new.items work.old.nodes.items work.new.nodes.items) }
    ensures same { IfOk result (λ again. again ≡ false → labels (D.problem problem.now) found.new.items edge.0 ≡ labels (D.problem problem.now) found.old.items edge.0) }
    ensures listed { IfOk result (λ again. IsTrue again → IsTrue (is_listed work.new.nodes.items edge.0)) }
{
    if !edge.2 {
        return arrive(alloc, problem, edge, behind, found, work);
    }
    let caught = problem.caught(alloc, edge.0, &found[edge.0 as usize], behind)?;
    arrive(alloc, problem, edge, &caught, found, work)
}

/// Joins what an edge carries into the label of its end, puts that node on the list if its label changes, and tells whether the edge
/// leads to the node that it starts at and changed its label.
fn arrive<D: Dataflow>(
    alloc: Global,
    problem: &D,
    edge: (u32, u32, bool),
    carried: &D::Label,
    found: &mut Vec<D::Label>,
    work: &mut Worklist,
) -> Result<bool, AllocError>
    requires from { edge.0 < (D.problem problem.now).nodes }
    requires to { edge.1 < (D.problem problem.now).nodes }
    requires count { length work.old.waiting.items ≡ (D.problem problem.now).nodes }
    requires long { length found.old.items ≡ (D.problem problem.now).nodes }
    requires fits { (p : ℕ) → IsTrue ((D.problem problem.now).lattice.fits (labels (D.problem problem.now) found.old.items p)) }
    requires carried { carried.now ≡ (D.problem problem.now).carry edge (labels (D.problem problem.now) found.old.items edge.0) }
    ensures count { length work.new.waiting.items ≡ (D.problem problem.now).nodes }
    ensures followed { OnOk result (IsFollowed (D.problem problem.now) edge found.old.items found.new.items work.old.nodes.items work.new.nodes.items) }
    ensures same { IfOk result (λ again. again ≡ false → labels (D.problem problem.now) found.new.items edge.0 ≡ labels (D.problem problem.now) found.old.items edge.0) }
    ensures listed { IfOk result (λ again. IsTrue again → IsTrue (is_listed work.new.nodes.items edge.0)) }
{
    if !problem.join(alloc, &mut found[edge.1 as usize], carried)? {
        return Ok(false);
    }
    work.add(edge.1)?;
    Ok(edge.0 == edge.1)
}
