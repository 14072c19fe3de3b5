//! What edges reach.
ghost use Rattle.std.specs.Prelude.{◌≡◌, ◌<◌, false, All, length, replicate, IfOk};
ghost use Rattle.fp_facts.specs.Dataflow.{IsLawful};
ghost use Rattle.fp_flow.specs.Ascending.{IsAscending};
ghost use Rattle.fp_extract.specs.SeedGraph.{AreReached, reach_problem};

use fp_flow::{Dataflow, solve};
use std::alloc::{AllocError, Global};

/// The problem which nodes are reached from node 0.
#[derive(Drop)]
struct Reach<'e> {
    nodes: u32,
    edges: &'e [(u32, u32, bool)],
    ghost laws: { IsLawful (reach_problem nodes edges.now) },
}

impl<'e> Dataflow for Reach<'e> {
    type Label = bool;

    ghost problem = { λ p. reach_problem p.nodes p.edges.now };

    ghost lawful = { λ p. p.laws };

    fn behind(&self, _alloc: Global, _node: u32, before: &bool) -> Result<bool, AllocError> {
        Ok(*before)
    }

    fn caught(
        &self,
        _alloc: Global,
        _node: u32,
        before: &bool,
        _behind: &bool,
    ) -> Result<bool, AllocError> {
        Ok(*before)
    }

    fn join(&self, _alloc: Global, into: &mut bool, more: &bool) -> Result<bool, AllocError> {
        let changed = *more && !*into;
        *into = *into || *more;
        Ok(changed)
    }
}

/// Whether each node is reached from node 0.
pub(crate) fn reached(
    alloc: Global,
    nodes: u32,
    edges: &[(u32, u32, bool)],
) -> Result<Vec<bool>, AllocError>
    requires some { 0 < nodes }
    requires within { All (λ e. (e.0 < nodes) × (e.1 < nodes)) edges.now }
    requires ascending { IsAscending edges.now }
    ensures long { IfOk result (λ flags. length flags.items ≡ nodes) }
    ensures reached { IfOk result (λ flags. AreReached edges.now flags.items) }
{
    let mut first = unset(alloc, nodes)?;
    first[0] = true;
    let problem = Reach { nodes, edges };
    solve(alloc, &problem, edges, first)
}

// So many flags that are not set.
fn unset(alloc: Global, count: u32) -> Result<Vec<bool>, AllocError>
    ensures { IfOk result (λ flags. flags.items ≡ replicate count false) }
{
    let mut flags = Vec::with_capacity(alloc, count as usize)?;
    for _ in 0..count {
        flags.push(false)?;
    }
    Ok(flags)
}
