ghost use Rattle.std.specs.Prelude.{◌≡◌, ◌≤◌, ◌<◌, ℕ, IfOk, length, slice_index_or};
ghost use Rattle.fp_facts.specs.Dataflow.{Edge};
ghost use Rattle.fp_flow.specs.Ascending.{IsAscending};
ghost use Rattle.fp_flow.specs.Working.{IsIndexed};

use std::alloc::{AllocError, Global};

/// How many edges start below each node, and after them how many edges start at any node.
pub fn edge_starts(
    alloc: Global,
    edges: &[(u32, u32, bool)],
    count: u32,
) -> Result<Vec<usize>, AllocError>
    requires { IsAscending edges.now }
    ensures { IfOk result (λ starts. IsIndexed edges.now count starts.items) }
{
    let mut starts = Vec::with_capacity(alloc, count as usize + 1)?;
    let mut at = 0;
    for node in 0..count as usize + 1 {
        at = skip_below(edges, at, node);
        starts.push(at)?;
    }
    Ok(starts)
}

/// The first place from one on whose edge doesn't start below a node.
fn skip_below(edges: &[(u32, u32, bool)], from: usize, node: usize) -> usize
    requires { from ≤ length edges.now }
    ensures from { from ≤ result }
    ensures within { result ≤ length edges.now }
    ensures below { (i : ℕ) (e : Edge) → from ≤ i → i < result → (slice_index_or edges.now i e).0 < node }
    ensures stops { (e : Edge) → result < length edges.now → node ≤ (slice_index_or edges.now result e).0 }
{
    for at in from..edges.len() {
        if edges[at].0 as usize >= node {
            return at;
        }
    }
    edges.len()
}
