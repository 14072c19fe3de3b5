//! The classes of the objects that a run may be handed at its start.
ghost use Rattle.std.specs.Prelude.{◌≡◌, ◌≤◌, ◌<◌, [], ◌∷◌, ◌++◌, filter, length, IfOk, OnOk};
ghost use Rattle.std.specs.List.{range_with_len};
ghost use Rattle.std.specs.List.Sorted.{IsPermutation};
ghost use Rattle.fp_facts.specs.Seeds as defined;
ghost use Rattle.fp_flow.specs.Ascending.{IsAscending};
ghost use Rattle.fp_extract.specs.SeedGraph as graph;
ghost use Rattle.fp_extract.specs.SeedGraph.{most_names, node_count};

mod classes;
mod node;
mod reach;
mod roots;
mod types;

use classes::push_classes;
use fp_model::flags::is_concrete;
use fp_model::{ClassId, ClassSet, MethodId};
use node::Node;
use reach::reached;
use roots::push_roots;
use std::alloc::{AllocError, Global};

/// The seed classes of roots, ascending: the concrete classes of the set that go by a type of a root, or of an instance field of another
/// seed class. A root that is no method of the set has no type.
pub fn seeds(alloc: Global, set: &ClassSet, roots: &[MethodId]) -> Result<Vec<ClassId>, AllocError>
    ensures { IfOk result (λ ids. ids.items ≡ defined.seeds set.now.classes roots.now) }
{
    let nodes = 3 * set.names().len() + 1;
    let edges = ascending(seed_edges(alloc, set, roots)?);
    let flags = reached(alloc, nodes, edges.as_slice())?;
    reached_classes(alloc, set, flags.as_slice())
}

// The edges of the graph, in no order.
fn seed_edges(
    alloc: Global,
    set: &ClassSet,
    roots: &[MethodId],
) -> Result<Vec<(u32, u32, bool)>, AllocError>
    requires { length set.now.names ≤ most_names }
    ensures { IfOk result (λ edges. edges.items ≡ graph.seed_edges set.now.classes roots.now) }
{
    let mut edges = Vec::new(alloc);
    push_roots(&mut edges, set, roots)?;
    push_classes(&mut edges, set)?;
    Ok(edges)
}

// Edges in the order of the nodes that they start at. Takes no memory.
fn ascending(mut edges: Vec<(u32, u32, bool)>) -> Vec<(u32, u32, bool)>
    ensures order { IsAscending result.items }
    ensures same { IsPermutation edges.items result.items }
{
    edges.sort_unstable_by_key(|edge| edge.0);
    edges
}

// The concrete classes that are reached.
fn reached_classes(
    alloc: Global,
    set: &ClassSet,
    flags: &[bool],
) -> Result<Vec<ClassId>, AllocError>
    requires few { length set.now.names ≤ most_names }
    requires flags { length flags.now ≡ node_count (length set.now.names) }
    ensures { IfOk result (λ ids. ids.items ≡ filter (graph.is_reached set.now.classes flags.now) (range_with_len 0 (length set.now.classes))) }
{
    let (classes, _fields, _methods) = set.counts();
    let mut ids = Vec::new(alloc);
    for id in 0..classes {
        push_reached(&mut ids, set, flags, id)?;
    }
    Ok(ids)
}

// Adds a class, if it is concrete and reached.
fn push_reached(
    ids: &mut Vec<ClassId>,
    set: &ClassSet,
    flags: &[bool],
    class: ClassId,
) -> Result<(), AllocError>
    requires few { length set.now.names ≤ most_names }
    requires flags { length flags.now ≡ node_count (length set.now.names) }
    requires class { class < length set.now.classes }
    ensures { OnOk result (ids.new.items ≡ ids.old.items ++ filter (graph.is_reached set.now.classes flags.now) (class ∷ [])) }
{
    if is_reached(set, flags, class) {
        ids.push(class)?;
    }
    Ok(())
}

// Whether a class is concrete and reached.
fn is_reached(set: &ClassSet, flags: &[bool], class: ClassId) -> bool
    requires few { length set.now.names ≤ most_names }
    requires flags { length flags.now ≡ node_count (length set.now.names) }
    requires class { class < length set.now.classes }
    ensures { result ≡ graph.is_reached set.now.classes flags.now class }
{
    let class = set.class(class);
    is_concrete(class.flags) && flags[Node::Below(class.name).number() as usize]
}
