//! The edges to types.
ghost use Rattle.std.specs.Prelude.{◌≡◌, ◌++◌, All, OnOk};
ghost use Rattle.std.specs.Option.{option_to_list};
ghost use Rattle.fp_facts.specs.Seeds as defined;
ghost use Rattle.fp_facts.specs.Seeds.{classes_of_kinds};
ghost use Rattle.fp_extract.specs.SeedGraph.{IsKindWithin, IsNodeWithin, most_names, type_edges};

use super::node::{Node, push_edge};
use fp_model::{Elem, Kind};
use std::alloc::AllocError;

// The name of the class that a type is, or that the innermost elements of an array are of.
fn class_of_kind(kind: &Kind) -> Option<u32>
    ensures { result ≡ defined.class_of_kind kind.now }
{
    match kind {
        Kind::Class(name) | Kind::Array(_, Elem::Class(name)) => Some(*name),
        _ => None,
    }
}

/// Adds the edge to a type, if it is of a class.
pub(crate) fn push_type(
    edges: &mut Vec<(u32, u32, bool)>,
    from: Node,
    kind: &Kind,
) -> Result<(), AllocError>
    requires from { IsNodeWithin most_names from }
    requires kind { IsKindWithin most_names kind.now }
    ensures { OnOk result (edges.new.items ≡ edges.old.items ++ type_edges from (option_to_list (defined.class_of_kind kind.now))) }
{
    if let Some(name) = class_of_kind(kind) {
        push_edge(edges, from, Node::Named(name))?;
    }
    Ok(())
}

/// Adds the edges to those of some types that are of classes.
pub(crate) fn push_types(
    edges: &mut Vec<(u32, u32, bool)>,
    from: Node,
    kinds: &[Kind],
) -> Result<(), AllocError>
    requires from { IsNodeWithin most_names from }
    requires kinds { All (IsKindWithin most_names) kinds.now }
    ensures { OnOk result (edges.new.items ≡ edges.old.items ++ type_edges from (classes_of_kinds kinds.now)) }
{
    for kind in kinds {
        push_type(edges, from, kind)?;
    }
    Ok(())
}
