//! The edges from the roots.
ghost use Rattle.std.specs.Prelude.{◌≡◌, ◌≤◌, ◌<◌, ◌++◌, length, OnOk};
ghost use Rattle.std.specs.List.{flat_map};
ghost use Rattle.fp_model.specs.ClassSet.{methods_of};
ghost use Rattle.fp_facts.specs.Seeds.{receiver_type, root_types};
ghost use Rattle.fp_extract.specs.SeedGraph.{most_names, type_edges};
ghost use Rattle.fp_extract.specs.declared.seed.node.Node.TheVariants.{Roots};

use super::node::{Node, push_edge};
use super::types::push_types;
use fp_model::flags::is_static;
use fp_model::{ClassSet, Method, MethodId};
use std::alloc::AllocError;

/// Adds the edges to the types of roots.
pub(crate) fn push_roots(
    edges: &mut Vec<(u32, u32, bool)>,
    set: &ClassSet,
    roots: &[MethodId],
) -> Result<(), AllocError>
    requires { length set.now.names ≤ most_names }
    ensures { OnOk result (edges.new.items ≡ edges.old.items ++ type_edges Roots (flat_map (root_types set.now.classes) roots.now)) }
{
    for root in roots {
        push_root(edges, set, *root)?;
    }
    Ok(())
}

// Adds those to the types of a root, if it is a method of the set.
fn push_root(
    edges: &mut Vec<(u32, u32, bool)>,
    set: &ClassSet,
    root: MethodId,
) -> Result<(), AllocError>
    requires { length set.now.names ≤ most_names }
    ensures { OnOk result (edges.new.items ≡ edges.old.items ++ type_edges Roots (root_types set.now.classes root)) }
{
    let (_classes, _fields, methods) = set.counts();
    if root >= methods {
        return Ok(());
    }
    let method = set.method(root);
    push_receiver(edges, set, root, method)?;
    push_types(edges, Node::Roots, method.kinds.args.as_slice())
}

// Adds that to the class of a method, if it is an instance method.
fn push_receiver(
    edges: &mut Vec<(u32, u32, bool)>,
    set: &ClassSet,
    id: MethodId,
    method: &Method,
) -> Result<(), AllocError>
    requires few { length set.now.names ≤ most_names }
    requires id { id < length (methods_of set.now.classes) }
    ensures { OnOk result (edges.new.items ≡ edges.old.items ++ type_edges Roots (receiver_type set.now.classes method.now id)) }
{
    if is_static(method.flags) {
        return Ok(());
    }
    let class = set.class(set.class_of_method(id));
    push_edge(edges, Node::Roots, Node::Named(class.name))
}
