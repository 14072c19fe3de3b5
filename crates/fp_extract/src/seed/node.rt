//! The nodes of the graph that reaches seed classes, and the edges between them.
ghost use Rattle.std.specs.Prelude.{◌≡◌, ◌++◌, ◌∷◌, [], OnOk};
ghost use Rattle.fp_extract.specs.SeedGraph.{IsNodeWithin, edge, most_names};
ghost use Rattle.fp_extract.specs.SeedGraph as defined;

use std::alloc::AllocError;

/// What a node stands for, by the number of a name.
#[derive(Clone, Copy)]
pub(crate) enum Node {
    /// The roots.
    Roots,
    /// The classes that go by the name.
    Named(u32),
    /// The class of the name, and those that have it as a superclass.
    Below(u32),
    /// The instance fields of the class of the name.
    Fields(u32),
}

impl Node {
    /// Its number: 0 for the roots, and behind that three for each name.
    pub(crate) fn number(self) -> u32
        requires { IsNodeWithin most_names self }
        ensures { result ≡ defined.number self }
    {
        match self {
            Node::Roots => 0,
            Node::Named(name) => 3 * name + 1,
            Node::Below(name) => 3 * name + 2,
            Node::Fields(name) => 3 * name + 3,
        }
    }
}

/// Adds the edge between two nodes.
pub(crate) fn push_edge(
    edges: &mut Vec<(u32, u32, bool)>,
    from: Node,
    to: Node,
) -> Result<(), AllocError>
    requires from { IsNodeWithin most_names from }
    requires to { IsNodeWithin most_names to }
    ensures { OnOk result (edges.new.items ≡ edges.old.items ++ edge from to ∷ []) }
{
    edges.push((from.number(), to.number(), false))?;
    Ok(())
}
