//! The edges of classes.
ghost use Rattle.std.specs.Prelude.{◌≡◌, ◌≤◌, ◌<◌, ◌++◌, ◌∷◌, [], All, length, OnOk};
ghost use Rattle.std.specs.List.{flat_map};
ghost use Rattle.fp_facts.specs.Seeds.{instance_types};
ghost use Rattle.fp_extract.specs.SeedGraph.{IsClassWithin, IsKindWithin, class_edges, interface_edges, most_names, own_edges, superclass_edges, type_edges};
ghost use Rattle.fp_extract.specs.declared.seed.node.Node.TheVariants.{Fields};

use super::node::{Node, push_edge};
use super::types::push_type;
use fp_model::flags::{is_concrete, is_static};
use fp_model::{Class, ClassSet, Field};
use std::alloc::AllocError;

/// Adds the edges of all classes.
pub(crate) fn push_classes(
    edges: &mut Vec<(u32, u32, bool)>,
    set: &ClassSet,
) -> Result<(), AllocError>
    requires { length set.now.names ≤ most_names }
    ensures { OnOk result (edges.new.items ≡ edges.old.items ++ flat_map class_edges set.now.classes) }
{
    let (classes, _fields, _methods) = set.counts();
    for id in 0..classes {
        push_class(edges, set.class(id))?;
    }
    Ok(())
}

// Adds those of a class.
fn push_class(edges: &mut Vec<(u32, u32, bool)>, class: &Class) -> Result<(), AllocError>
    requires { IsClassWithin most_names class.now }
    ensures { OnOk result (edges.new.items ≡ edges.old.items ++ class_edges class.now) }
{
    push_interfaces(edges, class.name, class.interfaces.as_slice())?;
    push_own(edges, class)?;
    if let Some(parent) = class.parent {
        push_superclass(edges, class.name, parent)?;
    }
    push_fields(edges, class.name, class.fields.as_slice())
}

// Adds those to a class from its direct superinterfaces.
fn push_interfaces(
    edges: &mut Vec<(u32, u32, bool)>,
    name: u32,
    interfaces: &[u32],
) -> Result<(), AllocError>
    requires name { name < most_names }
    requires interfaces { All (λ n. n < most_names) interfaces.now }
    ensures { OnOk result (edges.new.items ≡ edges.old.items ++ interface_edges name interfaces.now) }
{
    for interface in interfaces {
        push_edge(edges, Node::Named(*interface), Node::Named(name))?;
    }
    Ok(())
}

// Adds those among the nodes of a class's own name.
fn push_own(edges: &mut Vec<(u32, u32, bool)>, class: &Class) -> Result<(), AllocError>
    requires { class.now.name < most_names }
    ensures { OnOk result (edges.new.items ≡ edges.old.items ++ own_edges class.now) }
{
    push_edge(edges, Node::Named(class.name), Node::Below(class.name))?;
    if is_concrete(class.flags) {
        push_edge(edges, Node::Below(class.name), Node::Fields(class.name))?;
    }
    Ok(())
}

// Adds those between a class and its superclass.
fn push_superclass(
    edges: &mut Vec<(u32, u32, bool)>,
    name: u32,
    parent: u32,
) -> Result<(), AllocError>
    requires name { name < most_names }
    requires parent { parent < most_names }
    ensures { OnOk result (edges.new.items ≡ edges.old.items ++ superclass_edges name parent) }
{
    push_edge(edges, Node::Named(parent), Node::Below(parent))?;
    push_edge(edges, Node::Below(parent), Node::Below(name))?;
    push_edge(edges, Node::Fields(name), Node::Fields(parent))
}

// Adds those to the types of the instance fields of a class.
fn push_fields(
    edges: &mut Vec<(u32, u32, bool)>,
    name: u32,
    fields: &[Field],
) -> Result<(), AllocError>
    requires name { name < most_names }
    requires fields { All (λ f. IsKindWithin most_names f.kind) fields.now }
    ensures { OnOk result (edges.new.items ≡ edges.old.items ++ type_edges (Fields name) (instance_types fields.now)) }
{
    for field in fields {
        push_field(edges, name, field)?;
    }
    Ok(())
}

// Adds that to the type of a field, if it is an instance field of a class type.
fn push_field(edges: &mut Vec<(u32, u32, bool)>, name: u32, field: &Field) -> Result<(), AllocError>
    requires name { name < most_names }
    requires kind { IsKindWithin most_names field.now.kind }
    ensures { OnOk result (edges.new.items ≡ edges.old.items ++ type_edges (Fields name) (instance_types (field.now ∷ []))) }
{
    if !is_static(field.flags) {
        push_type(edges, Node::Fields(name), &field.kind)?;
    }
    Ok(())
}
