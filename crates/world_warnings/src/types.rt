//! Warnings of types: of values in functions, and those that have a name.

ghost use Rattle.std.specs.Prelude.{◌≡◌, ◌++◌, OnOk};
ghost use Rattle.std.specs.List.{flat_map};
ghost use Rattle.world_warnings.specs.Types.{node_warnings, shape_warnings, parts_warnings, value_warnings, before_last, definition_warnings};

use crate::nodes::{has_char_stream, has_resource_value, has_unnamed, labels_of};
use comp_lists::{Seq, Text};
use name_warnings::{Warning, WarningKind, add_labels, note};
use record_values::Node;
use std::alloc::{AllocError, Global};
use world_names::Resources;

fn add_node(
    alloc: Global,
    warnings: &mut Seq<Warning>,
    path: &Seq<Text>,
    node: &Node,
) -> Result<(), AllocError>
    ensures { OnOk result (warnings.new ≡ warnings.old ++ node_warnings path.now node.now) }
{
    let labels = labels_of(alloc, node)?;
    add_labels(alloc, warnings, path, labels.as_slice())
}

fn add_nodes(
    alloc: Global,
    warnings: &mut Seq<Warning>,
    path: &Seq<Text>,
    nodes: &[Node],
) -> Result<(), AllocError>
    ensures { OnOk result
        (warnings.new ≡ warnings.old ++ flat_map (node_warnings path.now) nodes.now) }
{
    for node in nodes {
        add_node(alloc, warnings, path, node)?;
    }
    Ok(())
}

/// Adds the warnings of a type that say nothing of the types which it names.
fn add_shape(
    alloc: Global,
    warnings: &mut Seq<Warning>,
    path: &Seq<Text>,
    nodes: &[Node],
) -> Result<(), AllocError>
    ensures { OnOk result (warnings.new ≡ warnings.old ++ shape_warnings path.now nodes.now) }
{
    let streams = has_char_stream(nodes);
    note(alloc, warnings, streams, WarningKind::CharStream, path)?;
    add_nodes(alloc, warnings, path, nodes)?;
    Ok(())
}

/// Adds the warnings of the types of which a type is made.
fn add_parts(
    alloc: Global,
    warnings: &mut Seq<Warning>,
    resources: &Resources,
    path: &Seq<Text>,
    nodes: &[Node],
) -> Result<(), AllocError>
    ensures { OnOk result
        (warnings.new ≡ warnings.old ++ parts_warnings resources.now path.now nodes.now) }
{
    let bare = has_resource_value(resources, nodes);
    note(alloc, warnings, bare, WarningKind::ResourceValue, path)?;
    let unnamed = has_unnamed(nodes);
    note(alloc, warnings, unnamed, WarningKind::UnnamedType, path)?;
    Ok(())
}

/// Adds the warnings of the type of a parameter or a result.
pub(crate) fn add_value(
    alloc: Global,
    warnings: &mut Seq<Warning>,
    resources: &Resources,
    path: &Seq<Text>,
    nodes: &[Node],
) -> Result<(), AllocError>
    ensures { OnOk result
        (warnings.new ≡ warnings.old ++ value_warnings resources.now path.now nodes.now) }
{
    add_parts(alloc, warnings, resources, path, nodes)?;
    add_shape(alloc, warnings, path, nodes)?;
    Ok(())
}

/// The nodes of a type but the last, of which its parts are.
fn before_last(nodes: &[Node]) -> &[Node]
    ensures { result.now ≡ before_last nodes.now }
{
    let count = nodes.len().saturating_sub(1);
    &nodes[..count]
}

/// Adds the warnings of the type of a name, which may be another name for a resource.
pub(crate) fn add_definition(
    alloc: Global,
    warnings: &mut Seq<Warning>,
    resources: &Resources,
    path: &Seq<Text>,
    nodes: &[Node],
) -> Result<(), AllocError>
    ensures { OnOk result
        (warnings.new ≡ warnings.old ++ definition_warnings resources.now path.now nodes.now) }
{
    add_parts(alloc, warnings, resources, path, before_last(nodes))?;
    add_shape(alloc, warnings, path, nodes)?;
    Ok(())
}
