//! Types without inner types.

ghost use Rattle.std.specs.Prelude.{◌≡◌, [], length};
ghost use Rattle.serde_json.specs.View.{view, items_view};
ghost use Rattle.json_paths.specs.Faults.{Gives};
ghost use Rattle.json_paths.specs.Reading.{items_from, text_of};
ghost use Rattle.record_types.specs.Scopes.{names_in};
ghost use Rattle.record_types.specs.Types.{GivesWith, after_parts, alone, some_of, some_items, labels_of, enum_of, flags_of, resource_of, own_of, borrow_of, ref_of, plain_of, primitive_type};

use crate::known::{Scope, Size};
use crate::primitives::primitive;
use crate::references::read_reference;
use crate::sizes::{above, simple};
use comp_lists::{Seq, Text};
use json_paths::{Failure, fault_here, left_out, read_text, under_index};
use record_values::{Node, TypeName};
use serde_json::Value;
use std::alloc::Global;

/// Writes a node after its parts, which have this size together.
pub(crate) fn push_after(
    alloc: Global,
    node: Node,
    parts: Size,
    nodes: &mut Seq<Node>,
) -> Result<Size, Failure>
    ensures { GivesWith result nodes.new (after_parts node parts nodes.old) }
{
    let size = above(alloc, parts)?;
    nodes.push(node)?;
    Ok(size)
}

/// Writes a node without parts.
fn push_alone(node: Node, nodes: &mut Seq<Node>) -> Result<Size, Failure>
    ensures { GivesWith result nodes.new (alone node nodes.old) }
{
    nodes.push(node)?;
    Ok(simple())
}

/// These values, unless there are none.
#[tactic(auto, using(crate::proofs::Arrays::some_are_some))]
fn unless_empty(alloc: Global, values: &[Value]) -> Result<&[Value], Failure>
    ensures { Gives (λ v. items_view v.now) result (some_of (items_view values.now)) }
{
    match values {
        [] => Err(fault_here(alloc)),
        [_, ..] => Ok(values),
    }
}

/// The items of an array that has at least one.
#[tactic(auto, unfolding(crate::specs::Types::some_items))]
pub(crate) fn some_items(alloc: Global, value: &Value) -> Result<&[Value], Failure>
    ensures { Gives (λ v. items_view v.now) result (some_items (view value.now)) }
{
    match value.as_array() {
        Some(values) => unless_empty(alloc, values.as_slice()),
        None => Err(fault_here(alloc)),
    }
}

fn read_texts(alloc: Global, values: &[Value]) -> Result<Seq<Text>, Failure>
    ensures { Gives (λ x. x) result (items_from text_of 0 (items_view values.now)) }
{
    let mut texts = Seq::new(alloc);
    for (index, value) in values.iter().enumerate() {
        let text = under_index(alloc, index, read_text(alloc, value))?;
        texts.push(text)?;
    }
    Ok(texts)
}

/// The labels of an enum, or of flags.
#[tactic(auto, unfolding(crate::specs::Types::labels_of))]
fn read_labels(alloc: Global, value: &Value) -> Result<Seq<Text>, Failure>
    ensures { Gives (λ x. x) result (labels_of (view value.now)) }
{
    let values = some_items(alloc, value)?;
    read_texts(alloc, values)
}

fn read_enum(alloc: Global, value: &Value, nodes: &mut Seq<Node>) -> Result<Size, Failure>
    ensures { GivesWith result nodes.new (enum_of (view value.now) nodes.old) }
{
    let labels = read_labels(alloc, value)?;
    push_alone(Node::Enum(labels), nodes)
}

fn read_flags(alloc: Global, value: &Value, nodes: &mut Seq<Node>) -> Result<Size, Failure>
    ensures { GivesWith result nodes.new (flags_of (view value.now) nodes.old) }
{
    let labels = read_labels(alloc, value)?;
    if labels.len() > 32 {
        return Err(left_out(alloc, "flags"));
    }
    push_alone(Node::Flags(labels), nodes)
}

/// A resource, or another name for one, with its size.
#[tactic(auto, unfolding(crate::specs::Types::resource_of))]
fn read_resource(
    alloc: Global,
    scope: &Scope<'_>,
    value: &Value,
) -> Result<(TypeName, Size), Failure>
    ensures { Gives (λ r. r) result (resource_of (names_in scope.now) (view value.now)) }
{
    let (named, facts) = read_reference(alloc, scope, value)?;
    if facts.ends_at_resource {
        Ok((named, facts.size))
    } else {
        Err(fault_here(alloc))
    }
}

fn read_own(
    alloc: Global,
    scope: &Scope<'_>,
    value: &Value,
    nodes: &mut Seq<Node>,
) -> Result<Size, Failure>
    ensures { GivesWith result nodes.new (own_of (names_in scope.now) (view value.now) nodes.old) }
{
    let (named, size) = read_resource(alloc, scope, value)?;
    push_after(alloc, Node::Own(named), size, nodes)
}

fn read_borrow(
    alloc: Global,
    scope: &Scope<'_>,
    value: &Value,
    nodes: &mut Seq<Node>,
) -> Result<Size, Failure>
    ensures { GivesWith result nodes.new
        (borrow_of (names_in scope.now) (view value.now) nodes.old) }
{
    let (named, size) = read_resource(alloc, scope, value)?;
    push_after(alloc, Node::Borrow(named), size, nodes)
}

/// A named type in use.
fn read_ref(
    alloc: Global,
    scope: &Scope<'_>,
    value: &Value,
    nodes: &mut Seq<Node>,
) -> Result<Size, Failure>
    ensures { GivesWith result nodes.new (ref_of (names_in scope.now) (view value.now) nodes.old) }
{
    let (named, facts) = read_reference(alloc, scope, value)?;
    nodes.push(Node::Named(named))?;
    Ok(facts.size)
}

/// A type without inner types that are written in it, by the name and the value of its one member.
pub(crate) fn read_plain(
    alloc: Global,
    scope: &Scope<'_>,
    key: &str,
    value: &Value,
    nodes: &mut Seq<Node>,
) -> Result<Size, Failure>
    ensures { GivesWith result nodes.new
        (plain_of (names_in scope.now) key.now (view value.now) nodes.old) }
{
    match key {
        "enum" => read_enum(alloc, value, nodes),
        "flags" => read_flags(alloc, value, nodes),
        "own" => read_own(alloc, scope, value, nodes),
        "borrow" => read_borrow(alloc, scope, value, nodes),
        "ref" => read_ref(alloc, scope, value, nodes),
        _ => Err(fault_here(alloc)),
    }
}

/// A primitive type.
pub(crate) fn read_primitive(
    alloc: Global,
    name: &str,
    nodes: &mut Seq<Node>,
) -> Result<Size, Failure>
    ensures { GivesWith result nodes.new (primitive_type name.now nodes.old) }
{
    match primitive(name) {
        Some(primitive) => push_alone(Node::Primitive(primitive), nodes),
        None => Err(fault_here(alloc)),
    }
}
