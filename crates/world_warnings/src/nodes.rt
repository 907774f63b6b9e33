//! Tests of the nodes of a type.

ghost use Rattle.std.specs.Prelude.{◌≡◌, ◌&&◌, false, IfOk, map};
ghost use Rattle.std.specs.List.{list_any};
ghost use Rattle.world_warnings.specs.Nodes.{is_resource_value, needs_name, is_char_type, is_char, is_stream, streams_char, labels_of};

use comp_lists::{Seq, Text};
use record_values::{Case, Node};
use standard_kinds::Primitive;
use std::alloc::{AllocError, Global};
use world_names::Resources;

// ---- resources as the types of values

fn is_resource_value(resources: &Resources, node: &Node) -> bool
    ensures { result ≡ is_resource_value resources.now node.now }
{
    match node {
        Node::Named(named) => resources.contains_key(named),
        _ => false,
    }
}

pub(crate) fn has_resource_value(resources: &Resources, nodes: &[Node]) -> bool
    ensures { result ≡ list_any (is_resource_value resources.now) nodes.now }
{
    for node in nodes {
        if is_resource_value(resources, node) {
            return true;
        }
    }
    false
}

// ---- types that have to have a name

fn needs_name(node: &Node) -> bool
    ensures { result ≡ needs_name node.now }
{
    match node {
        Node::Record(_) => true,
        Node::Variant(_) => true,
        Node::Enum(_) => true,
        Node::Flags(_) => true,
        _ => false,
    }
}

pub(crate) fn has_unnamed(nodes: &[Node]) -> bool
    ensures { result ≡ list_any needs_name nodes.now }
{
    for node in nodes {
        if needs_name(node) {
            return true;
        }
    }
    false
}

// ---- streams of characters

fn is_char_type(primitive: Primitive) -> bool
    ensures { result ≡ is_char_type primitive }
{
    match primitive {
        Primitive::Char => true,
        _ => false,
    }
}

fn is_char(node: &Node) -> bool
    ensures { result ≡ is_char node.now }
{
    match node {
        Node::Primitive(primitive) => is_char_type(*primitive),
        _ => false,
    }
}

fn is_stream(node: &Node) -> bool
    ensures { result ≡ is_stream node.now }
{
    match node {
        Node::Stream { has_item } => *has_item,
        _ => false,
    }
}

/// Whether a node is a stream of the characters before it.
fn is_char_stream(after_char: bool, node: &Node) -> bool
    ensures { result ≡ (after_char && is_stream node.now) }
{
    after_char && is_stream(node)
}

pub(crate) fn has_char_stream(nodes: &[Node]) -> bool
    ensures { result ≡ streams_char false nodes.now }
{
    let mut after_char = false;
    for node in nodes {
        if is_char_stream(after_char, node) {
            return true;
        }
        after_char = is_char(node);
    }
    false
}

// ---- labels

fn case_names(alloc: Global, cases: &[Case]) -> Result<Seq<Text>, AllocError>
    ensures { IfOk result (λ ns. ns ≡ map (λ c. c.name) cases.now) }
{
    let mut names = Seq::new(alloc);
    for case in cases {
        names.push(case.name.clone(alloc)?)?;
    }
    Ok(names)
}

/// The labels of a node: of its fields, its cases or its flags.
pub(crate) fn labels_of(alloc: Global, node: &Node) -> Result<Seq<Text>, AllocError>
    ensures { IfOk result (λ ns. ns ≡ labels_of node.now) }
{
    match node {
        Node::Record(fields) => fields.clone(alloc),
        Node::Variant(cases) => case_names(alloc, cases.as_slice()),
        Node::Enum(labels) => labels.clone(alloc),
        Node::Flags(labels) => labels.clone(alloc),
        _ => Ok(Seq::new(alloc)),
    }
}
