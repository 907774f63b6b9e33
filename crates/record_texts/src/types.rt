//! Types.

ghost use Rattle.std.specs.Prelude.{◌≡◌, ◌∷◌, [], codes, true, if◌then◌else◌, map, reverse, replicate, IfOk, OnOk};
ghost use Rattle.serde_json.specs.Data.{null, array};
ghost use Rattle.serde_json.specs.View.{view, items_of};
ghost use Rattle.record_texts.specs.Names.{only, type_name_data};
ghost use Rattle.record_texts.specs.Types.{primitive_name, parts_of, stack_view, top, rest, parts_before, named_parts, texts, node_data, with_node, type_data};

use crate::names::{Indices, type_name_value};
use crate::values::{append, named, only, texts};
use comp_lists::Text;
use record_values::{Case, Node, TypeName};
use serde_json::Value;
use standard_kinds::Primitive;
use std::alloc::{AllocError, Global};

/// Values of types. Contracts see the last one first (`stack_view`).
pub(crate) struct Stack {
    values: Vec<Value>,
}

impl Drop for Stack {
    fn drop(self) {
        let Stack { values: _ } = self;
    }
}

/// Values in the other order.
#[tactic(auto, using(crate::proofs::Stacks::turned))]
fn reversed(mut values: Vec<Value>) -> Vec<Value>
    ensures { map view result.items ≡ reverse (map view values.items) }
{
    values.reverse();
    values
}

impl Stack {
    /// No values.
    fn new(alloc: Global) -> Stack
        ensures { stack_view result ≡ [] }
    {
        Stack {
            values: Vec::new(alloc),
        }
    }

    fn push(&mut self, value: Value) -> Result<(), AllocError>
        ensures { OnOk result (stack_view self.new ≡ view value ∷ stack_view self.old) }
    {
        Ok(self.values.push(value)?)
    }

    /// The last value, which is taken away, or null where there is none.
    fn pop(&mut self) -> Value
        ensures value { view result ≡ top (stack_view self.old) }
        ensures left { stack_view self.new ≡ rest (stack_view self.old) }
    {
        match self.values.pop() {
            Some(value) => value,
            None => Value::Null,
        }
    }

    /// The values, the last one first.
    fn into_values(self) -> Vec<Value>
        ensures { map view result.items ≡ stack_view self }
    {
        let Self { values } = self;
        reversed(values)
    }
}

fn primitive_name(primitive: Primitive) -> &'static str
    ensures { result.now ≡ primitive_name primitive }
{
    match primitive {
        Primitive::Bool => "bool",
        Primitive::S8 => "s8",
        Primitive::U8 => "u8",
        Primitive::S16 => "s16",
        Primitive::U16 => "u16",
        Primitive::S32 => "s32",
        Primitive::U32 => "u32",
        Primitive::S64 => "s64",
        Primitive::U64 => "u64",
        Primitive::F32 => "f32",
        Primitive::F64 => "f64",
        Primitive::Char => "char",
        Primitive::String => "string",
        Primitive::ErrorContext => "error-context",
    }
}

// ---- the parts of a node

/// As many parts, all of them there.
fn all_there(alloc: Global, count: usize) -> Result<Vec<bool>, AllocError>
    ensures { IfOk result (λ fs. fs.items ≡ replicate count true) }
{
    let mut flags = Vec::new(alloc);
    flags.resize(count, true)?;
    Ok(flags)
}

/// Of each case, whether it has a type.
fn of_cases(alloc: Global, cases: &[Case]) -> Result<Vec<bool>, AllocError>
    ensures { IfOk result (λ fs. fs.items ≡ map (λ c. c.has_type) cases.now) }
{
    let mut flags = Vec::new(alloc);
    for case in cases {
        flags.push(case.has_type)?;
    }
    Ok(flags)
}

fn flag_alone(alloc: Global, flag: bool) -> Result<Vec<bool>, AllocError>
    ensures { IfOk result (λ fs. fs.items ≡ flag ∷ []) }
{
    let mut flags = Vec::new(alloc);
    flags.push(flag)?;
    Ok(flags)
}

fn flags_of_two(alloc: Global, first: bool, second: bool) -> Result<Vec<bool>, AllocError>
    ensures { IfOk result (λ fs. fs.items ≡ first ∷ second ∷ []) }
{
    let mut flags = Vec::new(alloc);
    flags.push(first)?;
    flags.push(second)?;
    Ok(flags)
}

/// Of each part that a node may have, whether it is there.
fn parts_of(alloc: Global, node: &Node) -> Result<Vec<bool>, AllocError>
    ensures { IfOk result (λ fs. fs.items ≡ parts_of node.now) }
{
    match node {
        Node::List => all_there(alloc, 1),
        Node::Option => all_there(alloc, 1),
        Node::Result { has_ok, has_err } => flags_of_two(alloc, *has_ok, *has_err),
        Node::Tuple { arity } => all_there(alloc, *arity),
        Node::Record(fields) => all_there(alloc, fields.len()),
        Node::Variant(cases) => of_cases(alloc, cases.as_slice()),
        Node::Stream { has_item } => flag_alone(alloc, *has_item),
        Node::Future { has_item } => flag_alone(alloc, *has_item),
        _ => Ok(Vec::new(alloc)),
    }
}

/// The part that belongs here: the last value, or null where there is none.
fn next_part(stack: &mut Stack, is_there: bool) -> Value
    ensures value { view result ≡ (if is_there then top (stack_view stack.old) else null) }
    ensures left { stack_view stack.new
        ≡ (if is_there then rest (stack_view stack.old) else stack_view stack.old) }
{
    if is_there { stack.pop() } else { Value::Null }
}

/// The parts, by whether each is there, from the last one on.
fn take_parts(alloc: Global, flags: &[bool], stack: &mut Stack) -> Result<Stack, AllocError>
    ensures { IfOk result (λ parts. (stack_view stack.new, stack_view parts)
        ≡ parts_before flags.now (stack_view stack.old) []) }
{
    let mut parts = Stack::new(alloc);
    for flag in flags {
        parts.push(next_part(stack, *flag))?;
    }
    Ok(parts)
}

// ---- a node with its parts

/// An object whose one member is the list of the parts.
fn listed(alloc: Global, key: &str, parts: Stack) -> Result<Value, AllocError>
    ensures { IfOk result (λ v. view v ≡ only key.now (array (items_of (stack_view parts)))) }
{
    only(alloc, key, Value::Array(parts.into_values()))
}

/// An object whose one member is the first part, or null.
fn holding(alloc: Global, key: &str, mut parts: Stack) -> Result<Value, AllocError>
    ensures { IfOk result (λ v. view v ≡ only key.now (top (stack_view parts))) }
{
    only(alloc, key, parts.pop())
}

fn fields_with(alloc: Global, fields: &[Text], mut parts: Stack) -> Result<Vec<Value>, AllocError>
    ensures { IfOk result (λ vs. map view vs.items ≡ named_parts fields.now (stack_view parts)) }
{
    let mut values = Vec::new(alloc);
    for field in fields {
        let value = named(alloc, field.as_str(), parts.pop())?;
        append(&mut values, value)?;
    }
    Ok(values)
}

fn cases_with(alloc: Global, cases: &[Case], mut parts: Stack) -> Result<Vec<Value>, AllocError>
    ensures { IfOk result (λ vs. map view vs.items
        ≡ named_parts (map (λ c. c.name) cases.now) (stack_view parts)) }
{
    let mut values = Vec::new(alloc);
    for case in cases {
        let value = named(alloc, case.name.as_str(), parts.pop())?;
        append(&mut values, value)?;
    }
    Ok(values)
}

/// A type that holds a list of names with their types.
fn record_value(alloc: Global, fields: &[Text], parts: Stack) -> Result<Value, AllocError>
    ensures { IfOk result (λ v. view v
        ≡ only (codes "record") (array (items_of (named_parts fields.now (stack_view parts))))) }
{
    let values = fields_with(alloc, fields, parts)?;
    only(alloc, "record", Value::Array(values))
}

fn variant_value(alloc: Global, cases: &[Case], parts: Stack) -> Result<Value, AllocError>
    ensures { IfOk result (λ v. view v ≡ only (codes "variant")
        (array (items_of (named_parts (map (λ c. c.name) cases.now) (stack_view parts))))) }
{
    let values = cases_with(alloc, cases, parts)?;
    only(alloc, "variant", Value::Array(values))
}

fn labels_value(alloc: Global, key: &str, labels: &[Text]) -> Result<Value, AllocError>
    ensures { IfOk result (λ v. view v ≡ only key.now (texts labels.now)) }
{
    let labels = texts(alloc, labels)?;
    only(alloc, key, labels)
}

fn reference_value(
    alloc: Global,
    indices: &Indices,
    key: &str,
    named: &TypeName,
) -> Result<Value, AllocError>
    ensures { IfOk result (λ v. view v ≡ only key.now (type_name_data indices.now named.now)) }
{
    let named = type_name_value(alloc, indices, named)?;
    only(alloc, key, named)
}

/// A type, of these parts.
fn node_value(
    alloc: Global,
    indices: &Indices,
    node: &Node,
    parts: Stack,
) -> Result<Value, AllocError>
    ensures { IfOk result (λ v. view v ≡ node_data indices.now node.now (stack_view parts)) }
{
    match node {
        Node::Primitive(primitive) => Value::try_from_str(alloc, primitive_name(*primitive)),
        Node::List => holding(alloc, "list", parts),
        Node::Option => holding(alloc, "option", parts),
        Node::Result {
            has_ok: _,
            has_err: _,
        } => listed(alloc, "result", parts),
        Node::Tuple { arity: _ } => listed(alloc, "tuple", parts),
        Node::Record(fields) => record_value(alloc, fields.as_slice(), parts),
        Node::Variant(cases) => variant_value(alloc, cases.as_slice(), parts),
        Node::Enum(labels) => labels_value(alloc, "enum", labels.as_slice()),
        Node::Flags(labels) => labels_value(alloc, "flags", labels.as_slice()),
        Node::Own(named) => reference_value(alloc, indices, "own", named),
        Node::Borrow(named) => reference_value(alloc, indices, "borrow", named),
        Node::Stream { has_item: _ } => holding(alloc, "stream", parts),
        Node::Future { has_item: _ } => holding(alloc, "future", parts),
        Node::Named(named) => reference_value(alloc, indices, "ref", named),
        Node::Resource => only(alloc, "resource", Value::Bool(true)),
    }
}

// ---- all nodes of a type

/// The parts of a node, from the last one on, of the values before it.
fn parts_before(alloc: Global, node: &Node, stack: &mut Stack) -> Result<Stack, AllocError>
    ensures { IfOk result (λ parts. (stack_view stack.new, stack_view parts)
        ≡ parts_before (reverse (parts_of node.now)) (stack_view stack.old) []) }
{
    let mut flags = parts_of(alloc, node)?;
    flags.reverse();
    take_parts(alloc, &flags, stack)
}

/// Puts a node and its parts together.
fn add_node(
    alloc: Global,
    indices: &Indices,
    stack: &mut Stack,
    node: &Node,
) -> Result<(), AllocError>
    ensures { OnOk result (stack_view stack.new
        ≡ with_node indices.now (stack_view stack.old) node.now) }
{
    let parts = parts_before(alloc, node, stack)?;
    let value = node_value(alloc, indices, node, parts)?;
    stack.push(value)
}

/// A type, which is the list of its nodes, each after its parts.
pub(crate) fn type_value(
    alloc: Global,
    indices: &Indices,
    nodes: &[Node],
) -> Result<Value, AllocError>
    ensures { IfOk result (λ v. view v ≡ type_data indices.now nodes.now) }
{
    let mut stack = Stack::new(alloc);
    for node in nodes {
        add_node(alloc, indices, &mut stack, node)?;
    }
    Ok(stack.pop())
}
