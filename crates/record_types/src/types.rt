//! Types.

ghost use Rattle.std.specs.Prelude.{◌≡◌, []};
ghost use Rattle.serde_json.specs.View.{view, items_view};
ghost use Rattle.json_paths.specs.Faults.{Gives};
ghost use Rattle.json_paths.specs.Reading.{single};
ghost use Rattle.record_values.specs.declared.types.Node.TheVariants as variants;
ghost use Rattle.record_types.specs.Scopes.{names_in};
ghost use Rattle.record_types.specs.Sizes.{nothing};
ghost use Rattle.record_types.specs.Types.{GivesWith, is_part, part_of, item_count, holding_of, carrying_of, result_of, tuple_from, tuple_of, field_of, fields_from, record_of, case_of, cases_from, variant_of, kind_of, member_of, compound_of, type_of, nodes_of};

use crate::known::{Scope, Size};
use crate::plain::{push_after, read_plain, read_primitive, some_items};
use crate::sizes::{absent, combined, nothing};
use comp_lists::{Seq, Text};
use json_paths::{
    Failure, fault_here, left_out, only_member, pair_items, read_text, under, under_index,
};
use record_values::{Case, Node};
use serde_json::Value;
use std::alloc::Global;

/// A type of at most this many levels, and its size. Its nodes are appended to those so far.
#[cycle(types)]
#[tactic(auto, unfolding(crate::specs::Types::type_of))]
pub(crate) fn read_type(
    alloc: Global,
    levels: u32,
    scope: &Scope<'_>,
    value: &Value,
    nodes: &mut Seq<Node>,
) -> Result<Size, Failure>
    ensures { GivesWith result nodes.new
        (type_of levels (names_in scope.now) (view value.now) nodes.old) }
{
    if levels == 0 {
        return Err(left_out(alloc, "type depth"));
    }
    if let Some(name) = value.as_str() {
        return read_primitive(alloc, name, nodes);
    }
    read_compound(alloc, levels - 1, scope, value, nodes)
}

/// A type by the one member of an object.
#[cycle(types)]
fn read_compound(
    alloc: Global,
    levels: u32,
    scope: &Scope<'_>,
    value: &Value,
    nodes: &mut Seq<Node>,
) -> Result<Size, Failure>
    ensures { GivesWith result nodes.new (compound_of (names_in scope.now)
        (type_of levels (names_in scope.now)) (single (view value.now)) nodes.old) }
{
    let Some((key, member)) = only_member(value) else {
        return Err(fault_here(alloc));
    };
    read_member(alloc, levels, scope, key, member, nodes)
}

/// A type by its one member, whose name is one part of the path.
#[cycle(types)]
#[tactic(auto, unfolding(crate::specs::Types::member_of))]
fn read_member(
    alloc: Global,
    levels: u32,
    scope: &Scope<'_>,
    key: &str,
    value: &Value,
    nodes: &mut Seq<Node>,
) -> Result<Size, Failure>
    ensures { GivesWith result nodes.new (member_of (names_in scope.now)
        (type_of levels (names_in scope.now)) key.now (view value.now) nodes.old) }
{
    let size = under(
        alloc,
        key,
        read_kind(alloc, levels, scope, key, value, nodes),
    )?;
    Ok(size)
}

/// A type by the name and the value of its one member.
#[cycle(types)]
fn read_kind(
    alloc: Global,
    levels: u32,
    scope: &Scope<'_>,
    key: &str,
    value: &Value,
    nodes: &mut Seq<Node>,
) -> Result<Size, Failure>
    ensures { GivesWith result nodes.new (kind_of (names_in scope.now)
        (type_of levels (names_in scope.now)) key.now (view value.now) nodes.old) }
{
    match key {
        "list" => read_holding(alloc, levels, scope, Node::List, nothing(), value, nodes),
        "option" => read_holding(alloc, levels, scope, Node::Option, absent(), value, nodes),
        "result" => read_result(alloc, levels, scope, value, nodes),
        "tuple" => read_tuple(alloc, levels, scope, value, nodes),
        "record" => read_record(alloc, levels, scope, value, nodes),
        "variant" => read_variant(alloc, levels, scope, value, nodes),
        "stream" => read_carrying(alloc, levels, scope, stream(value), value, nodes),
        "future" => read_carrying(alloc, levels, scope, future(value), value, nodes),
        _ => read_plain(alloc, scope, key, value, nodes),
    }
}

/// A stream, whose item may be null.
fn stream(value: &Value) -> Node
    ensures { result ≡ variants.Stream (is_part (view value.now)) }
{
    Node::Stream {
        has_item: !value.is_null(),
    }
}

/// A future, whose item may be null.
fn future(value: &Value) -> Node
    ensures { result ≡ variants.Future (is_part (view value.now)) }
{
    Node::Future {
        has_item: !value.is_null(),
    }
}

/// A type with one part, where its other parts have this size.
#[cycle(types)]
fn read_holding(
    alloc: Global,
    levels: u32,
    scope: &Scope<'_>,
    node: Node,
    others: Size,
    value: &Value,
    nodes: &mut Seq<Node>,
) -> Result<Size, Failure>
    ensures { GivesWith result nodes.new
        (holding_of node others (type_of levels (names_in scope.now)) (view value.now) nodes.old) }
{
    let part = read_type(alloc, levels, scope, value, nodes)?;
    push_after(alloc, node, combined(others, part), nodes)
}

/// A part that may be null.
#[cycle(types)]
fn read_part(
    alloc: Global,
    levels: u32,
    scope: &Scope<'_>,
    value: &Value,
    nodes: &mut Seq<Node>,
) -> Result<Size, Failure>
    ensures { GivesWith result nodes.new
        (part_of (type_of levels (names_in scope.now)) (view value.now) nodes.old) }
{
    if value.is_null() {
        return Ok(absent());
    }
    read_type(alloc, levels, scope, value, nodes)
}

/// A type with one part, which may be null.
#[cycle(types)]
fn read_carrying(
    alloc: Global,
    levels: u32,
    scope: &Scope<'_>,
    node: Node,
    value: &Value,
    nodes: &mut Seq<Node>,
) -> Result<Size, Failure>
    ensures { GivesWith result nodes.new
        (carrying_of node (type_of levels (names_in scope.now)) (view value.now) nodes.old) }
{
    let part = read_part(alloc, levels, scope, value, nodes)?;
    push_after(alloc, node, part, nodes)
}

#[cycle(types)]
#[tactic(auto, unfolding(crate::specs::Types::result_of))]
fn read_result(
    alloc: Global,
    levels: u32,
    scope: &Scope<'_>,
    value: &Value,
    nodes: &mut Seq<Node>,
) -> Result<Size, Failure>
    ensures { GivesWith result nodes.new
        (result_of (type_of levels (names_in scope.now)) (view value.now) nodes.old) }
{
    let Some((ok, err)) = pair_items(value) else {
        return Err(fault_here(alloc));
    };
    let good = under(alloc, "0", read_part(alloc, levels, scope, ok, nodes))?;
    let bad = under(alloc, "1", read_part(alloc, levels, scope, err, nodes))?;
    let node = Node::Result {
        has_ok: !ok.is_null(),
        has_err: !err.is_null(),
    };
    push_after(alloc, node, combined(good, bad), nodes)
}

/// A tuple with this number of items.
#[tactic(auto, using(crate::proofs::Counts::counted))]
fn tuple(values: &[Value]) -> Node
    ensures { result ≡ variants.Tuple (item_count (items_view values.now)) }
{
    Node::Tuple {
        arity: values.len(),
    }
}

/// The parts of a tuple, and their size together.
#[cycle(types)]
fn read_parts(
    alloc: Global,
    levels: u32,
    scope: &Scope<'_>,
    values: &[Value],
    nodes: &mut Seq<Node>,
) -> Result<Size, Failure>
    ensures { GivesWith result nodes.new (tuple_from (type_of levels (names_in scope.now)) 0
        (items_view values.now) nothing nodes.old) }
{
    let mut size = nothing();
    for (index, value) in values.iter().enumerate() {
        let part = under_index(alloc, index, read_type(alloc, levels, scope, value, nodes))?;
        size = combined(size, part);
    }
    Ok(size)
}

#[cycle(types)]
#[tactic(auto, unfolding(crate::specs::Types::tuple_of))]
fn read_tuple(
    alloc: Global,
    levels: u32,
    scope: &Scope<'_>,
    value: &Value,
    nodes: &mut Seq<Node>,
) -> Result<Size, Failure>
    ensures { GivesWith result nodes.new
        (tuple_of (type_of levels (names_in scope.now)) (view value.now) nodes.old) }
{
    let values = some_items(alloc, value)?;
    let parts = read_parts(alloc, levels, scope, values, nodes)?;
    push_after(alloc, tuple(values), parts, nodes)
}

/// A field, with the size of its type.
#[cycle(types)]
#[tactic(auto, unfolding(crate::specs::Types::field_of))]
fn read_field(
    alloc: Global,
    levels: u32,
    scope: &Scope<'_>,
    value: &Value,
    nodes: &mut Seq<Node>,
) -> Result<(Text, Size), Failure>
    ensures { GivesWith result nodes.new
        (field_of (type_of levels (names_in scope.now)) (view value.now) nodes.old) }
{
    let Some((name, ty)) = pair_items(value) else {
        return Err(fault_here(alloc));
    };
    let name = under(alloc, "0", read_text(alloc, name))?;
    let size = under(alloc, "1", read_type(alloc, levels, scope, ty, nodes))?;
    Ok((name, size))
}

#[cycle(types)]
fn read_fields(
    alloc: Global,
    levels: u32,
    scope: &Scope<'_>,
    values: &[Value],
    nodes: &mut Seq<Node>,
) -> Result<Size, Failure>
    ensures { GivesWith result nodes.new (fields_from (type_of levels (names_in scope.now)) 0
        (items_view values.now) [] nothing nodes.old) }
{
    let mut names = Seq::new(alloc);
    let mut parts = nothing();
    for (index, value) in values.iter().enumerate() {
        let field = read_field(alloc, levels, scope, value, nodes);
        let (name, size) = under_index(alloc, index, field)?;
        names.push(name)?;
        parts = combined(parts, size);
    }
    push_after(alloc, Node::Record(names), parts, nodes)
}

#[cycle(types)]
#[tactic(auto, unfolding(crate::specs::Types::record_of))]
fn read_record(
    alloc: Global,
    levels: u32,
    scope: &Scope<'_>,
    value: &Value,
    nodes: &mut Seq<Node>,
) -> Result<Size, Failure>
    ensures { GivesWith result nodes.new
        (record_of (type_of levels (names_in scope.now)) (view value.now) nodes.old) }
{
    let values = some_items(alloc, value)?;
    read_fields(alloc, levels, scope, values, nodes)
}

/// A case, with the size of its part.
#[cycle(types)]
#[tactic(auto, unfolding(crate::specs::Types::case_of))]
fn read_case(
    alloc: Global,
    levels: u32,
    scope: &Scope<'_>,
    value: &Value,
    nodes: &mut Seq<Node>,
) -> Result<(Case, Size), Failure>
    ensures { GivesWith result nodes.new
        (case_of (type_of levels (names_in scope.now)) (view value.now) nodes.old) }
{
    let Some((name, ty)) = pair_items(value) else {
        return Err(fault_here(alloc));
    };
    let name = under(alloc, "0", read_text(alloc, name))?;
    let size = under(alloc, "1", read_part(alloc, levels, scope, ty, nodes))?;
    let has_type = !ty.is_null();
    Ok((Case { name, has_type }, size))
}

#[cycle(types)]
fn read_cases(
    alloc: Global,
    levels: u32,
    scope: &Scope<'_>,
    values: &[Value],
    nodes: &mut Seq<Node>,
) -> Result<Size, Failure>
    ensures { GivesWith result nodes.new (cases_from (type_of levels (names_in scope.now)) 0
        (items_view values.now) [] nothing nodes.old) }
{
    let mut cases = Seq::new(alloc);
    let mut parts = nothing();
    for (index, value) in values.iter().enumerate() {
        let read = read_case(alloc, levels, scope, value, nodes);
        let (case, size) = under_index(alloc, index, read)?;
        cases.push(case)?;
        parts = combined(parts, size);
    }
    push_after(alloc, Node::Variant(cases), parts, nodes)
}

#[cycle(types)]
#[tactic(auto, unfolding(crate::specs::Types::variant_of))]
fn read_variant(
    alloc: Global,
    levels: u32,
    scope: &Scope<'_>,
    value: &Value,
    nodes: &mut Seq<Node>,
) -> Result<Size, Failure>
    ensures { GivesWith result nodes.new
        (variant_of (type_of levels (names_in scope.now)) (view value.now) nodes.old) }
{
    let values = some_items(alloc, value)?;
    read_cases(alloc, levels, scope, values, nodes)
}

/// The nodes of a type.
#[tactic(auto, unfolding(crate::specs::Types::nodes_of))]
pub(crate) fn read_nodes(
    alloc: Global,
    scope: &Scope<'_>,
    value: &Value,
) -> Result<Seq<Node>, Failure>
    ensures { Gives (λ x. x) result (nodes_of (names_in scope.now) (view value.now)) }
{
    let mut nodes = Seq::new(alloc);
    read_type(alloc, 100, scope, value, &mut nodes)?;
    Ok(nodes)
}
