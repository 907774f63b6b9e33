//! The type that a list of nodes makes.

ghost use Rattle.std.specs.Prelude.{◌≡◌, ◌≤◌, [], length, take, drop, IfOk};
ghost use Rattle.json_paths.specs.Faults.{Gives};
ghost use Rattle.record_resolve.specs.Kinds.{kind};
ghost use Rattle.record_resolve.specs.Steps.{Becomes, Makes};
ghost use Rattle.record_resolve.specs.Types.{top_of, after_compound, after_node, step, after_nodes, only, type_of, last_kind, kind_before, kind_of, type_name, new_type};

use crate::kinds::{arity, make_kind};
use crate::making::{Making, Side};
use comp_lists::{Seq, Text, TryClone};
use json_paths::{Failure, fault_here};
use record_values::{Node, Owner, TypeName};
use std::alloc::{AllocError, Global};
use wit_data::{Type, TypeDefKind, TypeId, TypeOwner};

/// The position in a stack at which the last so many begin.
fn top_of(alloc: Global, count: usize, stack: &[Type]) -> Result<usize, Failure>
    ensures { Gives (λ n. n) result (top_of count stack.now) }
{
    if stack.len() < count {
        return Err(fault_here(alloc));
    }
    Ok(stack.len() - count)
}

fn kind_at(
    alloc: Global,
    making: &Making,
    side: Side,
    node: &Node,
    stack: &[Type],
    at: usize,
) -> Result<TypeDefKind, Failure>
    ensures { Gives (λ k. k) result (kind making.now side node.now (drop at stack.now)) }
{
    if at <= stack.len() {
        make_kind(alloc, making, side, node, &stack[at..])
    } else {
        make_kind(alloc, making, side, node, &[])
    }
}

/// Replaces the parts of a node on the stack by the type of the node.
#[tactic(auto, unfolding(crate::specs::Types::after_compound))]
fn push_compound(
    alloc: Global,
    making: &mut Making,
    side: Side,
    node: &Node,
    stack: &mut Vec<Type>,
) -> Result<(), Failure>
    ensures { Becomes result (stack.new.items, making.new)
        (after_compound side node.now stack.old.items making.old) }
{
    let at = top_of(alloc, arity(node), stack.as_slice())?;
    let kind = kind_at(alloc, making, side, node, stack.as_slice(), at)?;
    let id = making.share(alloc, kind)?;
    stack.truncate(at);
    stack.push(Type::Id(id))?;
    Ok(())
}

/// The stack after a node.
#[tactic(auto, unfolding(crate::specs::Types::step))]
fn push_node(
    alloc: Global,
    making: &mut Making,
    side: Side,
    node: &Node,
    stack: &mut Vec<Type>,
) -> Result<(), Failure>
    ensures { Becomes result (stack.new.items, making.new)
        (step side node.now (stack.old.items, making.old)) }
{
    match node {
        Node::Primitive(primitive) => {
            stack.push(Type::Primitive(*primitive))?;
            Ok(())
        }
        Node::Named(named) => {
            let id = making.find(alloc, side, named)?;
            stack.push(Type::Id(id))?;
            Ok(())
        }
        Node::Resource => Err(fault_here(alloc)),
        _ => push_compound(alloc, making, side, node, stack),
    }
}

fn push_nodes(
    alloc: Global,
    making: &mut Making,
    side: Side,
    nodes: &[Node],
) -> Result<Seq<Type>, Failure>
    ensures { Makes result making.new (after_nodes side nodes.now ([], making.old)) }
{
    let mut stack = Vec::new(alloc);
    for node in nodes {
        push_node(alloc, making, side, node, &mut stack)?;
    }
    Ok(Seq::from_vec(stack))
}

fn only(alloc: Global, stack: &[Type]) -> Result<Type, Failure>
    ensures { Gives (λ t. t) result (only stack.now) }
{
    match stack {
        [ty] => Ok(*ty),
        _ => Err(fault_here(alloc)),
    }
}

/// The type that is a parameter, a result or a part.
#[tactic(auto, unfolding(crate::specs::Types::type_of))]
pub(crate) fn make_type(
    alloc: Global,
    making: &mut Making,
    side: Side,
    nodes: &[Node],
) -> Result<Type, Failure>
    ensures { Makes result making.new (type_of side nodes.now making.old) }
{
    let stack = push_nodes(alloc, making, side, nodes)?;
    only(alloc, stack.as_slice())
}

fn last_kind(
    alloc: Global,
    making: &Making,
    side: Side,
    last: &Node,
    stack: &[Type],
) -> Result<TypeDefKind, Failure>
    ensures { Gives (λ k. k) result (last_kind side last.now stack.now making.now) }
{
    if stack.len() == arity(last) {
        make_kind(alloc, making, side, last, stack)
    } else {
        Err(fault_here(alloc))
    }
}

#[tactic(auto, unfolding(crate::specs::Types::kind_before))]
fn kind_before(
    alloc: Global,
    making: &mut Making,
    side: Side,
    last: &Node,
    front: &[Node],
) -> Result<TypeDefKind, Failure>
    ensures { Makes result making.new (kind_before side last.now front.now making.old) }
{
    let stack = push_nodes(alloc, making, side, front)?;
    last_kind(alloc, making, side, last, stack.as_slice())
}

/// The kind of a named type.
fn named_kind(
    alloc: Global,
    making: &mut Making,
    side: Side,
    nodes: &[Node],
) -> Result<TypeDefKind, Failure>
    ensures { Makes result making.new (kind_of side nodes.now making.old) }
{
    if nodes.is_empty() {
        return Err(fault_here(alloc));
    }
    let last = nodes.len() - 1;
    kind_before(alloc, making, side, &nodes[last], &nodes[..last])
}

pub(crate) fn type_name(alloc: Global, owner: &Owner, name: &str) -> Result<TypeName, AllocError>
    ensures { IfOk result (λ t. t ≡ type_name owner.now name.now) }
{
    Ok(TypeName {
        owner: owner.try_clone(alloc)?,
        name: Text::from_str(alloc, name)?,
    })
}

/// A named type, which is always a new one.
#[tactic(auto, unfolding(crate::specs::Types::new_type))]
pub(crate) fn make_named(
    alloc: Global,
    making: &mut Making,
    side: Side,
    owner: &Owner,
    at: TypeOwner,
    name: &Text,
    nodes: &[Node],
) -> Result<TypeId, Failure>
    ensures { Makes result making.new (new_type side owner.now at name.now nodes.now making.old) }
{
    let named = type_name(alloc, owner, name.as_str())?;
    let text = name.clone(alloc)?;
    let kind = named_kind(alloc, making, side, nodes)?;
    let id = making.push_type(Some(text), kind, at)?;
    making.add_name(alloc, side, named, id)?;
    Ok(id)
}
