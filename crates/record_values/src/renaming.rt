//! Interfaces that are replaced by others, and all references to them.

ghost use Rattle.std.specs.Prelude.{◌≡◌, IfOk, map};
ghost use Rattle.record_values.specs.Renaming.{renamed, renamed_owner, renamed_type, renamed_node, renamed_nodes, renamed_typed, renamed_function, renamed_interface, renamed_item};

use crate::names::{InterfaceName, Owner, TypeName};
use crate::types::{Func, Interface, Node, Typed};
use crate::world::Item;
use comp_lists::{Keyed, Seq, TryClone};
use std::alloc::{AllocError, Global};

/// Interfaces with those that replace them.
type Renames = Keyed<InterfaceName, InterfaceName>;

/// The interface that replaces this one. The only error, here and below, is out of memory.
pub fn rename_name(
    alloc: Global,
    renames: &Renames,
    name: &InterfaceName,
) -> Result<InterfaceName, AllocError>
    ensures { IfOk result (λ n. n ≡ renamed renames.now name.now) }
{
    match renames.get(name) {
        Some(other) => other.try_clone(alloc),
        None => name.try_clone(alloc),
    }
}

fn rename_owner(alloc: Global, renames: &Renames, owner: &Owner) -> Result<Owner, AllocError>
    ensures { IfOk result (λ o. o ≡ renamed_owner renames.now owner.now) }
{
    match owner {
        Owner::World => Ok(Owner::World),
        Owner::Interface(name) => Ok(Owner::Interface(rename_name(alloc, renames, name)?)),
    }
}

fn rename_type(alloc: Global, renames: &Renames, named: &TypeName) -> Result<TypeName, AllocError>
    ensures { IfOk result (λ t. t ≡ renamed_type renames.now named.now) }
{
    Ok(TypeName {
        owner: rename_owner(alloc, renames, &named.owner)?,
        name: named.name.clone(alloc)?,
    })
}

fn rename_node(alloc: Global, renames: &Renames, node: &Node) -> Result<Node, AllocError>
    ensures { IfOk result (λ n. n ≡ renamed_node renames.now node.now) }
{
    match node {
        Node::Own(named) => Ok(Node::Own(rename_type(alloc, renames, named)?)),
        Node::Borrow(named) => Ok(Node::Borrow(rename_type(alloc, renames, named)?)),
        Node::Named(named) => Ok(Node::Named(rename_type(alloc, renames, named)?)),
        _ => node.try_clone(alloc),
    }
}

/// A type with its references renamed.
fn rename_nodes(alloc: Global, renames: &Renames, nodes: &[Node]) -> Result<Seq<Node>, AllocError>
    ensures { IfOk result (λ ns. ns ≡ renamed_nodes renames.now nodes.now) }
{
    let mut renamed = Seq::new(alloc);
    for node in nodes {
        renamed.push(rename_node(alloc, renames, node)?)?;
    }
    Ok(renamed)
}

fn rename_typed(alloc: Global, renames: &Renames, typed: &Typed) -> Result<Typed, AllocError>
    ensures { IfOk result (λ t. t ≡ renamed_typed renames.now typed.now) }
{
    Ok(Typed {
        name: typed.name.clone(alloc)?,
        nodes: rename_nodes(alloc, renames, typed.nodes.as_slice())?,
    })
}

fn rename_types(alloc: Global, renames: &Renames, types: &[Typed]) -> Result<Seq<Typed>, AllocError>
    ensures { IfOk result (λ ts. ts ≡ map (renamed_typed renames.now) types.now) }
{
    let mut renamed = Seq::new(alloc);
    for typed in types {
        renamed.push(rename_typed(alloc, renames, typed)?)?;
    }
    Ok(renamed)
}

fn rename_function(alloc: Global, renames: &Renames, function: &Func) -> Result<Func, AllocError>
    ensures { IfOk result (λ f. f ≡ renamed_function renames.now function.now) }
{
    let name = function.name.clone(alloc)?;
    let params = rename_types(alloc, renames, function.params.as_slice())?;
    let result = match &function.result {
        Some(nodes) => Some(rename_nodes(alloc, renames, nodes.as_slice())?),
        None => None,
    };
    Ok(Func {
        name,
        is_async: function.is_async,
        params,
        result,
    })
}

fn rename_functions(
    alloc: Global,
    renames: &Renames,
    functions: &[Func],
) -> Result<Seq<Func>, AllocError>
    ensures { IfOk result (λ fs. fs ≡ map (renamed_function renames.now) functions.now) }
{
    let mut renamed = Seq::new(alloc);
    for function in functions {
        renamed.push(rename_function(alloc, renames, function)?)?;
    }
    Ok(renamed)
}

/// An interface with its references renamed.
pub fn rename_interface(
    alloc: Global,
    renames: &Renames,
    interface: &Interface,
) -> Result<Interface, AllocError>
    ensures { IfOk result (λ i. i ≡ renamed_interface renames.now interface.now) }
{
    Ok(Interface {
        types: rename_types(alloc, renames, interface.types.as_slice())?,
        functions: rename_functions(alloc, renames, interface.functions.as_slice())?,
    })
}

/// An item of a world with all its references renamed.
pub fn rename_item(alloc: Global, renames: &Renames, item: &Item) -> Result<Item, AllocError>
    ensures { IfOk result (λ i. i ≡ renamed_item renames.now item.now) }
{
    match item {
        Item::Interface(name) => Ok(Item::Interface(rename_name(alloc, renames, name)?)),
        Item::Function(function) => Ok(Item::Function(rename_function(alloc, renames, function)?)),
        Item::Type(nodes) => Ok(Item::Type(rename_nodes(alloc, renames, nodes.as_slice())?)),
    }
}
