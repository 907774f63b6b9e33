//! Functions and resources that a side of the world has.

ghost use Rattle.std.specs.Prelude.{◌≡◌, IfOk};
ghost use Rattle.std.specs.Option.{option_copied};
ghost use Rattle.record_sides.specs.Sides.{items_of, is_on_side, is_present, owner_at, function_in, world_function, interface_function, function_at, is_resource, world_resource, interface_resource, resource_at};

use crate::indexed::{IndexedInterface, RecordWorld};
use comp_lists::{Keyed, Text, TryClone};
use record_values::{Func, Item, ItemKey, Node, Owner};
use std::alloc::{AllocError, Global};

/// A side of the world: its imports, or its exports.
#[derive(Clone, Copy, PartialEq, Eq)]
pub enum Side {
    Import,
    Export,
}

fn items_of(world: &RecordWorld, side: Side) -> &Keyed<ItemKey, Item>
    ensures { result.now ≡ items_of world.now side }
{
    match side {
        Side::Import => &world.wit.imports,
        Side::Export => &world.wit.exports,
    }
}

fn is_on_side(interface: &IndexedInterface, side: Side) -> bool
    ensures { result ≡ is_on_side side interface.now }
{
    match side {
        Side::Import => interface.is_imported,
        Side::Export => interface.is_exported,
    }
}

/// Whether a side has the interface at this index.
pub(crate) fn is_present(world: &RecordWorld, side: Side, index: usize) -> bool
    ensures { result ≡ is_present world.now side index }
{
    match world.interfaces.as_slice().get(index) {
        Some(interface) => is_on_side(interface, side),
        None => false,
    }
}

/// The interface at an index, or the world itself where there is none. The only refusal is out of memory.
pub fn owner_at(
    alloc: Global,
    world: &RecordWorld,
    index: Option<usize>,
) -> Result<Owner, AllocError>
    ensures { IfOk result (λ o. o ≡ owner_at world.now index) }
{
    let Some(index) = index else {
        return Ok(Owner::World);
    };
    match world.interfaces.as_slice().get(index) {
        Some(interface) => Ok(Owner::Interface(interface.name.try_clone(alloc)?)),
        None => Ok(Owner::World),
    }
}

fn function_in(item: &Item) -> Option<&Func>
    ensures { option_copied result ≡ function_in item.now }
{
    match item {
        Item::Function(function) => Some(function),
        _ => None,
    }
}

/// A function of the world itself.
fn world_function<'w>(
    alloc: Global,
    world: &'w RecordWorld,
    side: Side,
    name: &Text,
) -> Result<Option<&'w Func>, AllocError>
    ensures { IfOk result (λ f. option_copied f ≡ world_function world.now side name.now) }
{
    let key = ItemKey::Name(name.clone(alloc)?);
    match items_of(world, side).get(&key) {
        Some(item) => Ok(function_in(item)),
        None => Ok(None),
    }
}

/// A function of an interface.
fn interface_function<'w>(
    world: &'w RecordWorld,
    interface: &IndexedInterface,
    name: &Text,
) -> Option<&'w Func>
    ensures { option_copied result ≡ interface_function world.now interface.now name.now }
{
    let index = *interface.functions.get(name)?;
    let found = world.wit.interfaces.get(&interface.name)?;
    found.functions.as_slice().get(index)
}

/// The function of this name that the owner at an index has. The only refusal is out of memory.
pub fn function_at<'w>(
    alloc: Global,
    world: &'w RecordWorld,
    side: Side,
    index: Option<usize>,
    name: &Text,
) -> Result<Option<&'w Func>, AllocError>
    ensures { IfOk result (λ f. option_copied f ≡ function_at world.now side index name.now) }
{
    let Some(index) = index else {
        return world_function(alloc, world, side, name);
    };
    match world.interfaces.as_slice().get(index) {
        Some(interface) => Ok(interface_function(world, interface, name)),
        None => Ok(None),
    }
}

fn is_resource(item: &Item) -> bool
    ensures { result ≡ is_resource item.now }
{
    match item {
        Item::Type(nodes) => match nodes.as_slice() {
            [node] => matches!(node, Node::Resource),
            _ => false,
        },
        _ => false,
    }
}

fn world_resource(
    alloc: Global,
    world: &RecordWorld,
    side: Side,
    name: &Text,
) -> Result<bool, AllocError>
    ensures { IfOk result (λ b. b ≡ world_resource world.now side name.now) }
{
    let key = ItemKey::Name(name.clone(alloc)?);
    match items_of(world, side).get(&key) {
        Some(item) => Ok(is_resource(item)),
        None => Ok(false),
    }
}

fn interface_resource(interface: &IndexedInterface, name: &Text) -> bool
    ensures { result ≡ interface_resource interface.now name.now }
{
    match interface.types.get(name) {
        Some(is_resource) => *is_resource,
        None => false,
    }
}

/// Whether the owner at an index has a resource of this name.
pub(crate) fn resource_at(
    alloc: Global,
    world: &RecordWorld,
    side: Side,
    index: Option<usize>,
    name: &Text,
) -> Result<bool, AllocError>
    ensures { IfOk result (λ b. b ≡ resource_at world.now side index name.now) }
{
    let Some(index) = index else {
        return world_resource(alloc, world, side, name);
    };
    match world.interfaces.as_slice().get(index) {
        Some(interface) => Ok(interface_resource(interface, name)),
        None => Ok(false),
    }
}
