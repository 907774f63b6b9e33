//! The positions of a record's functions and types in the resolve.

ghost use Rattle.std.specs.Prelude.{◌≡◌, IfOk, Some, option_map};
ghost use Rattle.std.specs.Option.{option_copied, option_and_then};
ghost use Rattle.comp_lists.specs.Found.{found};
ghost use Rattle.world_values.specs.Items.{functions_of, function_in};
ghost use Rattle.wit_data.specs.Live.{named_types};
ghost use Rattle.record_role_targets.specs.Sides.{item_at, interface_of};
ghost use Rattle.record_role_targets.specs.Keys.{interface_key};
ghost use Rattle.record_role_targets.specs.Positions.{at_root, in_interface, position_of, function_at, function_position, type_in, type_at, resource_of};

use crate::keys::interface_key;
use crate::sides::{Side, interface_of, item_at};
use comp_lists::Text;
use record_resolve::Resolved;
use record_values::{InterfaceName, Owner, TypeName};
use std::alloc::{AllocError, Global};
use wit_data::{Function, InterfaceId, TypeId, WorldItem, WorldKey};

/// A position on a side of the world: its key, and the interface there, or none at the root.
#[derive(Debug, Drop)]
pub(crate) struct Position {
    pub key: WorldKey,
    pub interface: Option<InterfaceId>,
}

/// A resource and its position.
#[derive(Debug, Drop)]
pub(crate) struct Resource {
    pub position: Position,
    pub id: TypeId,
}

fn root_position(alloc: Global, name: &Text) -> Result<Position, AllocError>
    ensures { IfOk result (λ p. p ≡ at_root name.now) }
{
    Ok(Position {
        key: WorldKey::Name(name.clone(alloc)?),
        interface: None,
    })
}

/// The position of an interface.
fn interface_position(
    alloc: Global,
    resolved: &Resolved,
    side: Side,
    name: &InterfaceName,
) -> Result<Option<Position>, AllocError>
    ensures { IfOk result (λ p. p
        ≡ option_and_then
        (λ id. option_map (in_interface id) (interface_key side resolved.now id))
        (interface_of side resolved.now name.now)) }
{
    let Some(id) = interface_of(resolved, side, name) else {
        return Ok(None);
    };
    match interface_key(alloc, resolved, side, id)? {
        Some(key) => Ok(Some(Position {
            key,
            interface: Some(id),
        })),
        None => Ok(None),
    }
}

/// The position of an owner's item of a name.
pub(crate) fn position_of(
    alloc: Global,
    resolved: &Resolved,
    side: Side,
    owner: &Owner,
    name: &Text,
) -> Result<Option<Position>, AllocError>
    ensures { IfOk result (λ p. p ≡ position_of side resolved.now owner.now name.now) }
{
    match owner {
        Owner::World => Ok(Some(root_position(alloc, name)?)),
        Owner::Interface(interface) => interface_position(alloc, resolved, side, interface),
    }
}

fn function_in(item: &WorldItem) -> Option<&Function>
    ensures { option_copied result ≡ function_in item.now }
{
    match item {
        WorldItem::Function(function) => Some(function),
        _ => None,
    }
}

fn type_in(item: &WorldItem) -> Option<TypeId>
    ensures { result ≡ type_in item.now }
{
    match item {
        WorldItem::NamedType(id) => Some(*id),
        _ => None,
    }
}

/// The function of an interface by its name.
fn interface_function<'a>(
    resolved: &'a Resolved,
    id: InterfaceId,
    name: &Text,
) -> Option<&'a Function>
    ensures { option_copied result ≡ found name.now (functions_of resolved.now.resolve id) }
{
    let interface = resolved.resolve.interfaces.as_slice().get(id.index)?;
    interface.functions.get(name)
}

/// The type of an interface by its name.
fn interface_type(resolved: &Resolved, id: InterfaceId, name: &Text) -> Option<TypeId>
    ensures { result ≡ found name.now (named_types resolved.now.resolve id) }
{
    let interface = resolved.resolve.interfaces.as_slice().get(id.index)?;
    interface.types.get(name).copied()
}

/// The function of a name at a position.
pub(crate) fn function_at<'a>(
    resolved: &'a Resolved,
    side: Side,
    position: &Position,
    name: &Text,
) -> Option<&'a Function>
    ensures { option_copied result ≡ function_at side resolved.now position.now name.now }
{
    match position.interface {
        None => function_in(item_at(resolved, side, &position.key)?),
        Some(id) => interface_function(resolved, id, name),
    }
}

fn type_at(resolved: &Resolved, side: Side, position: &Position, name: &Text) -> Option<TypeId>
    ensures { result ≡ type_at side resolved.now position.now name.now }
{
    match position.interface {
        None => type_in(item_at(resolved, side, &position.key)?),
        Some(id) => interface_type(resolved, id, name),
    }
}

/// The position at which an owner has a function of a name.
pub(crate) fn function_position(
    alloc: Global,
    resolved: &Resolved,
    side: Side,
    owner: &Owner,
    name: &Text,
) -> Result<Option<Position>, AllocError>
    ensures { IfOk result (λ p. p ≡ function_position side resolved.now owner.now name.now) }
{
    let Some(position) = position_of(alloc, resolved, side, owner, name)? else {
        return Ok(None);
    };
    if function_at(resolved, side, &position, name).is_some() {
        Ok(Some(position))
    } else {
        Ok(None)
    }
}

/// The resource of a name, with its position.
pub(crate) fn resource_of(
    alloc: Global,
    resolved: &Resolved,
    side: Side,
    named: &TypeName,
) -> Result<Option<Resource>, AllocError>
    ensures { IfOk result (λ o. o ≡ resource_of side resolved.now named.now) }
{
    let Some(position) = position_of(alloc, resolved, side, &named.owner, &named.name)? else {
        return Ok(None);
    };
    match type_at(resolved, side, &position, &named.name) {
        Some(id) => Ok(Some(Resource { position, id })),
        None => Ok(None),
    }
}
