//! Keys of a world's imports and exports.

ghost use Rattle.std.specs.Prelude.{◌≡◌, false, is_some, IfOk};
ghost use Rattle.std.specs.Option.{option_map_or};
ghost use Rattle.record_role_targets.specs.Sides.{item_at};
ghost use Rattle.record_role_targets.specs.Keys.{existing, resolved_key, resolved_export_key, is_interface, first_key, interface_key};
ghost use Rattle.record_values.specs.declared.world.ItemKey.TheVariants as item_keys;

use crate::sides::{Side, interface_keys, interface_of, item_at};
use comp_lists::{SharedText, Text, TryClone};
use record_resolve::Resolved;
use record_values::{InterfaceName, ItemKey};
use std::alloc::{AllocError, Global};
use wit_data::{InterfaceId, WorldItem, WorldKey};
use world_values::ExportKey;

fn existing(resolved: &Resolved, side: Side, key: WorldKey) -> Option<WorldKey>
    ensures { result ≡ existing side resolved.now key }
{
    if item_at(resolved, side, &key).is_some() {
        Some(key)
    } else {
        None
    }
}

/// The key of a plain name.
fn resolve_name(
    alloc: Global,
    resolved: &Resolved,
    side: Side,
    name: &Text,
) -> Result<Option<WorldKey>, AllocError>
    ensures { IfOk result (λ k. k ≡ resolved_key side resolved.now (item_keys.Name name.now)) }
{
    let key = WorldKey::Name(name.clone(alloc)?);
    Ok(existing(resolved, side, key))
}

/// The key of the interface with this id.
fn resolve_id(resolved: &Resolved, side: Side, id: SharedText) -> Option<WorldKey>
    ensures { result ≡ resolved_key side resolved.now (item_keys.Interface id) }
{
    let name = InterfaceName::Id(id);
    match interface_of(resolved, side, &name) {
        Some(interface) => existing(resolved, side, WorldKey::Interface(interface)),
        None => None,
    }
}

/// What the key of a record resolves to on a side of the resolved world: a plain name is itself, an id
/// is resolved to its interface. It is none where the side has no item there. The only refusal is out
/// of memory.
pub fn resolved_key(
    alloc: Global,
    resolved: &Resolved,
    side: Side,
    key: &ItemKey,
) -> Result<Option<WorldKey>, AllocError>
    ensures { IfOk result (λ k. k ≡ resolved_key side resolved.now key.now) }
{
    match key {
        ItemKey::Name(name) => resolve_name(alloc, resolved, side, name),
        ItemKey::Interface(id) => {
            let id = id.try_clone(alloc)?;
            Ok(resolve_id(resolved, side, id))
        }
    }
}

/// What the key of a required export resolves to. It is none where the world doesn't export it. The
/// only refusal is out of memory.
pub fn resolved_export_key(
    alloc: Global,
    resolved: &Resolved,
    key: &ExportKey,
) -> Result<Option<WorldKey>, AllocError>
    ensures { IfOk result (λ k. k ≡ resolved_export_key resolved.now key.now) }
{
    match key {
        ExportKey::Name(name) => resolve_name(alloc, resolved, Side::Exported, name),
        ExportKey::Interface(id) => {
            let id = SharedText::from_str(alloc, id.as_str())?;
            Ok(resolve_id(resolved, Side::Exported, id))
        }
    }
}

fn is_interface(id: InterfaceId, item: &WorldItem) -> bool
    ensures { result ≡ is_interface id item.now }
{
    match item {
        WorldItem::Interface(other) => id == *other,
        WorldItem::Function(_) => false,
        WorldItem::NamedType(_) => false,
    }
}

/// Whether a side has an interface at a key.
fn is_interface_at(resolved: &Resolved, side: Side, key: &WorldKey, id: InterfaceId) -> bool
    ensures { result ≡ option_map_or (is_interface id) (item_at side resolved.now key.now) false }
{
    match item_at(resolved, side, key) {
        Some(item) => is_interface(id, item),
        None => false,
    }
}

/// The name under which a side of the world has an interface.
fn first_key(
    alloc: Global,
    resolved: &Resolved,
    side: Side,
    id: InterfaceId,
) -> Result<Option<WorldKey>, AllocError>
    ensures { IfOk result (λ k. k ≡ first_key side resolved.now id) }
{
    let Some(key) = interface_keys(resolved, side).get(&id) else {
        return Ok(None);
    };
    if !is_interface_at(resolved, side, key, id) {
        return Ok(None);
    }
    Ok(Some(key.try_clone(alloc)?))
}

/// The key of an interface of a side of the world.
pub(crate) fn interface_key(
    alloc: Global,
    resolved: &Resolved,
    side: Side,
    id: InterfaceId,
) -> Result<Option<WorldKey>, AllocError>
    ensures { IfOk result (λ k. k ≡ interface_key side resolved.now id) }
{
    let own = WorldKey::Interface(id);
    if is_interface_at(resolved, side, &own, id) {
        return Ok(Some(own));
    }
    first_key(alloc, resolved, side, id)
}
