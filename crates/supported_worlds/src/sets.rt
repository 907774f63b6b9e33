//! Whether no interface is imported or exported twice, which interfaces user modules have to
//! export, and whether something has to be exported twice.

ghost use Rattle.std.specs.Prelude.{◌≡◌, ◌++◌, IfOk, OnOk, codes};
ghost use Rattle.std.specs.List.{flat_map};
ghost use Rattle.std.specs.Map.{lookup};
ghost use Rattle.std.specs.Option.{option_and_then, option_copied};
ghost use Rattle.comp_lists.specs.Tables.{with_first};
ghost use Rattle.wit_data.specs.Keys.{is_same_key};
ghost use Rattle.world_values.specs.Mentions.{same_interface, interface_in, interfaces_of};
ghost use Rattle.supported_worlds.specs.Distinct.{are_apart, is_new};
ghost use Rattle.supported_worlds.specs.LeftOut.{unless, are_interfaces_apart, required_of, all_required, required_left_out, twice_left_out};
ghost use Rattle.supported_worlds.specs.Sets.{IsApartSet};

use comp_lists::{Keyed, Seq, Text, TryClone};
use comp_worlds::{WorldAdapter, WorldParts};
use std::alloc::{AllocError, Global};
use wit_data::{InterfaceId, World, WorldItem, WorldKey};

// ---- sets

/// Adds an interface, unless it is there. Whether it was not.
fn put_interface(set: &mut Keyed<InterfaceId, ()>, id: InterfaceId) -> Result<bool, AllocError>
    ensures fresh { IfOk result (λ fresh. fresh ≡ is_new same_interface set.old id) }
    ensures put { OnOk result (set.new ≡ with_first same_interface set.old id tt) }
{
    let fresh = !set.contains_key(&id);
    set.insert_if_absent(id, ())?;
    Ok(fresh)
}

/// The set of these interfaces, unless one occurs twice.
#[tactic(auto, using(crate::proofs::Gathered::set_start, crate::proofs::Gathered::set_step, crate::proofs::Gathered::set_twice, crate::proofs::Gathered::set_end))]
fn apart_set(
    alloc: Global,
    ids: &[InterfaceId],
) -> Result<Option<Keyed<InterfaceId, ()>>, AllocError>
    ensures { IfOk result (IsApartSet ids.now) }
{
    let mut set = Keyed::new(alloc);
    for n in 0..ids.len() {
        if !put_interface(&mut set, ids[n])? {
            return Ok(None);
        }
    }
    Ok(Some(set))
}

// ---- imports and exports

/// The interfaces among imports or exports, in their order.
#[tactic(auto, using(crate::proofs::Gathered::line_start, crate::proofs::Gathered::line_interface, crate::proofs::Gathered::line_function, crate::proofs::Gathered::line_type, crate::proofs::Gathered::line_end))]
fn interfaces_of(
    alloc: Global,
    items: &Keyed<WorldKey, WorldItem>,
) -> Result<Vec<InterfaceId>, AllocError>
    ensures { IfOk result (λ line. line.items ≡ interfaces_of items.now) }
{
    let mut line = Vec::new(alloc);
    for (_, item) in items.iter() {
        if let WorldItem::Interface(id) = item {
            line.push(*id)?;
        }
    }
    Ok(line)
}

/// The interfaces that a world imports, and then those that it exports.
fn world_interfaces(alloc: Global, world: &World) -> Result<Vec<InterfaceId>, AllocError>
    ensures { IfOk result
        (λ line. line.items ≡ interfaces_of world.now.imports ++ interfaces_of world.now.exports) }
{
    let mut line = interfaces_of(alloc, &world.imports)?;
    let exported = interfaces_of(alloc, &world.exports)?;
    line.extend_from_slice(exported.as_slice())?;
    Ok(line)
}

/// Whether no interface is imported or exported twice, nor both. The time is linear in the number
/// of the world's imports and exports.
#[tactic(auto, using(crate::proofs::Gathered::is_apart, crate::proofs::Gathered::is_twice))]
fn are_interfaces_apart(alloc: Global, world: &World) -> Result<bool, AllocError>
    ensures { IfOk result (λ apart. apart ≡ are_interfaces_apart world.now) }
{
    let line = world_interfaces(alloc, world)?;
    match apart_set(alloc, line.as_slice())? {
        Some(_) => Ok(true),
        None => Ok(false),
    }
}

// ---- required exports

/// The interface that is exported at a key, if one is.
pub(crate) fn exported_at(
    exports: &Keyed<WorldKey, WorldItem>,
    key: &WorldKey,
) -> Option<InterfaceId>
    ensures { result ≡ option_and_then interface_in (lookup (is_same_key key.now) exports.now) }
{
    match exports.get(key) {
        Some(WorldItem::Interface(id)) => Some(*id),
        _ => None,
    }
}

/// The interfaces that are exported at these keys, in their order.
#[tactic(auto, using(crate::proofs::Gathered::required_start, crate::proofs::Gathered::required_some, crate::proofs::Gathered::required_none, crate::proofs::Gathered::required_end))]
fn required_of(
    alloc: Global,
    exports: &Keyed<WorldKey, WorldItem>,
    keys: &[WorldKey],
) -> Result<Vec<InterfaceId>, AllocError>
    ensures { IfOk result (λ line. line.items ≡ required_of exports.now keys.now) }
{
    let mut line = Vec::new(alloc);
    for key in keys {
        if let Some(id) = exported_at(exports, key) {
            line.push(id)?;
        }
    }
    Ok(line)
}

/// The set of the interfaces that are exported at these keys, unless one occurs twice.
pub(crate) fn required_set(
    alloc: Global,
    exports: &Keyed<WorldKey, WorldItem>,
    keys: &[WorldKey],
) -> Result<Option<Keyed<InterfaceId, ()>>, AllocError>
    ensures { IfOk result (IsApartSet (required_of exports.now keys.now)) }
{
    let line = required_of(alloc, exports, keys)?;
    let set = apart_set(alloc, line.as_slice())?;
    Ok(set)
}

// ---- keys

/// Adds a key, unless it is there. Whether it was not.
fn put_key(set: &mut Keyed<WorldKey, ()>, key: WorldKey) -> Result<bool, AllocError>
    ensures fresh { IfOk result (λ fresh. fresh ≡ is_new is_same_key set.old key) }
    ensures put { OnOk result (set.new ≡ with_first is_same_key set.old key tt) }
{
    let fresh = !set.contains_key(&key);
    set.insert_if_absent(key, ())?;
    Ok(fresh)
}

/// Whether no key occurs twice.
#[tactic(auto, using(crate::proofs::Keys::keys_start, crate::proofs::Keys::keys_step, crate::proofs::Keys::keys_stop, crate::proofs::Keys::keys_end))]
fn are_keys_apart(alloc: Global, keys: &[WorldKey]) -> Result<bool, AllocError>
    ensures { IfOk result (λ apart. apart ≡ are_apart is_same_key keys.now) }
{
    let mut set = Keyed::new(alloc);
    for n in 0..keys.len() {
        let key = keys[n].try_clone(alloc)?;
        if !put_key(&mut set, key)? {
            return Ok(false);
        }
    }
    Ok(true)
}

/// What is left out of keys that occur twice.
fn keys_left_out(alloc: Global, keys: &[WorldKey]) -> Result<Option<&'static str>, AllocError>
    ensures { IfOk result
        (λ o. option_copied o ≡ unless (are_apart is_same_key keys.now) (codes "world-func")) }
{
    if are_keys_apart(alloc, keys)? {
        Ok(None)
    } else {
        Ok(Some("world-func"))
    }
}

/// What is left out of the keys that have to be exported: an interface or a function among them
/// that has to be exported twice.
#[tactic(auto, using(crate::proofs::Keys::once_found, crate::proofs::Keys::twice_found))]
fn required_left_out(
    alloc: Global,
    exports: &Keyed<WorldKey, WorldItem>,
    keys: &[WorldKey],
) -> Result<Option<&'static str>, AllocError>
    ensures { IfOk result (λ o. option_copied o ≡ required_left_out exports.now keys.now) }
{
    match required_set(alloc, exports, keys)? {
        Some(_) => {
            let found = keys_left_out(alloc, keys)?;
            Ok(found)
        }
        None => Ok(Some("interface")),
    }
}

/// The keys that main has to export, and then those of the adapters in order.
#[tactic(auto, using(crate::proofs::Keys::all_start, crate::proofs::Keys::all_step, crate::proofs::Keys::all_end))]
fn all_required(
    alloc: Global,
    main: &Seq<WorldKey>,
    adapters: &Keyed<Text, WorldAdapter>,
) -> Result<Seq<WorldKey>, AllocError>
    ensures { IfOk result
        (λ keys. keys ≡ main.now ++ flat_map (λ a. a.1.required_exports) adapters.now) }
{
    let mut keys = main.clone(alloc)?;
    for (_, adapter) in adapters.iter() {
        let more = adapter.required_exports.clone(alloc)?;
        keys.append(more)?;
    }
    Ok(keys)
}

/// What is left out of a world where something is imported, exported or required twice.
#[tactic(auto, using(crate::proofs::Keys::interface_twice, crate::proofs::Keys::interfaces_once))]
pub(crate) fn twice_left_out(
    alloc: Global,
    parts: &WorldParts,
    world: &World,
) -> Result<Option<&'static str>, AllocError>
    ensures { IfOk result
        (λ o. option_copied o ≡ twice_left_out (all_required parts.now) world.now) }
{
    if !are_interfaces_apart(alloc, world)? {
        return Ok(Some("interface"));
    }
    let keys = all_required(alloc, &parts.main_exports, &parts.adapters)?;
    let found = required_left_out(alloc, &world.exports, keys.as_slice())?;
    Ok(found)
}
