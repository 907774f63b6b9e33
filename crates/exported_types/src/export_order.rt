//! The order of exported interfaces: each is exported behind those whose types it uses.
//!
//! Component model, WIT: `use`.
#![tactic(auto)]

ghost use Rattle.std.specs.Prelude.{◌≡◌, ◌<◌, false, true, length, IfErr, IfOk, OnOk, Some, None};
ghost use Rattle.std.specs.List.{AllByRecursion};
ghost use Rattle.std.specs.Map.{lookup};
ghost use Rattle.std.specs.Option.{IfSome, option_copied};
ghost use Rattle.comp_worlds.specs.Encodable.{IsEncodable};
ghost use Rattle.comp_worlds.specs.ExportOrder.{used_exports};
ghost use Rattle.comp_worlds.specs.WorldContents.{exported_item};
ghost use Rattle.exported_types.specs.ExportedTypes.{is_item, IsMissing, IsTypesRefusal};
ghost use Rattle.interface_needs.specs.RootNeeds.{IsExportedInterface};
ghost use Rattle.root_imports.specs.Met.{has_types};
ghost use Rattle.wit_data.specs.Keys.{is_same_key};
ghost use Rattle.wit_data.specs.Sound.{HasAll, HasInterface, IsSound};
ghost use Rattle.wit_data.specs.declared.worlds.WorldItem.TheVariants as items;

use comp_lists::{Keyed, Seq};
use comp_worlds::ComponentWorld;
use core_options::StateFault;
use foreign_types::all_foreign_types;
use root_imports::{MetTypes, RootScope};
use std::alloc::{AllocError, Global};
use wit_data::{Interface, InterfaceId, Resolve, TypeId, TypeOwner, WorldItem, WorldKey};

/// Whether an item is this interface.
fn is_interface(item: &WorldItem, id: InterfaceId) -> bool
    ensures { result ≡ is_item item.now id }
{
    match item {
        WorldItem::Interface(other) => *other == id,
        WorldItem::Function(_) => false,
        WorldItem::NamedType(_) => false,
    }
}

/// The first key of these at which an interface is exported, if it is.
fn key_of(exports: &Keyed<WorldKey, WorldItem>, id: InterfaceId) -> Option<&WorldKey>
    ensures found { IfSome (option_copied result)
        (λ key. lookup (is_same_key key) exports.now ≡ Some (items.Interface id)) }
    ensures none { result ≡ None → AllByRecursion (λ e. is_item e.1 id ≡ false) exports.now }
{
    for (key, item) in exports.iter() {
        if is_interface(item, id) {
            return Some(key);
        }
    }
    None
}

/// The first of these interfaces, in their order, whose types are not all in the tables, if there is one.
fn first_missing(met: &MetTypes, used: &[InterfaceId]) -> Option<InterfaceId>
    ensures missing { IfSome result (IsMissing met.now used.now) }
    ensures all { result ≡ None
        → AllByRecursion (λ other. has_types met.now other ≡ true) used.now }
{
    for other in used {
        if !met.has_types(*other) {
            return Some(*other);
        }
    }
    None
}

/// The interface that a type belongs to, if it is one of these and its types are not all in the tables.
fn missing_owner(
    resolve: &Resolve,
    met: &MetTypes,
    used: &[InterfaceId],
    id: TypeId,
) -> Option<InterfaceId>
    requires present { id.index < length resolve.now.types }
    ensures { IfSome result (IsMissing met.now used.now) }
{
    let TypeOwner::Interface(owner) = resolve.types.as_slice()[id.index].owner else {
        return None;
    };
    if met.has_types(owner) || !used.contains(&owner) {
        return None;
    }
    Some(owner)
}

/// The interface to which the first of these types belongs that belongs to one of those and whose
/// types are not all in the tables.
fn first_owner(
    resolve: &Resolve,
    met: &MetTypes,
    used: &[InterfaceId],
    ids: &[TypeId],
) -> Option<InterfaceId>
    requires present { AllByRecursion (λ id. id.index < length resolve.now.types) ids.now }
    ensures { IfSome result (IsMissing met.now used.now) }
{
    for id in ids {
        let owner = missing_owner(resolve, met, used, *id);
        if owner.is_some() {
            return owner;
        }
    }
    None
}

/// An interface, by its number.
#[tactic(auto, using(wit_data::proofs::Values::all_at))]
fn interface_of(resolve: &Resolve, id: InterfaceId) -> &Interface
    requires sound { IsSound resolve.now }
    requires present { HasInterface resolve.now id }
    ensures { HasAll resolve.now result.now }
{
    &resolve.interfaces.as_slice()[id.index]
}

/// The types of other interfaces of which the types and then the functions of an exported interface are made.
#[tactic(auto, using(crate::proofs::Foreign::each_within))]
fn foreign_types_of(
    alloc: Global,
    world: &ComponentWorld,
    id: InterfaceId,
) -> Result<Seq<TypeId>, AllocError>
    requires valid { IsEncodable world.now }
    requires exported { IsExportedInterface world.now id }
    ensures { IfOk result
        (λ ids. AllByRecursion (λ id. id.index < length world.now.resolve.types) ids) }
{
    let resolve = &world.resolve;
    let interface = interface_of(resolve, id);
    all_foreign_types(alloc, resolve, id, &interface.types, &interface.functions)
}

/// The first of the exported interfaces that this one uses, as its types and then its functions
/// name them, whose types are not all in the tables, if there is one.
fn first_later(
    alloc: Global,
    world: &ComponentWorld,
    met: &MetTypes,
    id: InterfaceId,
) -> Result<Option<InterfaceId>, AllocError>
    requires valid { IsEncodable world.now }
    requires exported { IsExportedInterface world.now id }
    ensures missing { IfOk result
        (λ other. IfSome other (IsMissing met.now (used_exports world.now id))) }
    ensures all { IfOk result (λ other. other ≡ None
        → AllByRecursion (λ other. has_types met.now other ≡ true) (used_exports world.now id)) }
{
    let Some(used) = world.exports_used.get(&id) else {
        return Ok(None);
    };
    let Some(missing) = first_missing(met, used.as_slice()) else {
        return Ok(None);
    };
    let ids = foreign_types_of(alloc, world, id)?;
    let named = first_owner(&world.resolve, met, used.as_slice(), ids.as_slice());
    Ok(Some(named.unwrap_or(missing)))
}

/// Refuses the interface of a key that uses types of another exported one, where these are not all in the tables.
///
/// `E11` with the names of both.
pub(crate) fn check_order(
    root: &RootScope<'_, ComponentWorld>,
    key: &WorldKey,
    id: InterfaceId,
) -> Result<(), StateFault>
    requires valid { IsEncodable root.now.world.now }
    requires item { exported_item root.now.world.now key.now ≡ Some (items.Interface id) }
    ensures all { OnOk result (AllByRecursion (λ other. has_types root.now.met other ≡ true)
        (used_exports root.now.world.now id)) }
    ensures cause { IfErr result (IsTypesRefusal root.now.world.now root.now.met key.now) }
{
    let world = root.world;
    let alloc = root.items.allocator();
    let Some(used) = first_later(alloc, world, &root.met, id)? else {
        return Ok(());
    };
    let interface = world.resolve.name_world_key(alloc, key)?;
    let other = key_of(&world.items().exports, used).unwrap();
    let used = world.resolve.name_world_key(alloc, other)?;
    Err(StateFault::LaterExport { interface, used })
}
