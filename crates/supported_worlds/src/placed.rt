//! Whether what a world imports is made of types that come before it, and lists types of its own;
//! and whether the interfaces that it exports are made of their own types, of named types of
//! interfaces that it only imports, and of types without names alone.

ghost use Rattle.std.specs.Prelude.{◌≡◌, ◌<◌, ◌==◌, false, length, map, Some, IfSome, IfOk};
ghost use Rattle.std.specs.List.{AllByRecursion, list_all};
ghost use Rattle.std.specs.Option.{option_copied, option_map_or};
ghost use Rattle.std.specs.Str.{bytes_eq};
ghost use Rattle.wit_data.specs.Parts.{parts, RefersBack};
ghost use Rattle.wit_data.specs.Sound.{IsSound, HasInterface, HasItem, HasEntry, HasTypeId, HasWorld};
ghost use Rattle.wit_data.specs.Values.{kind_at};
ghost use Rattle.world_values.specs.Mentions.{interface_types};
ghost use Rattle.comp_worlds.specs.Encodable.{is_lent, stays_in};
ghost use Rattle.comp_worlds.specs.WorldContents.{interface_of_owner, interface_at, name_at};
ghost use Rattle.supported_worlds.specs.Homes.{is_at_home};
ghost use Rattle.supported_worlds.specs.LeftOut.{order_left_out};
ghost use Rattle.supported_worlds.specs.Placed.{is_by, is_named_as, is_listed_as, is_listed_in, is_type_placed, are_types_placed, is_function_placed, is_own_type, ascend_from, lists_own_types, is_interface_placed, is_exported_placed, is_root_type, is_item_placed, are_imports_placed, is_export_placed, are_exports_placed, is_world_placed};
ghost use Rattle.supported_worlds.specs.PlaceTables.{ArePlaces, place_by};

use crate::homes::{Home, are_at_home, type_homes};
use crate::places::{Places, place_at, place_of_interface};
use comp_lists::{Keyed, Text};
use std::alloc::{AllocError, Global};
use wit_data::{
    Function, InterfaceId, Param, Resolve, Type, TypeDef, TypeDefKind, TypeId, TypeOwner, World,
    WorldItem, WorldKey, kind_of, part_count_of, part_of,
};
use world_tables::{interface_of, interface_types};

/// Whether a part of a type has this place or an earlier one.
fn is_by(places: &[usize], last: usize, part: Option<Type>) -> bool
    ensures { result ≡ is_by places.now last part }
{
    place_at(places, part) <= last
}

// ---- types

/// Whether all parts of the type with an index have this place or an earlier one.
#[tactic(auto, using(crate::proofs::Testing::part_step, crate::proofs::Testing::part_late, crate::proofs::Testing::parts_end))]
fn are_parts_by(types: &[TypeDef], places: &[usize], last: usize, id: usize) -> bool
    requires back { RefersBack types.now }
    requires present { id < length types.now }
    ensures { result ≡ list_all (is_by places.now last) (parts (kind_at types.now id)) }
{
    for n in 0..part_count_of(types, id) {
        if !is_by(places, last, part_of(types, id, n)) {
            return false;
        }
    }
    true
}

/// The name of the type with an index.
#[tactic(auto, using(crate::proofs::Testing::name_there))]
fn name_at(types: &[TypeDef], id: usize) -> &Option<Text>
    requires { id < length types.now }
    ensures { result.now ≡ name_at types.now id }
{
    &types[id].name
}

/// The interface to which a type belongs, if it belongs to one.
pub(crate) fn interface_of_owner(owner: TypeOwner) -> Option<InterfaceId>
    ensures { result ≡ interface_of_owner owner }
{
    match owner {
        TypeOwner::Interface(id) => Some(id),
        TypeOwner::World(_) | TypeOwner::None => None,
    }
}

/// The interface of the type with an index.
#[tactic(auto, using(crate::proofs::Testing::interface_there, crate::proofs::Testing::interface_present))]
fn interface_at(resolve: &Resolve, id: usize) -> Option<InterfaceId>
    requires sound { IsSound resolve.now }
    requires inside { id < length resolve.now.types }
    ensures interface { result ≡ interface_at resolve.now.types id }
    ensures present { IfSome result (HasInterface resolve.now) }
{
    let interface = interface_of_owner(resolve.types.as_slice()[id].owner);
    interface
}

/// Whether a resource has a name.
fn is_named_as(kind: &TypeDefKind, name: &Option<Text>) -> bool
    ensures { result ≡ is_named_as kind.now name.now }
{
    match kind {
        TypeDefKind::Resource => name.is_some(),
        _ => true,
    }
}

/// Whether the type with an index is listed under a name.
fn is_listed_as(types: &Keyed<Text, TypeId>, id: usize, name: &Text) -> bool
    ensures { result ≡ is_listed_as types.now id name.now }
{
    match types.get(name) {
        Some(listed) => listed.index == id,
        None => false,
    }
}

/// Whether the type with an index is listed in the interface to which it belongs, if it belongs to one.
fn is_listed_at(resolve: &Resolve, id: usize) -> bool
    requires sound { IsSound resolve.now }
    requires present { id < length resolve.now.types }
    ensures { result ≡ is_listed_in resolve.now id (interface_at resolve.now.types id) }
{
    match (
        interface_at(resolve, id),
        name_at(resolve.types.as_slice(), id),
    ) {
        (Some(interface), Some(name)) => {
            is_listed_as(&interface_of(resolve, interface).types, id, name)
        }
        (Some(_), None) => false,
        (None, _) => true,
    }
}

/// Whether the type with an index is made of types that have no later place, and is listed where it belongs.
fn is_type_placed(resolve: &Resolve, places: &[usize], id: usize) -> bool
    requires sound { IsSound resolve.now }
    requires present { id < length resolve.now.types }
    ensures { result ≡ is_type_placed resolve.now places.now id }
{
    let types = resolve.types.as_slice();
    let place = place_at(places, Some(Type::Id(TypeId { index: id })));
    are_parts_by(types, places, place, id)
        && is_named_as(kind_of(types, id), name_at(types, id))
        && is_listed_at(resolve, id)
}

/// Whether all types are.
#[tactic(auto, using(crate::proofs::Testing::types_start, crate::proofs::Testing::types_step, crate::proofs::Testing::types_stop, crate::proofs::Testing::types_end))]
fn are_types_placed(resolve: &Resolve, places: &[usize]) -> bool
    requires { IsSound resolve.now }
    ensures { result ≡ are_types_placed resolve.now places.now (length resolve.now.types) }
{
    for id in 0..resolve.types.len() {
        if !is_type_placed(resolve, places, id) {
            return false;
        }
    }
    true
}

// ---- items

/// Whether the types of these parameters have this place or an earlier one.
fn are_params_by(places: &[usize], last: usize, params: &[Param]) -> bool
    ensures { result ≡ list_all (λ p. is_by places.now last (Some p.ty)) params.now }
{
    for param in params {
        if !is_by(places, last, Some(param.ty)) {
            return false;
        }
    }
    true
}

/// Whether a function is made of types that have this place or an earlier one.
fn is_function_placed(places: &[usize], last: usize, function: &Function) -> bool
    ensures { result ≡ is_function_placed places.now last function.now }
{
    are_params_by(places, last, function.params.as_slice()) && is_by(places, last, function.result)
}

/// Whether these functions are.
fn are_functions_placed(places: &[usize], last: usize, functions: &Keyed<Text, Function>) -> bool
    ensures { result ≡ list_all (λ f. is_function_placed places.now last f.1) functions.now }
{
    for (_, function) in functions.iter() {
        if !is_function_placed(places, last, function) {
            return false;
        }
    }
    true
}

/// Whether a type belongs to an interface.
fn belongs_to(owner: TypeOwner, id: InterfaceId) -> bool
    ensures { result
        ≡ option_map_or (λ other. other.index == id.index) (interface_of_owner owner) false }
{
    match interface_of_owner(owner) {
        Some(other) => other.index == id.index,
        None => false,
    }
}

/// Whether a name is there, and is this one.
fn is_name(own: &Option<Text>, name: &Text) -> bool
    ensures { result ≡ option_map_or (λ own. bytes_eq own name.now) own.now false }
{
    match own {
        Some(own) => *own == *name,
        None => false,
    }
}

/// Whether a type that an interface lists is its own.
fn is_own_type(types: &[TypeDef], id: InterfaceId, name: &Text, listed: TypeId) -> bool
    ensures { result ≡ is_own_type types.now id (name.now, listed) }
{
    match types.get(listed.index) {
        Some(def) => belongs_to(def.owner, id) && is_name(&def.name, name),
        None => false,
    }
}

/// Whether all types that an interface lists are its own.
fn are_own_types(types: &[TypeDef], id: InterfaceId, listed: &Keyed<Text, TypeId>) -> bool
    ensures { result ≡ list_all (is_own_type types.now id) listed.now }
{
    for (name, ty) in listed.iter() {
        if !is_own_type(types, id, name, *ty) {
            return false;
        }
    }
    true
}

/// Whether these types come in the order of the resolve.
fn ascend(types: &[TypeDef], listed: &Keyed<Text, TypeId>) -> bool
    requires present { AllByRecursion (λ t. t.1.index < length types.now) listed.now }
    ensures { result ≡ ascend_from 0 (map (λ t. t.1.index) listed.now) }
{
    let mut next = 0;
    for (_, ty) in listed.iter() {
        if ty.index < next {
            return false;
        }
        next = ty.index + 1;
    }
    true
}

/// Whether an interface lists types of its own, in the order of the resolve.
fn lists_own_types(resolve: &Resolve, id: InterfaceId) -> bool
    requires sound { IsSound resolve.now }
    requires present { HasInterface resolve.now id }
    ensures { result ≡ lists_own_types resolve.now id }
{
    let listed = &interface_of(resolve, id).types;
    let types = resolve.types.as_slice();
    are_own_types(types, id, listed) && ascend(types, listed)
}

/// Whether one of this place does, and its functions are made of types of its place or of an earlier one.
fn is_interface_placed(resolve: &Resolve, places: &[usize], last: usize, id: InterfaceId) -> bool
    requires sound { IsSound resolve.now }
    requires present { HasInterface resolve.now id }
    ensures { result ≡ is_interface_placed resolve.now places.now last id }
{
    lists_own_types(resolve, id)
        && are_functions_placed(places, last, &interface_of(resolve, id).functions)
}

/// Whether a type has a name, and belongs to no interface.
fn is_root_type(resolve: &Resolve, id: TypeId) -> bool
    requires sound { IsSound resolve.now }
    requires present { HasTypeId resolve.now id }
    ensures { result ≡ is_root_type resolve.now.types id.index }
{
    interface_at(resolve, id.index).is_none()
        && name_at(resolve.types.as_slice(), id.index).is_some()
}

fn is_item_placed(resolve: &Resolve, places: &Places, item: &WorldItem) -> bool
    requires sound { IsSound resolve.now }
    requires present { HasItem resolve.now item.now }
    ensures { result
        ≡ is_item_placed resolve.now places.now.types (place_by places.now.interfaces)
        places.now.interfaces.root item.now }
{
    let types = places.types.as_slice();
    match item {
        WorldItem::Interface(id) => {
            let place = place_of_interface(&places.interfaces, *id);
            is_interface_placed(resolve, types, place, *id)
        }
        WorldItem::Function(function) => {
            is_function_placed(types, places.interfaces.root, function)
        }
        WorldItem::NamedType(id) => is_root_type(resolve, *id),
    }
}

fn are_items_placed(resolve: &Resolve, places: &Places, items: &Keyed<WorldKey, WorldItem>) -> bool
    requires sound { IsSound resolve.now }
    requires all_present { AllByRecursion (HasEntry resolve.now) items.now }
    ensures { result
        ≡ list_all (λ e. is_item_placed resolve.now places.now.types
        (place_by places.now.interfaces) places.now.interfaces.root e.1) items.now }
{
    for (_, item) in items.iter() {
        if !is_item_placed(resolve, places, item) {
            return false;
        }
    }
    true
}

/// Whether all types are placed, and all imports.
fn are_imports_placed(resolve: &Resolve, places: &Places, world: &World) -> bool
    requires sound { IsSound resolve.now }
    requires present { HasWorld resolve.now world.now }
    ensures { result
        ≡ are_imports_placed resolve.now places.now.types (place_by places.now.interfaces)
        places.now.interfaces.root world.now }
{
    are_types_placed(resolve, places.types.as_slice())
        && are_items_placed(resolve, places, &world.imports)
}

// ---- exports

/// Whether all types that an interface names are at home in it.
fn is_closed(
    alloc: Global,
    resolve: &Resolve,
    homes: &[Home],
    id: InterfaceId,
) -> Result<bool, AllocError>
    requires sound { IsSound resolve.now }
    requires present { HasInterface resolve.now id }
    ensures { IfOk result (λ closed. closed
        ≡ list_all (λ t. is_at_home homes.now id (Some t)) (interface_types resolve.now id)) }
{
    let named = interface_types(alloc, resolve, id)?;
    let closed = are_at_home(homes, id, named.as_slice());
    Ok(closed)
}

/// Whether an exported interface lists types of its own, in the order of the resolve, and what it
/// names is at home in it.
fn is_exported_placed(
    alloc: Global,
    resolve: &Resolve,
    homes: &[Home],
    id: InterfaceId,
) -> Result<bool, AllocError>
    requires sound { IsSound resolve.now }
    requires present { HasInterface resolve.now id }
    ensures { IfOk result
        (λ passes. passes ≡ is_exported_placed resolve.now (is_at_home homes.now) id) }
{
    if !lists_own_types(resolve, id) {
        return Ok(false);
    }
    let closed = is_closed(alloc, resolve, homes, id)?;
    Ok(closed)
}

fn is_export_placed(
    alloc: Global,
    resolve: &Resolve,
    places: &Places,
    homes: &[Home],
    item: &WorldItem,
) -> Result<bool, AllocError>
    requires sound { IsSound resolve.now }
    requires present { HasItem resolve.now item.now }
    ensures { IfOk result (λ passes. passes
        ≡ is_export_placed resolve.now places.now.types (place_by places.now.interfaces)
        places.now.interfaces.root (is_at_home homes.now) item.now) }
{
    match item {
        WorldItem::Interface(id) => is_exported_placed(alloc, resolve, homes, *id),
        WorldItem::Function(_) => Ok(is_item_placed(resolve, places, item)),
        WorldItem::NamedType(_) => Ok(is_item_placed(resolve, places, item)),
    }
}

/// Whether all exports are placed, by the homes of types.
fn all_exports_placed(
    alloc: Global,
    resolve: &Resolve,
    places: &Places,
    homes: &[Home],
    items: &Keyed<WorldKey, WorldItem>,
) -> Result<bool, AllocError>
    requires sound { IsSound resolve.now }
    requires all_present { AllByRecursion (HasEntry resolve.now) items.now }
    ensures { IfOk result (λ passes. passes
        ≡ list_all (λ e. is_export_placed resolve.now places.now.types
        (place_by places.now.interfaces) places.now.interfaces.root
        (is_at_home homes.now) e.1) items.now) }
{
    for (_, item) in items.iter() {
        if !is_export_placed(alloc, resolve, places, homes, item)? {
            return Ok(false);
        }
    }
    Ok(true)
}

/// Whether all exports are placed.
fn are_exports_placed(
    alloc: Global,
    resolve: &Resolve,
    places: &Places,
    world: &World,
) -> Result<bool, AllocError>
    requires sound { IsSound resolve.now }
    requires present { HasWorld resolve.now world.now }
    ensures { IfOk result (λ passes. passes
        ≡ are_exports_placed resolve.now places.now.types (place_by places.now.interfaces)
        places.now.interfaces.root (stays_in resolve.now.types (is_lent world.now))
        world.now) }
{
    let homes = type_homes(alloc, resolve.types.as_slice(), world)?;
    let placed = all_exports_placed(alloc, resolve, places, homes.as_slice(), &world.exports)?;
    Ok(placed)
}

// ---- the world

/// Whether what a world imports and exports is made of types of no later place, and each interface
/// that it exports of types that stay in it.
#[tactic(auto, using(crate::proofs::Testing::imports_fail, crate::proofs::Testing::exports_decide))]
fn is_world_placed(
    alloc: Global,
    resolve: &Resolve,
    places: &Places,
    world: &World,
) -> Result<bool, AllocError>
    requires sound { IsSound resolve.now }
    requires present { HasWorld resolve.now world.now }
    requires places { ArePlaces resolve.now.types world.now.imports places.now }
    ensures { IfOk result (λ passes. passes ≡ is_world_placed resolve.now world.now) }
{
    if !are_imports_placed(resolve, places, world) {
        return Ok(false);
    }
    let placed = are_exports_placed(alloc, resolve, places, world)?;
    Ok(placed)
}

/// What of the order of a world's imports is left out, and of the types of its exports, by the
/// places of its interfaces and types.
pub(crate) fn order_left_out(
    alloc: Global,
    resolve: &Resolve,
    places: &Places,
    world: &World,
) -> Result<Option<&'static str>, AllocError>
    requires sound { IsSound resolve.now }
    requires present { HasWorld resolve.now world.now }
    requires places { ArePlaces resolve.now.types world.now.imports places.now }
    ensures { IfOk result (λ o. option_copied o ≡ order_left_out resolve.now world.now) }
{
    if is_world_placed(alloc, resolve, places, world)? {
        Ok(None)
    } else {
        Ok(Some("interface"))
    }
}
