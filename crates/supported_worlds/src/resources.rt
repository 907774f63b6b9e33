//! Whether the types that a world imports come in their order, with all resources of its root among them.

ghost use Rattle.std.specs.Prelude.{◌≡◌, ◌≤◌, ◌<◌, length, IfSome};
ghost use Rattle.std.specs.List.{AllByRecursion, list_any};
ghost use Rattle.std.specs.Option.{option_copied};
ghost use Rattle.wit_data.specs.Sound.{HasEntry};
ghost use Rattle.supported_worlds.specs.LeftOut.{resources_left_out};
ghost use Rattle.supported_worlds.specs.Placed.{is_resource, is_root_resource, imported_numbers, are_in_place, is_droppable, is_resource_at};
ghost use Rattle.supported_worlds.specs.Places.{Follows, FollowsImport};

use crate::places::place_at;
use comp_lists::Keyed;
use wit_data::{Resolve, Type, TypeDef, TypeDefKind, TypeId, TypeOwner, WorldItem, WorldKey};

pub(crate) fn is_resource(def: &TypeDef) -> bool
    ensures { result ≡ is_resource def.now }
{
    match &def.kind {
        TypeDefKind::Resource => true,
        _ => false,
    }
}

/// Whether a type is a resource that belongs to no interface.
fn is_root_resource(def: &TypeDef) -> bool
    ensures { result ≡ is_root_resource def.now }
{
    match def.owner {
        TypeOwner::Interface(_) => false,
        TypeOwner::World(_) | TypeOwner::None => is_resource(def),
    }
}

/// Whether one of these types is such a resource.
fn has_resource(types: &[TypeDef]) -> bool
    ensures { result ≡ list_any is_root_resource types.now }
{
    for def in types {
        if is_root_resource(def) {
            return true;
        }
    }
    false
}

/// The number after that of an imported type, unless the type is before the number `next` or a
/// resource of the root from there on is passed over.
#[tactic(auto, using(crate::proofs::InPlace::earlier_type, crate::proofs::InPlace::later_type, crate::proofs::InPlace::next_type))]
fn after_type(types: &[TypeDef], next: usize, id: TypeId) -> Option<usize>
    requires inside { next ≤ length types.now }
    requires present { id.index < length types.now }
    ensures follows { Follows types.now next id.index result }
    ensures inside { IfSome result (λ n. n ≤ length types.now) }
{
    if id.index < next || has_resource(&types[next..id.index]) {
        return None;
    }
    Some(id.index + 1)
}

#[tactic(auto, using(crate::proofs::InPlace::of_type))]
fn after_import(resolve: &Resolve, next: usize, key: &WorldKey, item: &WorldItem) -> Option<usize>
    requires inside { next ≤ length resolve.now.types }
    requires present { HasEntry resolve.now (key.now, item.now) }
    ensures follows { FollowsImport resolve.now.types next (key.now, item.now) result }
    ensures inside { IfSome result (λ n. n ≤ length resolve.now.types) }
{
    match (key, item) {
        (WorldKey::Name(_), WorldItem::NamedType(id)) => {
            after_type(resolve.types.as_slice(), next, *id)
        }
        _ => Some(next),
    }
}

/// Whether the types among the imports come in their order, and each resource of the root is one of them.
#[tactic(auto, using(crate::proofs::InPlace::start, crate::proofs::InPlace::step, crate::proofs::InPlace::stop, crate::proofs::InPlace::end))]
fn are_in_place(resolve: &Resolve, imports: &Keyed<WorldKey, WorldItem>) -> bool
    requires all_present { AllByRecursion (HasEntry resolve.now) imports.now }
    ensures { result ≡ are_in_place resolve.now.types 0 (imported_numbers imports.now) }
{
    let mut next = 0;
    for (key, item) in imports.iter() {
        match after_import(resolve, next, key, item) {
            Some(number) => next = number,
            None => return false,
        }
    }
    !has_resource(&resolve.types.as_slice()[next..])
}

/// What of the types among the imports is left out.
pub(crate) fn resources_left_out(
    resolve: &Resolve,
    imports: &Keyed<WorldKey, WorldItem>,
) -> Option<&'static str>
    requires all_present { AllByRecursion (HasEntry resolve.now) imports.now }
    ensures { option_copied result ≡ resources_left_out resolve.now.types imports.now }
{
    if are_in_place(resolve, imports) {
        None
    } else {
        Some("type")
    }
}

/// Whether a type is a resource that has the place of the root or an earlier one.
#[tactic(auto)]
pub(crate) fn is_droppable(types: &[TypeDef], places: &[usize], root: usize, id: TypeId) -> bool
    ensures { result ≡ is_droppable types.now places.now root id }
{
    match types.get(id.index) {
        Some(def) => is_resource(def) && place_at(places, Some(Type::Id(id))) <= root,
        None => false,
    }
}

/// Whether a type is a resource.
pub(crate) fn is_resource_at(types: &[TypeDef], id: TypeId) -> bool
    ensures { result ≡ is_resource_at types.now id }
{
    match types.get(id.index) {
        Some(def) => is_resource(def),
        None => false,
    }
}
