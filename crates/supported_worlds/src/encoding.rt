//! A world made of its parts, where all of it is encoded yet.

ghost use Rattle.std.specs.Prelude.{◌≡◌, ◌≢◌, ◌<◌, true, length, IfOk, IfErr, IsOk, None};
ghost use Rattle.std.specs.Option.{option_copied, option_or};
ghost use Rattle.wit_data.specs.Sound.{IsSound, HasWorld};
ghost use Rattle.comp_worlds.specs.Encodable.{IsEncodable};
ghost use Rattle.comp_worlds.specs.WorldTables.{HasTables};
ghost use Rattle.record_faults.specs.Faults.{Gives};
ghost use Rattle.record_faults.specs.declared.fault.Failure.TheVariants as failures;
ghost use Rattle.record_faults.specs.declared.fault.Refusal.{Refusal as RefusalValue};
ghost use Rattle.supported_worlds.specs.Apart.{AreApart, ModulesApart};
ghost use Rattle.supported_worlds.specs.Causes.{IsLeftOut};
ghost use Rattle.supported_worlds.specs.Distinct.{are_apart};
ghost use Rattle.supported_worlds.specs.LeftOut.{items_of, all_required, twice_left_out, modules_left_out, after_order, rest_left_out, named_left_out, left_out, refused, encoded};
ghost use Rattle.supported_worlds.specs.Once.{IsRequiredOnce};
ghost use Rattle.world_values.specs.Mentions.{same_interface, interfaces_of};
ghost use Rattle.supported_worlds.specs.Guarantees.{HasSoundParts};
ghost use Rattle.supported_worlds.specs.Links.{AreLinked};
ghost use Rattle.supported_worlds.specs.Placed.{places_of};
ghost use Rattle.supported_worlds.specs.PlaceTables.{ArePlaces};

use crate::items::world_left_out;
use crate::modules::{adapters_left_out, module_left_out};
use crate::naming::names_left_out;
use crate::placed::order_left_out;
use crate::places::{Places, interface_places, with_types};
use crate::resources::resources_left_out;
use crate::sets::twice_left_out;
use comp_lists::Text;
use comp_worlds::{ComponentWorld, WorldParts};
use record_faults::{Failure, Refusal};
use std::alloc::{AllocError, Global};
use wit_data::World;
use world_tables::world_of_parts;

/// The refusal of what is not encoded yet.
fn refused(alloc: Global, what: &str) -> Failure
    ensures { result ≢ failures.Memory → result ≡ refused what.now }
{
    match Text::from_str(alloc, what) {
        Ok(what) => Failure::Refused(Refusal::LeftOut { what }),
        Err(_) => Failure::Memory,
    }
}

/// The imports and exports of the world.
#[tactic(auto, using(crate::proofs::Walking::world_present))]
fn items_of(parts: &WorldParts) -> &World
    requires sound { IsSound parts.now.resolve }
    requires present { parts.now.world.index < length parts.now.resolve.worlds }
    ensures items { result.now ≡ items_of parts.now }
    ensures sound { HasWorld parts.now.resolve result.now }
{
    &parts.resolve.worlds.as_slice()[parts.world.index]
}

/// What of the modules is not encoded yet, by the places of types; where nothing is left out, no
/// import of a module occurs twice.
#[tactic(auto, using(crate::proofs::Walking::modules_apart))]
fn placed_left_out(
    alloc: Global,
    parts: &WorldParts,
    world: &World,
    places: &Places,
) -> Result<Option<&'static str>, AllocError>
    requires once { IsRequiredOnce parts.now world.now }
    ensures reported { IfOk result (λ o. option_copied o
        ≡ modules_left_out parts.now world.now places.now.types places.now.interfaces.root) }
    ensures apart { IfOk result (λ o. option_copied o ≡ None → ModulesApart parts.now) }
{
    let resolve = &parts.resolve;
    let keys = parts.main_exports.as_slice();
    match module_left_out(alloc, resolve, &world.exports, places, keys, &parts.main)? {
        Some(what) => Ok(Some(what)),
        None => adapters_left_out(alloc, resolve, &world.exports, places, &parts.adapters),
    }
}

/// The same, by the places of the world's types.
#[tactic(auto, using(crate::proofs::Reporting::same_modules))]
fn modules_left_out(
    alloc: Global,
    parts: &WorldParts,
    world: &World,
    places: &Places,
) -> Result<Option<&'static str>, AllocError>
    requires places { ArePlaces parts.now.resolve.types world.now.imports places.now }
    requires once { IsRequiredOnce parts.now world.now }
    ensures reported { IfOk result (λ o. option_copied o
        ≡ modules_left_out parts.now world.now
        (places_of parts.now.resolve.types world.now.imports) (length world.now.imports)) }
    ensures apart { IfOk result (λ o. option_copied o ≡ None → ModulesApart parts.now) }
{
    let found = placed_left_out(alloc, parts, world, places)?;
    Ok(found)
}

/// What is left out of the resources of a world and of its modules.
fn after_order(
    alloc: Global,
    parts: &WorldParts,
    world: &World,
    places: &Places,
) -> Result<Option<&'static str>, AllocError>
    requires present { HasWorld parts.now.resolve world.now }
    requires places { ArePlaces parts.now.resolve.types world.now.imports places.now }
    requires once { IsRequiredOnce parts.now world.now }
    ensures reported { IfOk result (λ o. option_copied o ≡ after_order parts.now world.now) }
    ensures apart { IfOk result (λ o. option_copied o ≡ None → ModulesApart parts.now) }
{
    match resources_left_out(&parts.resolve, &world.imports) {
        Some(what) => Ok(Some(what)),
        None => modules_left_out(alloc, parts, world, places),
    }
}

/// What is left out of a world in which nothing occurs twice, apart from its items and their names.
fn rest_left_out(
    alloc: Global,
    parts: &WorldParts,
    world: &World,
    places: &Places,
) -> Result<Option<&'static str>, AllocError>
    requires sound { IsSound parts.now.resolve }
    requires present { HasWorld parts.now.resolve world.now }
    requires places { ArePlaces parts.now.resolve.types world.now.imports places.now }
    requires once { IsRequiredOnce parts.now world.now }
    ensures reported { IfOk result (λ o. option_copied o ≡ rest_left_out parts.now world.now) }
    ensures apart { IfOk result (λ o. option_copied o ≡ None → ModulesApart parts.now) }
{
    match order_left_out(alloc, &parts.resolve, places, world)? {
        Some(what) => Ok(Some(what)),
        None => after_order(alloc, parts, world, places),
    }
}

/// The same, with the names of exported interfaces.
fn named_left_out(
    alloc: Global,
    parts: &WorldParts,
    world: &World,
    places: &Places,
) -> Result<Option<&'static str>, AllocError>
    requires sound { IsSound parts.now.resolve }
    requires present { HasWorld parts.now.resolve world.now }
    requires places { ArePlaces parts.now.resolve.types world.now.imports places.now }
    requires once { IsRequiredOnce parts.now world.now }
    ensures reported { IfOk result (λ o. option_copied o ≡ named_left_out parts.now world.now) }
    ensures apart { IfOk result (λ o. option_copied o ≡ None → ModulesApart parts.now) }
{
    match names_left_out(alloc, &parts.resolve, world)? {
        Some(what) => Ok(Some(what)),
        None => rest_left_out(alloc, parts, world, places),
    }
}

/// The same, of a world that imports no interface twice.
#[tactic(auto, using(crate::proofs::TypePlaces::in_world))]
fn in_places_left_out(
    alloc: Global,
    parts: &WorldParts,
    world: &World,
) -> Result<Option<&'static str>, AllocError>
    requires sound { IsSound parts.now.resolve }
    requires present { HasWorld parts.now.resolve world.now }
    requires apart { are_apart same_interface (interfaces_of world.now.imports) ≡ true }
    requires once { IsRequiredOnce parts.now world.now }
    ensures reported { IfOk result (λ o. option_copied o ≡ named_left_out parts.now world.now) }
    ensures apart { IfOk result (λ o. option_copied o ≡ None → ModulesApart parts.now) }
{
    match interface_places(alloc, &world.imports)? {
        Some(interfaces) => {
            let places = with_types(alloc, parts.resolve.types.as_slice(), interfaces)?;
            let found = named_left_out(alloc, parts, world, &places)?;
            Ok(found)
        }
        None => unreachable!(),
    }
}

/// What of a world is left out apart from its items.
#[tactic(auto, using(crate::proofs::Keys::imports_apart))]
fn parts_left_out(
    alloc: Global,
    parts: &WorldParts,
    world: &World,
) -> Result<Option<&'static str>, AllocError>
    requires sound { IsSound parts.now.resolve }
    requires present { HasWorld parts.now.resolve world.now }
    ensures reported { IfOk result (λ o. option_copied o
        ≡ option_or (twice_left_out (all_required parts.now) world.now)
        (named_left_out parts.now world.now)) }
    ensures apart { IfOk result (λ o. option_copied o ≡ None → ModulesApart parts.now) }
{
    match twice_left_out(alloc, parts, world)? {
        Some(what) => Ok(Some(what)),
        None => in_places_left_out(alloc, parts, world),
    }
}

/// What of a world is not encoded yet; where nothing is left out, no key occurs twice.
#[tactic(auto, unfolding(crate::specs::LeftOut::left_out))]
fn left_out(alloc: Global, parts: &WorldParts) -> Result<Option<&'static str>, AllocError>
    requires sound { IsSound parts.now.resolve }
    requires present { parts.now.world.index < length parts.now.resolve.worlds }
    ensures reported { IfOk result (λ o. option_copied o ≡ left_out parts.now) }
    ensures apart { IfOk result (λ o. option_copied o ≡ None → AreApart parts.now) }
{
    let world = items_of(parts);
    if let Some(what) = world_left_out(world) {
        return Ok(Some(what));
    }
    let found = parts_left_out(alloc, parts, world)?;
    Ok(found)
}

/// The world of these parts, unless something of it is left out.
#[tactic(auto, unfolding(crate::specs::LeftOut::encoded), using(crate::proofs::Encodable::all_roles, crate::proofs::Encodable::is_encodable, comp_worlds::proofs::WholeTables::whole_has_tables))]
fn unless_left_out(alloc: Global, parts: WorldParts) -> Result<ComponentWorld, Failure>
    requires sound { HasSoundParts parts }
    requires linked { AreLinked parts }
    ensures exact { Gives (λ w. w) result (encoded parts) }
    ensures valid { IfOk result IsEncodable }
    ensures tables { IfOk result HasTables }
{
    match left_out(alloc, &parts) {
        Ok(Some(what)) => {
            drop(parts);
            Err(refused(alloc, what))
        }
        Ok(None) => {
            let world = world_of_parts(alloc, parts)?;
            Ok(world)
        }
        Err(_) => {
            drop(parts);
            Err(Failure::Memory)
        }
    }
}

/// The world of these parts, where all of it is encoded yet.
///
/// It refuses with `LeftOut` and the kind of something of the world that is not encoded yet: `type`
/// for an exported type; `interface` where an interface is imported or exported twice, or both,
/// where one has to be exported twice, where an exported one has no name or that of another, or
/// uses a named type of the world or a type of another interface that the world neither imports nor
/// exports, where a type or a function is made of types that come later in the order of the
/// imports, or where an interface and its types don't name each other or are out of order; `type`
/// where the imported types are out of order or lack a resource; the kind of a role of a module's
/// imports or exports; or `world-func` where a function at the root has to be exported twice.
///
/// A function at the root or of an imported interface is encoded whatever its types are. The
/// only other refusal is out of memory. On top of `world_of_parts` it takes time linear in the number of
/// items, of interfaces' types and functions, of the parameters of functions, of types and their parts,
/// of core imports and of core exports, and in the names of exported interfaces; and memory for a place
/// and a home a type, for a few entries an import and an exported interface, and for the types that an
/// exported interface names, beside the refusal's text.
#[tactic(auto, using(crate::proofs::Reporting::no_cause, crate::proofs::Reporting::has_cause))]
pub fn encoded_world(alloc: Global, parts: WorldParts) -> Result<ComponentWorld, Failure>
    requires sound { HasSoundParts parts }
    requires linked { AreLinked parts }
    ensures exact { Gives (λ w. w) result (encoded parts) }
    ensures valid { IfOk result IsEncodable }
    ensures tables { IfOk result HasTables }
    ensures refused { IsOk result → (f : RefusalValue) → IsLeftOut parts f → ⊥ }
    ensures cause { IfErr result
        (λ e. (f : RefusalValue) → e ≡ failures.Refused f → IsLeftOut parts f) }
{
    let world = unless_left_out(alloc, parts)?;
    Ok(world)
}
