//! From the names in records to a resolve.

ghost use Rattle.std.specs.Prelude.{◌≡◌, ◌↔◌, ◌<◌, ◌∷◌, [], IsTrue, Ok, length};
ghost use Rattle.std.specs.List.{AllByRecursion};
ghost use Rattle.wit_data.specs.Sound.{IsSound, HasInterface};
ghost use Rattle.json_paths.specs.Faults.{Gives};
ghost use Rattle.record_resolve.specs.Steps.{MakesBoth};
ghost use Rattle.record_values.specs.Interfaces.{interfaces_after};
ghost use Rattle.record_resolve.specs.InterfaceKeys.{keys_after};
ghost use Rattle.record_resolve.specs.Resolved.{nothing_made, whole_of, paired, imports_of, exports_of, resolved_after, resolved_among, resolved, IsNamed, AreNamed, IsListed, AreListed, IsWhole, GivesWhole};

use crate::interface_keys::{WorldKeys, keys_of_world};
use crate::interfaces::MadeInterfaces;
use crate::making::{Making, Side};
use crate::worlds::{Items, add_all, add_exported, make_items};
use comp_lists::{Keyed, Seq, Text};
use json_paths::{Failure, fault_here};
use record_values::{InterfaceName, Interfaces, Wit, interfaces_among};
use std::alloc::Global;
use wit_data::{Function, Interface, InterfaceId, Resolve, World, WorldItem, WorldKey};

/// A resolve with one world, the numbers of the interfaces that the world imports and of those that it
/// exports, by name, and the first key of each interface on either side.
pub struct Resolved {
    pub resolve: Resolve,
    pub imported: Keyed<InterfaceName, InterfaceId>,
    pub exported: Keyed<InterfaceName, InterfaceId>,
    pub imported_keys: Keyed<InterfaceId, WorldKey>,
    pub exported_keys: Keyed<InterfaceId, WorldKey>,
}

impl Drop for Resolved {
    fn drop(self) {
        let Resolved {
            resolve: _,
            imported: _,
            exported: _,
            imported_keys: _,
            exported_keys: _,
        } = self;
    }
}

impl Resolved {
    /// The resolve alone.
    pub fn into_resolve(self) -> Resolve
        ensures { result ≡ self.resolve }
    {
        let Resolved {
            resolve,
            imported: _,
            exported: _,
            imported_keys: _,
            exported_keys: _,
        } = self;
        resolve
    }
}

/// What is imported: interfaces, and then the items of the world.
#[tactic(auto, unfolding(crate::specs::Resolved::imports_of))]
fn import_all(
    alloc: Global,
    making: &mut Making,
    imported: &Interfaces,
    wit: &Wit,
    made_interfaces: &mut MadeInterfaces,
) -> Result<Items, Failure>
    ensures { MakesBoth result made_interfaces.new making.new
        (imports_of imported.now wit.now (made_interfaces.old, making.old)) }
{
    add_all(
        alloc,
        making,
        Side::Imported,
        &wit.interfaces,
        imported,
        made_interfaces,
    )?;
    make_items(
        alloc,
        making,
        Side::Imported,
        &made_interfaces.ids,
        &wit.imports,
    )
}

/// What is exported: the copies of interfaces, and then the items of the world.
#[tactic(auto, unfolding(crate::specs::Resolved::exports_of))]
fn export_all(
    alloc: Global,
    making: &mut Making,
    imported: &Interfaces,
    wit: &Wit,
    made_interfaces: &mut MadeInterfaces,
) -> Result<Items, Failure>
    ensures { MakesBoth result made_interfaces.new making.new
        (exports_of imported.now wit.now (made_interfaces.old, making.old)) }
{
    add_exported(alloc, making, imported, &wit.interfaces, made_interfaces)?;
    make_items(
        alloc,
        making,
        Side::Exported,
        &made_interfaces.ids,
        &wit.exports,
    )
}

fn nothing_made(alloc: Global, exported: Interfaces) -> Making
    ensures { result ≡ nothing_made exported }
{
    Making {
        exported,
        imported_types: Keyed::new(alloc),
        exported_types: Keyed::new(alloc),
        types: Seq::new(alloc),
        unnamed: Keyed::new(alloc),
    }
}

/// What a step returned, paired with a value, or its refusal. Kept apart for the prover.
fn paired<T: Drop, X>(value: T, step: Result<X, Failure>) -> Result<(T, X), Failure>
    ensures { result ≡ paired value step }
{
    match step {
        Ok(made) => Ok((value, made)),
        Err(failure) => Err(failure),
    }
}

/// What is made, and the interfaces that are imported. Kept apart for the prover.
#[derive(Drop)]
pub(crate) struct Kept {
    pub making: Making,
    pub made_interfaces: MadeInterfaces,
    pub imported: Keyed<InterfaceName, InterfaceId>,
}

/// The same, with the items that are imported. Kept apart for the prover.
#[derive(Drop)]
pub(crate) struct Inward {
    pub kept: Kept,
    pub imports: Items,
}

/// One world.
fn worlds_of(alloc: Global, world: World) -> Result<Seq<World>, Failure>
    ensures { Gives (λ ws. ws) result (Ok (world ∷ [])) }
{
    let mut worlds = Seq::new(alloc);
    worlds.push(world)?;
    Ok(worlds)
}

/// The keys of the interfaces of both sides.
fn keys_of(alloc: Global, world: &World) -> Result<WorldKeys, Failure>
    ensures { Gives (λ ks. ks) result (Ok (record {
      imported = keys_after [] world.now.imports;
      exported = keys_after [] world.now.exports;
    })) }
{
    let keys = keys_of_world(alloc, world)?;
    Ok(keys)
}

/// The keys of the interfaces of both sides, and one world.
fn keys_and_worlds(alloc: Global, world: World) -> Result<(WorldKeys, Seq<World>), Failure>
    ensures { Gives (λ p. p) result (Ok (
      record {
        imported = keys_after [] world.imports;
        exported = keys_after [] world.exports;
      },
      world ∷ [],
    )) }
{
    let keys = keys_of(alloc, &world);
    let (world, keys) = paired(world, keys)?;
    let worlds = worlds_of(alloc, world);
    paired(keys, worlds)
}

/// The resolve and its tables, from what was made.
fn whole(kept: Kept, keys: WorldKeys, worlds: Seq<World>) -> Resolved
    ensures { result
        ≡ record {
          resolve = record {
            interfaces = kept.made_interfaces.interfaces;
            types = kept.making.types;
            worlds = worlds;
          };
          imported = kept.imported;
          exported = kept.made_interfaces.ids;
          imported_keys = keys.imported;
          exported_keys = keys.exported;
        } }
{
    let Kept {
        making,
        made_interfaces,
        imported,
    } = kept;
    Resolved {
        resolve: Resolve {
            interfaces: made_interfaces.interfaces,
            types: making.types,
            worlds,
        },
        imported,
        exported: made_interfaces.ids,
        imported_keys: keys.imported,
        exported_keys: keys.exported,
    }
}

/// A resolve with one world.
fn put_together(
    alloc: Global,
    kept: Kept,
    imports: Items,
    exports: Items,
) -> Result<Resolved, Failure>
    ensures { Gives (λ r. r) result
        (Ok (whole_of imports exports kept.made_interfaces kept.making kept.imported)) }
{
    let made = keys_and_worlds(alloc, World { imports, exports });
    let (kept, (keys, worlds)) = paired(kept, made)?;
    Ok(whole(kept, keys, worlds))
}

/// What is exported, after what is imported.
#[tactic(auto, unfolding(crate::specs::Resolved::resolved_after))]
fn resolve_after(
    alloc: Global,
    imported: &Interfaces,
    wit: &Wit,
    imports: Items,
    made_interfaces: MadeInterfaces,
    making: Making,
) -> Result<Resolved, Failure>
    ensures { Gives (λ r. r) result
        (resolved_after imported.now wit.now imports made_interfaces making) }
{
    let mut making = making;
    let mut outward = MadeInterfaces {
        interfaces: made_interfaces.interfaces,
        ids: Keyed::new(alloc),
    };
    let exports = export_all(alloc, &mut making, imported, wit, &mut outward);
    let kept = Kept {
        making,
        made_interfaces: outward,
        imported: made_interfaces.ids,
    };
    let (inward, exports) = paired(Inward { kept, imports }, exports)?;
    put_together(alloc, inward.kept, inward.imports, exports)
}

/// No interfaces.
fn no_interfaces(alloc: Global) -> MadeInterfaces
    ensures { result ≡ record { interfaces = []; ids = [] } }
{
    MadeInterfaces {
        interfaces: Seq::new(alloc),
        ids: Keyed::new(alloc),
    }
}

/// The imports and then the exports, whose interfaces these are.
#[tactic(auto, unfolding(crate::specs::Resolved::resolved_among))]
fn resolve_among(
    alloc: Global,
    imported: &Interfaces,
    exported: Interfaces,
    wit: &Wit,
) -> Result<Resolved, Failure>
    ensures { Gives (λ r. r) result (resolved_among imported.now exported wit.now) }
{
    let mut making = nothing_made(alloc, exported);
    let mut made_interfaces = no_interfaces(alloc);
    let imports = import_all(alloc, &mut making, imported, wit, &mut made_interfaces)?;
    resolve_after(alloc, imported, wit, imports, made_interfaces, making)
}

/// The resolve of a record, not yet checked.
#[tactic(auto, unfolding(crate::specs::Resolved::resolved))]
fn resolve_names(alloc: Global, wit: &Wit) -> Result<Resolved, Failure>
    ensures { Gives (λ r. r) result (resolved wit.now) }
{
    let imported = interfaces_among(alloc, &wit.imports)?;
    let exported = interfaces_among(alloc, &wit.exports)?;
    resolve_among(alloc, &imported, exported, wit)
}

fn are_there(resolve: &Resolve, ids: &Keyed<InterfaceName, InterfaceId>) -> bool
    ensures { IsTrue result ↔ AllByRecursion (λ i. HasInterface resolve.now i.1) ids.now }
{
    for (_name, id) in ids.iter() {
        if id.index >= resolve.interfaces.len() {
            return false;
        }
    }
    true
}

fn is_named(key: &WorldKey, item: &WorldItem) -> bool
    ensures { IsTrue result ↔ IsNamed (key.now, item.now) }
{
    match (key, item) {
        (WorldKey::Name(text), WorldItem::Function(function)) => function.name == *text,
        _ => true,
    }
}

fn all_named(items: &Items) -> bool
    ensures { IsTrue result ↔ AllByRecursion IsNamed items.now }
{
    for (key, item) in items.iter() {
        if !is_named(key, item) {
            return false;
        }
    }
    true
}

fn has_named(world: &World) -> bool
    ensures { IsTrue result ↔ AreNamed world.now }
{
    all_named(&world.imports) && all_named(&world.exports)
}

/// Whether the functions at the root of each world have the names of their keys.
fn are_named(worlds: &[World]) -> bool
    ensures { IsTrue result ↔ AllByRecursion AreNamed worlds.now }
{
    for world in worlds {
        if !has_named(world) {
            return false;
        }
    }
    true
}

fn all_listed(functions: &Keyed<Text, Function>) -> bool
    ensures { IsTrue result ↔ AllByRecursion IsListed functions.now }
{
    for (name, function) in functions.iter() {
        if function.name != *name {
            return false;
        }
    }
    true
}

fn has_listed(interface: &Interface) -> bool
    ensures { IsTrue result ↔ AreListed interface.now }
{
    all_listed(&interface.functions)
}

/// Whether the functions of each interface are listed under their names.
fn are_listed(interfaces: &[Interface]) -> bool
    ensures { IsTrue result ↔ AllByRecursion AreListed interfaces.now }
{
    for interface in interfaces {
        if !has_listed(interface) {
            return false;
        }
    }
    true
}

impl Resolved {
    fn is_whole(&self) -> bool
        ensures { IsTrue result ↔ IsWhole self.now }
    {
        !self.resolve.worlds.is_empty()
            && self.resolve.is_sound()
            && are_there(&self.resolve, &self.imported)
            && are_there(&self.resolve, &self.exported)
            && are_named(self.resolve.worlds.as_slice())
            && are_listed(self.resolve.interfaces.as_slice())
    }
}

/// From the names in records to a resolve with one world, in which every number names something.
///
/// Exported interfaces are copies of their own. The refusal is `Record` with the empty path, since no
/// position in the record is known: for a name that refers to nothing made earlier, a malformed type, a
/// malformed id, a name that occurs twice in an interface, a resolve that is not sound, and a function
/// whose name is not its key.
pub fn resolve(alloc: Global, wit: &Wit) -> Result<Resolved, Failure>
    ensures { GivesWhole result (resolved wit.now) }
{
    let resolved = resolve_names(alloc, wit)?;
    if resolved.is_whole() {
        Ok(resolved)
    } else {
        drop(resolved);
        Err(fault_here(alloc))
    }
}
