//! The types of exported interfaces. They are defined before the instances of user modules, those of each interface
//! behind the types of the exported ones that it uses.
#![tactic(auto)]

ghost use Rattle.std.specs.Prelude.{◌≡◌, ◌<◌, [], ◌∷◌, true, length, IfErr, OnOk, Some, None};
ghost use Rattle.std.specs.List.{AllByRecursion, flat_map};
ghost use Rattle.comp_inventories.specs.Inventories.{inventory};
ghost use Rattle.comp_terms.specs.Rules.{Grows, resources_marked};
ghost use Rattle.comp_worlds.specs.ExportOrder.{AreExportsInOrder, interface_among, used_exports};
ghost use Rattle.comp_worlds.specs.Lookups.{module_name};
ghost use Rattle.exported_types.specs.ExportedTypes.{AreDestructorSources, AreKeysInOrder, AreNextKeys, AreNextResources, AreShimSources, entries_at, EntersTypes, interfaces_at, IsNextListed, IsTypesRefusal, marks_at, UsesMet, resource_mark, resource_marks, types_at, exported_types, IsDefinedType};
ghost use Rattle.core_options.specs.MainOptions.{user_of};
ghost use Rattle.core_options.specs.Causes.{IsCauseAmong};
ghost use Rattle.root_imports.specs.Keeping.{RootKept, RootMoved};
ghost use Rattle.root_imports.specs.Met.{has_types, AreAllMet, AreExportsMet};
ghost use Rattle.wit_data.specs.declared.worlds.WorldItem.TheVariants as items;
ghost use Rattle.wit_types.specs.Maps.{HasIndex};
ghost use Rattle.root_imports.specs.RootScopes.{AreTablesRight, IsRefusal};
ghost use Rattle.comp_worlds.specs.Encodable.{IsEncodable};
ghost use Rattle.wit_data.specs.Live.{named_types};
ghost use Rattle.comp_worlds.specs.WorldContents.{exported_item};
ghost use Rattle.interface_needs.specs.RootNeeds.{IsExportedInterface, interface_of_item};

use crate::export_order::check_order;
use crate::own_resources::{DestructorSources, ShimSources, define_resource, is_resource};
use byte_encoding::BuildFault;
use comp_lists::{Keyed, Text};
use comp_worlds::{ComponentWorld, CustomModule, WorldAdapter};
use core_options::StateFault;
use root_imports::{RootScope, types_of};
use wit_data::{InterfaceId, TypeId, WorldItem, WorldKey};

/// Defines the next type that an exported interface lists: a resource, or a type of values, where
/// it is not defined yet.
fn define_type(
    root: &mut RootScope<'_, ComponentWorld>,
    sources: DestructorSources<'_>,
    interface: InterfaceId,
    name: &Text,
    id: TypeId,
) -> Result<(), BuildFault>
    requires valid { IsEncodable root.old.world.now }
    requires sources { AreDestructorSources root.old.world.now root.old.items.defs sources }
    requires tables { AreTablesRight root.old.world.now root.old.met root.old.instances
        root.old.items.defs root.old.maps }
    requires next { IsNextListed root.old.world.now root.old.met root.old.items.defs
        (user_of sources.which) interface id }
    ensures kept { RootKept root.old.world.now root.old root.new }
    ensures grows { OnOk result (Grows root.old.world.now root.old.items.defs root.new.items.defs
        (resource_mark root.old.world.now id)) }
    ensures defined { OnOk result (IsDefinedType root.old.world.now root.new.items.defs id) }
    ensures recorded { OnOk result (HasIndex root.new.maps id) }
    ensures cause { IfErr result IsRefusal }
{
    if is_resource(&root.world.resolve, id) {
        define_resource(root, sources, name, id)
    } else {
        root.exported_type(interface, id)?;
        Ok(())
    }
}

/// Defines the types that an exported interface lists, in its order.
fn define_types_of(
    root: &mut RootScope<'_, ComponentWorld>,
    sources: DestructorSources<'_>,
    id: InterfaceId,
    types: &Keyed<Text, TypeId>,
) -> Result<(), BuildFault>
    requires valid { IsEncodable root.old.world.now }
    requires sources { AreDestructorSources root.old.world.now root.old.items.defs sources }
    requires tables { AreTablesRight root.old.world.now root.old.met root.old.instances
        root.old.items.defs root.old.maps }
    requires exported { IsExportedInterface root.old.world.now id }
    requires uses { AllByRecursion (λ other. has_types root.old.met other ≡ true)
        (used_exports root.old.world.now id) }
    requires listed { types.now ≡ named_types root.old.world.now.resolve id }
    requires resources { AreNextResources root.old.world.now root.old.items.defs
        (user_of sources.which) types.now }
    ensures moved { RootMoved root.old.world.now root.old root.new }
    ensures met { root.new.met ≡ record root.old.met { own = root.new.met.own } }
    ensures grows { OnOk result (Grows root.old.world.now root.old.items.defs root.new.items.defs
        (resource_marks root.old.world.now types.now)) }
    ensures defined { OnOk result
        (AllByRecursion (λ t. IsDefinedType root.old.world.now root.new.items.defs t.1) types.now) }
    ensures all { OnOk result (AreAllMet root.old.world.now root.new.met id) }
    ensures cause { IfErr result IsRefusal }
{
    for entry in types.iter() {
        define_type(root, sources, id, entry.0, *entry.1)?;
        root.enter_own_type(*entry.1);
    }
    Ok(())
}

/// The interface that is exported at a key, if one is.
fn interface_at(world: &ComponentWorld, key: &WorldKey) -> Option<InterfaceId>
    requires { world.now.world.index < length world.now.resolve.worlds }
    ensures { result ≡ interface_of_item (exported_item world.now key.now) }
{
    match world.items().exports.get(key) {
        Some(WorldItem::Interface(id)) => Some(*id),
        Some(WorldItem::Function(_)) => None,
        Some(WorldItem::NamedType(_)) => None,
        None => None,
    }
}

/// Defines the types of an exported interface, and enters it.
///
/// `E11` where it uses types of an exported interface that are not defined.
fn define_interface(
    root: &mut RootScope<'_, ComponentWorld>,
    sources: DestructorSources<'_>,
    key: &WorldKey,
    id: InterfaceId,
) -> Result<(), StateFault>
    requires valid { IsEncodable root.old.world.now }
    requires sources { AreDestructorSources root.old.world.now root.old.items.defs sources }
    requires tables { AreTablesRight root.old.world.now root.old.met root.old.instances
        root.old.items.defs root.old.maps }
    requires item { exported_item root.old.world.now key.now ≡ Some (items.Interface id) }
    requires resources { AreNextResources root.old.world.now root.old.items.defs
        (user_of sources.which) (named_types root.old.world.now.resolve id) }
    ensures moved { RootMoved root.old.world.now root.old root.new }
    ensures grows { OnOk result (Grows root.old.world.now root.old.items.defs root.new.items.defs
        (resource_marks root.old.world.now (named_types root.old.world.now.resolve id))) }
    ensures defined { OnOk result (AllByRecursion
        (λ t. IsDefinedType root.old.world.now root.new.items.defs t.1)
        (named_types root.old.world.now.resolve id)) }
    ensures enters { OnOk result (EntersTypes root.old.met root.new.met (id ∷ [])) }
    ensures uses { OnOk result (UsesMet root.old.world.now root.old.met (id ∷ [])) }
    ensures cause { IfErr result (IsTypesRefusal root.old.world.now root.old.met key.now) }
{
    check_order(root, key, id)?;
    let world = root.world;
    define_types_of(root, sources, id, types_of(&world.resolve, id))?;
    root.enter_interface(id)?;
    Ok(())
}

/// Defines the types that the interface of a key lists, where it is an exported interface.
fn define_types_at(
    root: &mut RootScope<'_, ComponentWorld>,
    sources: DestructorSources<'_>,
    key: &WorldKey,
) -> Result<(), StateFault>
    requires valid { IsEncodable root.old.world.now }
    requires sources { AreDestructorSources root.old.world.now root.old.items.defs sources }
    requires tables { AreTablesRight root.old.world.now root.old.met root.old.instances
        root.old.items.defs root.old.maps }
    requires resources { AreNextResources root.old.world.now root.old.items.defs
        (user_of sources.which) (entries_at root.old.world.now key.now) }
    ensures moved { RootMoved root.old.world.now root.old root.new }
    ensures grows { OnOk result (Grows root.old.world.now root.old.items.defs root.new.items.defs
        (resource_marks root.old.world.now (entries_at root.old.world.now key.now))) }
    ensures defined { OnOk result (AllByRecursion
        (IsDefinedType root.old.world.now root.new.items.defs)
        (types_at root.old.world.now key.now)) }
    ensures enters { OnOk result (EntersTypes root.old.met root.new.met
        (interface_among (exported_item root.old.world.now key.now))) }
    ensures uses { OnOk result (UsesMet root.old.world.now root.old.met
        (interface_among (exported_item root.old.world.now key.now))) }
    ensures cause { IfErr result (IsTypesRefusal root.old.world.now root.old.met key.now) }
{
    match interface_at(root.world, key) {
        Some(id) => define_interface(root, sources, key, id),
        None => Ok(()),
    }
}

/// Defines the types of the interfaces that a user module has to export, in their order. `sources` has the module, and
/// `keys` are those of the interfaces.
///
/// `E11` where one uses types of another exported interface that isn't exported before it.
fn define_types_of_module(
    root: &mut RootScope<'_, ComponentWorld>,
    sources: DestructorSources<'_>,
    keys: &[WorldKey],
) -> Result<(), StateFault>
    requires valid { IsEncodable root.old.world.now }
    requires sources { AreDestructorSources root.old.world.now root.old.items.defs sources }
    requires tables { AreTablesRight root.old.world.now root.old.met root.old.instances
        root.old.items.defs root.old.maps }
    requires next { AreNextKeys root.old.world.now root.old.met root.old.items.defs
        (user_of sources.which) keys.now }
    ensures moved { RootMoved root.old.world.now root.old root.new }
    ensures grows { OnOk result (Grows root.old.world.now root.old.items.defs root.new.items.defs
        (marks_at root.old.world.now keys.now)) }
    ensures defined { OnOk result (AllByRecursion
        (IsDefinedType root.old.world.now root.new.items.defs)
        (flat_map (types_at root.old.world.now) keys.now)) }
    ensures enters { OnOk result
        (EntersTypes root.old.met root.new.met (interfaces_at root.old.world.now keys.now)) }
    ensures ordered { OnOk result (AreKeysInOrder root.old.world.now root.old.met keys.now) }
    ensures cause { IfErr result (IsCauseAmong root.old.world.now [] []) }
{
    for key in keys {
        define_types_at(root, sources, key)?;
    }
    Ok(())
}

/// What the destructors of main are found in.
fn main_sources<'a>(world: &'a ComponentWorld, shims: ShimSources<'a>) -> DestructorSources<'a>
    ensures shims { result.shims ≡ shims.entry }
    ensures named { module_name result.which ≡ None }
    ensures found { result.found.now ≡ world.now.main }
{
    DestructorSources {
        shims,
        which: CustomModule::Main,
        found: &world.main,
    }
}

/// What the destructors of an adapter are found in.
fn adapter_sources<'a>(
    name: &'a Text,
    adapter: &'a WorldAdapter,
    shims: ShimSources<'a>,
) -> DestructorSources<'a>
    ensures shims { result.shims ≡ shims.entry }
    ensures named { module_name result.which ≡ Some name.now }
    ensures found { result.found.now ≡ adapter.now.info }
{
    DestructorSources {
        shims,
        which: CustomModule::Adapter(name.as_str()),
        found: &adapter.info,
    }
}

/// Defines the types of the interfaces that user modules have to export: those of main, and then those of the adapters
/// in order.
///
/// `E11` where one uses types of another exported interface that isn't exported before it.
pub fn define_exported_types(
    root: &mut RootScope<'_, ComponentWorld>,
    shims: ShimSources<'_>,
) -> Result<(), StateFault>
    requires valid { IsEncodable root.old.world.now }
    requires shims { AreShimSources root.old.world.now root.old.items.defs shims }
    requires tables { AreTablesRight root.old.world.now root.old.met root.old.instances
        root.old.items.defs root.old.maps }
    requires none { (inventory root.old.items.defs).resources ≡ 0 }
    ensures moved { RootMoved root.old.world.now root.old root.new }
    ensures grows { OnOk result (Grows root.old.world.now root.old.items.defs root.new.items.defs
        (resources_marked root.old.world.now)) }
    ensures defined { OnOk result (AllByRecursion
        (IsDefinedType root.old.world.now root.new.items.defs)
        (exported_types root.old.world.now)) }
    ensures ordered { OnOk result (AreExportsInOrder root.old.world.now) }
    ensures met { OnOk result (AreExportsMet root.old.world.now root.new.met) }
    ensures cause { IfErr result (IsCauseAmong root.old.world.now [] []) }
{
    root.begin_exports();
    let world = root.world;
    let main = main_sources(world, shims);
    define_types_of_module(root, main, world.main_exports.as_slice())?;
    for (name, adapter) in world.adapters.iter() {
        let sources = adapter_sources(name, adapter, shims);
        define_types_of_module(root, sources, adapter.required_exports.as_slice())?;
    }
    Ok(())
}
