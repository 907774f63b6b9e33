//! The types of the world that are imported.
#![tactic(auto, using(crate::proofs::Growth::growing))]

ghost use Rattle.std.specs.Prelude.{◌≡◌, ◌<◌, length, false, true, [], ◌∷◌, List, Option, map, IfOk, IfErr, OnOk, IsSomeAnd, Some, None, ℕ};
ghost use Rattle.comp_items.specs.Items.{Extends};
ghost use Rattle.comp_links.specs.Lists.{interface_entries, root_type, resource_of, type_of_world};
ghost use Rattle.comp_bytes.specs.declared.def.Def.{Def};
ghost use Rattle.comp_terms.specs.Terms as terms;
ghost use Rattle.comp_worlds.specs.Worlds as worlds;
ghost use Rattle.comp_terms.specs.Rules.{Grows, Imported};
ghost use Rattle.comp_terms.specs.Terms.{imports_in};
ghost use Rattle.root_imports.specs.Imports.{IsNextId, IsNextTypeImport, IsNextType, next_after};
ghost use Rattle.comp_worlds.specs.Encodable.{IsEncodable};
ghost use Rattle.comp_worlds.specs.WorldContents.{interface_at, world_type, imported_types};
ghost use Rattle.interface_needs.specs.RootNeeds.{IsDropKnown};
ghost use Rattle.wit_data.specs.declared.ids.InterfaceId.{InterfaceId};
ghost use Rattle.wit_data.specs.Sound.{HasEntry};
ghost use Rattle.wit_data.specs.Values.{kind_at};
ghost use Rattle.wit_types.specs.Maps.{no_maps};
ghost use Rattle.wit_types.specs.Allowing.{is_resource};
ghost use Rattle.comp_trees.specs.DefinedScopes.{Denotes};
ghost use Rattle.comp_inventories.specs.Inventories.{scope_of};
ghost use Rattle.root_imports.specs.Interfaces.{AreInstancesKnown};
ghost use Rattle.root_imports.specs.Met.{nothing_met, next_of};
ghost use Rattle.root_imports.specs.RootScopes.{AreTablesRight, ArePassed, IsRefusal, RootGrows};

use crate::met_types::MetTypes;
use crate::root_scope::RootScope;
use byte_encoding::BuildFault;
use comp_bytes::ExternName;
use comp_lists::Text;
use comp_worlds::ComponentWorld;
use std::alloc::AllocError;
use wit_data::{InterfaceId, TypeDefKind, TypeId, TypeOwner, WorldItem, WorldKey, kind_of};
use wit_types::{TypeEncodingMaps, encode_definition, record_type_index};

/// The index in these tables of a resource at the root of the world, once the types of the world are imported.
fn resource_index(maps: &TypeEncodingMaps, id: TypeId) -> Option<u32>
    ensures { (w : ComponentWorld) (met : MetTypes) (instances : List (InterfaceId × ℕ))
        (ds : List Def)
        → IsEncodable w
        → worlds.IsResource w.resolve.types id.index
        → interface_at w.resolve.types id.index ≡ None
        → ArePassed w met
        → AreTablesRight w met instances ds maps.now
        → IsSomeAnd result (λ index. terms.IsResource ds index (resource_of w id)) }
{
    maps.type_index(id)
}

/// The interface that a type belongs to, if it belongs to one.
fn interface_of(world: &ComponentWorld, id: TypeId) -> Option<InterfaceId>
    requires { id.index < length world.now.resolve.types }
    ensures { result ≡ interface_at world.now.resolve.types id.index }
{
    match world.resolve.types.as_slice()[id.index].owner {
        TypeOwner::Interface(interface) => Some(interface),
        TypeOwner::World(_) => None,
        TypeOwner::None => None,
    }
}

/// Whether a type is a resource.
fn is_resource(kind: &TypeDefKind) -> bool
    ensures { result ≡ is_resource kind.now }
{
    matches!(kind, TypeDefKind::Resource)
}

impl RootScope<'_, ComponentWorld> {
    /// Forgets the types that were met: begins with tables that have none, for the interfaces that are imported now.
    pub fn forget_types(&mut self)
        requires known { AreInstancesKnown self.old.world.now self.old.items.defs
            self.old.instances }
        ensures world { self.new.world ≡ self.old.world }
        ensures items { self.new.items ≡ self.old.items }
        ensures instances { self.new.instances ≡ self.old.instances }
        ensures met { self.new.met ≡ nothing_met }
        ensures maps { self.new.maps ≡ no_maps }
        ensures tables { AreTablesRight self.old.world.now self.new.met self.old.instances
            self.old.items.defs self.new.maps }
    {
        let alloc = self.items.allocator();
        self.maps = TypeEncodingMaps::new(alloc);
        self.met = MetTypes::new(alloc);
    }

    /// Records the index of a type of the world that was imported.
    fn record_world_type(&mut self, id: TypeId, index: u32) -> Result<(), AllocError>
        requires valid { IsEncodable self.old.world.now }
        requires present { id.index < length self.old.world.now.resolve.types }
        requires order { IsNextId self.old.world.now (next_of self.old.met.last) id }
        requires tables { AreTablesRight self.old.world.now self.old.met self.old.instances
            self.old.items.defs self.old.maps }
        requires denotes { Denotes (scope_of self.old.items.defs) index
            (type_of_world self.old.world.now id) }
        ensures world { self.new.world ≡ self.old.world }
        ensures instances { self.new.instances ≡ self.old.instances }
        ensures next { OnOk result (self.new.met.last ≡ Some id) }
        ensures extends { Extends self.old.items self.new.items }
        ensures grows { Grows self.old.world.now self.old.items.defs self.new.items.defs [] }
        ensures tables { AreTablesRight self.old.world.now self.new.met self.new.instances
            self.new.items.defs self.new.maps }
    {
        self.interface = None;
        record_type_index(self, id, index)?;
        self.met.last = Some(id);
        Ok(())
    }

    /// Defines a type of values of the world, and imports it under its name.
    fn import_value_type(&mut self, name: ExternName, id: TypeId) -> Result<(), BuildFault>
        requires valid { IsEncodable self.old.world.now }
        requires present { id.index < length self.old.world.now.resolve.types }
        requires values { is_resource (kind_at self.old.world.now.resolve.types id.index) ≡ false }
        requires plain { name.version_suffix ≡ None }
        requires next { IsNextTypeImport self.old.world.now (next_of self.old.met.last)
            self.old.items.defs name.name id }
        requires tables { AreTablesRight self.old.world.now self.old.met self.old.instances
            self.old.items.defs self.old.maps }
        ensures world { self.new.world ≡ self.old.world }
        ensures instances { self.new.instances ≡ self.old.instances }
        ensures next { OnOk result (self.new.met.last ≡ Some id) }
        ensures extends { Extends self.old.items self.new.items }
        ensures grows { OnOk result (Grows self.old.world.now self.old.items.defs
            self.new.items.defs (Imported (root_type name.name) ∷ [])) }
        ensures tables { AreTablesRight self.old.world.now self.new.met self.new.instances
            self.new.items.defs self.new.maps }
        ensures cause { IfErr result IsRefusal }
    {
        let world = self.world;
        let alloc = self.items.allocator();
        self.interface = None;
        let index = encode_definition(alloc, self, &world.resolve, id)?;
        let index = self.items.import_type(name, index)?;
        self.record_world_type(id, index)?;
        Ok(())
    }

    /// Imports a resource of the world under its name.
    fn import_resource(&mut self, name: ExternName, id: TypeId) -> Result<(), BuildFault>
        requires valid { IsEncodable self.old.world.now }
        requires present { id.index < length self.old.world.now.resolve.types }
        requires resource { is_resource (kind_at self.old.world.now.resolve.types id.index) ≡ true }
        requires plain { name.version_suffix ≡ None }
        requires next { IsNextTypeImport self.old.world.now (next_of self.old.met.last)
            self.old.items.defs name.name id }
        requires tables { AreTablesRight self.old.world.now self.old.met self.old.instances
            self.old.items.defs self.old.maps }
        ensures world { self.new.world ≡ self.old.world }
        ensures instances { self.new.instances ≡ self.old.instances }
        ensures next { OnOk result (self.new.met.last ≡ Some id) }
        ensures extends { Extends self.old.items self.new.items }
        ensures grows { OnOk result (Grows self.old.world.now self.old.items.defs
            self.new.items.defs (Imported (root_type name.name) ∷ [])) }
        ensures tables { AreTablesRight self.old.world.now self.new.met self.new.instances
            self.new.items.defs self.new.maps }
        ensures cause { IfErr result IsRefusal }
    {
        let index = self.items.import_resource(name)?;
        self.record_world_type(id, index)?;
        Ok(())
    }

    /// Imports a type of the world under its name.
    fn import_world_type(&mut self, name: &Text, id: TypeId) -> Result<(), BuildFault>
        requires valid { IsEncodable self.old.world.now }
        requires present { id.index < length self.old.world.now.resolve.types }
        requires next { IsNextTypeImport self.old.world.now (next_of self.old.met.last)
            self.old.items.defs name.now id }
        requires tables { AreTablesRight self.old.world.now self.old.met self.old.instances
            self.old.items.defs self.old.maps }
        ensures world { self.new.world ≡ self.old.world }
        ensures instances { self.new.instances ≡ self.old.instances }
        ensures next { OnOk result (self.new.met.last ≡ Some id) }
        ensures extends { Extends self.old.items self.new.items }
        ensures grows { OnOk result (Grows self.old.world.now self.old.items.defs
            self.new.items.defs (Imported (root_type name.now) ∷ [])) }
        ensures tables { AreTablesRight self.old.world.now self.new.met self.new.instances
            self.new.items.defs self.new.maps }
        ensures cause { IfErr result IsRefusal }
    {
        let world = self.world;
        let name = ExternName {
            name: name.clone(self.items.allocator())?,
            version_suffix: None,
        };
        if is_resource(kind_of(world.resolve.types.as_slice(), id.index)) {
            self.import_resource(name, id)
        } else {
            self.import_value_type(name, id)
        }
    }

    /// Imports an item of the world, if it is a type.
    fn import_type_item(&mut self, key: &WorldKey, item: &WorldItem) -> Result<(), BuildFault>
        requires valid { IsEncodable self.old.world.now }
        requires present { HasEntry self.old.world.now.resolve (key.now, item.now) }
        requires next { IsNextType self.old.world.now (next_of self.old.met.last)
            self.old.items.defs (key.now, item.now) }
        requires tables { AreTablesRight self.old.world.now self.old.met self.old.instances
            self.old.items.defs self.old.maps }
        ensures next { OnOk result (next_of self.new.met.last
            ≡ next_after (next_of self.old.met.last) (key.now, item.now)) }
        ensures world { self.new.world ≡ self.old.world }
        ensures instances { self.new.instances ≡ self.old.instances }
        ensures extends { Extends self.old.items self.new.items }
        ensures grows { OnOk result (Grows self.old.world.now self.old.items.defs
            self.new.items.defs
            (map (λ t. Imported (root_type t.0)) (world_type (key.now, item.now)))) }
        ensures tables { AreTablesRight self.old.world.now self.new.met self.new.instances
            self.new.items.defs self.new.maps }
        ensures cause { IfErr result IsRefusal }
    {
        match (key, item) {
            (WorldKey::Name(name), WorldItem::NamedType(id)) => self.import_world_type(name, *id),
            _ => Ok(()),
        }
    }

    /// The index of a resource whose handles a core import drops: of one that belongs to an
    /// interface a new alias, else that of its import.
    pub fn dropped_resource(&mut self, id: TypeId) -> Result<u32, BuildFault>
        requires valid { IsEncodable self.old.world.now }
        requires known { IsDropKnown self.old.world.now id }
        requires passed { ArePassed self.old.world.now self.old.met }
        requires tables { AreTablesRight self.old.world.now self.old.met self.old.instances
            self.old.items.defs self.old.maps }
        ensures same { self.new ≡ record self.old { items = self.new.items } }
        ensures grows { RootGrows self.old.world.now self.old.items self.new.items }
        ensures resource { IfOk result (λ index. terms.IsResource self.new.items.defs index
            (resource_of self.old.world.now id)) }
        ensures cause { IfErr result IsRefusal }
    {
        match interface_of(self.world, id) {
            Some(interface) => {
                let index = self.alias_type(interface, id)?;
                Ok(index)
            }
            None => Ok(resource_index(&self.maps, id).unwrap()),
        }
    }

    /// Imports the types of the world under their names, in its order. They come after the interfaces.
    ///
    /// Refused when out of memory, and where a space would have more than 2^32 - 1 items. What was
    /// imported until then stays.
    pub fn import_types(&mut self) -> Result<(), BuildFault>
        requires valid { IsEncodable self.old.world.now }
        requires first { imports_in self.old.items.defs
            ≡ length (interface_entries self.old.world.now) }
        requires tables { AreTablesRight self.old.world.now self.old.met self.old.instances
            self.old.items.defs self.old.maps }
        ensures world { self.new.world ≡ self.old.world }
        ensures instances { self.new.instances ≡ self.old.instances }
        ensures extends { Extends self.old.items self.new.items }
        ensures grows { OnOk result (Grows self.old.world.now self.old.items.defs
            self.new.items.defs
            (map (λ t. Imported (root_type t.0)) (imported_types self.old.world.now))) }
        ensures tables { AreTablesRight self.old.world.now self.new.met self.new.instances
            self.new.items.defs self.new.maps }
        ensures passed { OnOk result (ArePassed self.old.world.now self.new.met) }
        ensures cause { IfErr result IsRefusal }
    {
        let world = self.world;
        self.met.last = None;
        for (key, item) in world.items().imports.iter() {
            self.import_type_item(key, item)?;
        }
        Ok(())
    }
}
