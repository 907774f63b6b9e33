//! The types of exported interfaces, which are defined at the root before their interface is
//! exported, and forgotten then: from then on they are found in the instance that exports them.

ghost use Rattle.std.specs.Prelude.{◌≡◌, ◌<◌, suc, length, map, IfOk, IfErr, OnOk, OnErr, Some};
ghost use Rattle.std.specs.List.{AllByRecursion, IsDistinct};
ghost use Rattle.std.specs.Map.{keys_of};
ghost use Rattle.comp_links.specs.Lists.{type_of_world};
ghost use Rattle.comp_trees.specs.DefinedScopes.{Denotes};
ghost use Rattle.comp_inventories.specs.Inventories.{scope_of};
ghost use Rattle.comp_worlds.specs.Encodable.{IsEncodable};
ghost use Rattle.interface_needs.specs.RootNeeds.{IsExportedInterface, IsUsableType};
ghost use Rattle.wit_data.specs.Live.{named_types};
ghost use Rattle.wit_data.specs.Sound.{HasInterface};
ghost use Rattle.wit_data.specs.Values.{kind_at};
ghost use Rattle.wit_types.specs.Denoting.{IsCause};
ghost use Rattle.wit_types.specs.Maps.{HasIndex};
ghost use Rattle.comp_lists.specs.Tables.{with_first};
ghost use Rattle.wit_data.specs.contracts.ids.InterfaceIdPartialEq.TheImpl as same_interface;
ghost use Rattle.root_imports.specs.Interfaces.{ExportsListed};
ghost use Rattle.root_imports.specs.Met.{nothing_met, AreAllMet, IsNextOwn, IsSupplied, Leaves};
ghost use Rattle.root_imports.specs.Forgetting.{without, Forgets, IsForgettable};
ghost use Rattle.root_imports.specs.RootScopes.{AreForgotten, AreTablesRight, RootGrows, is_full};

use crate::met_types::MetTypes;
use crate::root_scope::RootScope;
use byte_encoding::BuildFault;
use comp_bytes::ComponentValType;
use comp_lists::{Keyed, Text};
use comp_worlds::ComponentWorld;
use std::alloc::AllocError;
use wit_data::{InterfaceId, Resolve, Type, TypeDefKind, TypeId, kind_of};
use wit_types::{TypeEncodingMaps, encode_valtype, record_type_index};

/// The types of an interface, by their names.
pub fn types_of(resolve: &Resolve, interface: InterfaceId) -> &Keyed<Text, TypeId>
    requires { HasInterface resolve.now interface }
    ensures { result.now ≡ named_types resolve.now interface }
{
    &resolve.interfaces.as_slice()[interface.index].types
}

/// The types of an exported interface, by their names.
fn exported_types_of(world: &ComponentWorld, interface: InterfaceId) -> &Keyed<Text, TypeId>
    requires valid { IsEncodable world.now }
    requires exported { IsExportedInterface world.now interface }
    ensures types { result.now ≡ named_types world.now.resolve interface }
{
    types_of(&world.resolve, interface)
}

/// The kind of a type.
fn kind_in(resolve: &Resolve, id: TypeId) -> &TypeDefKind
    requires { id.index < length resolve.now.types }
    ensures { result.now ≡ kind_at resolve.now.types id.index }
{
    kind_of(resolve.types.as_slice(), id.index)
}

/// No type has two indices in the tables, nor has a kind. Nothing is done.
fn are_apart(maps: &TypeEncodingMaps)
    ensures ids { IsDistinct (⟦<TypeId as PartialEq>⟧.eq) (keys_of maps.now.id_to_index) }
    ensures kinds { IsDistinct (⟦<TypeDefKind as PartialEq>⟧.eq) (keys_of maps.now.def_to_index) }
{
    let _ = maps.id_to_index.iter();
    let _ = maps.def_to_index.iter();
}

/// Forgets the index of a type, and that of the types without names of its kind.
#[tactic(auto, using(crate::proofs::Forgetting::forgets))]
fn forget_in(maps: &mut TypeEncodingMaps, resolve: &Resolve, id: TypeId)
    requires { id.index < length resolve.now.types }
    ensures removed { maps.new ≡ without id (kind_at resolve.now.types id.index) maps.old }
    ensures forgets { Forgets resolve.now.types id maps.old maps.new }
{
    let kind = kind_in(resolve, id);
    are_apart(maps);
    maps.forget(id, kind);
}

impl RootScope<'_, ComponentWorld> {
    /// The index of a type with a name of which an exported interface may be made. It is defined,
    /// where it is not yet, with all that it is made of; a type of another interface is an alias of
    /// what the instance of that interface exports.
    ///
    /// Refused when out of memory, and where a space would have more than 2^32 - 1 items. What was
    /// defined until then stays.
    pub fn exported_type(&mut self, interface: InterfaceId, id: TypeId) -> Result<u32, BuildFault>
        requires valid { IsEncodable self.old.world.now }
        requires usable { IsUsableType self.old.world.now interface id }
        requires supplied { IsSupplied self.old.world.now self.old.met interface (suc id.index) }
        requires tables { AreTablesRight self.old.world.now self.old.met self.old.instances
            self.old.items.defs self.old.maps }
        ensures denotes { IfOk result (λ index. Denotes (scope_of self.new.items.defs) index
            (type_of_world self.old.world.now id)) }
        ensures recorded { IfOk result (λ index. HasIndex self.new.maps id) }
        ensures world { self.new.world ≡ self.old.world }
        ensures met { self.new.met ≡ self.old.met }
        ensures instances { self.new.instances ≡ self.old.instances }
        ensures grows { RootGrows self.old.world.now self.old.items self.new.items }
        ensures tables { AreTablesRight self.old.world.now self.old.met self.new.instances
            self.new.items.defs self.new.maps }
        ensures cause { IfErr result (IsCause is_full self.new.items.defs) }
    {
        let world = self.world;
        let alloc = self.items.allocator();
        self.interface = Some(interface);
        let value = encode_valtype(alloc, self, &world.resolve, &Type::Id(id))?;
        match value {
            ComponentValType::Defined(index) => Ok(index),
            ComponentValType::Primitive(_) => unreachable!(),
        }
    }

    /// Forgets a type of which it isn't known that it is in the tables: no later type is known by it.
    fn forget_type(&mut self, id: TypeId)
        requires forgettable { IsForgettable self.old.world.now self.old.met id }
        requires tables { AreTablesRight self.old.world.now self.old.met self.old.instances
            self.old.items.defs self.old.maps }
        ensures same { self.new ≡ record self.old { maps = self.new.maps } }
        ensures forgets { Forgets self.old.world.now.resolve.types id self.old.maps self.new.maps }
        ensures tables { AreTablesRight self.old.world.now self.old.met self.old.instances
            self.old.items.defs self.new.maps }
    {
        let world = self.world;
        forget_in(&mut self.maps, &world.resolve, id);
    }

    /// Forgets these types, one after the other.
    fn forget_listed(&mut self, types: &Keyed<Text, TypeId>)
        requires forgettable { AllByRecursion
            (λ e. IsForgettable self.old.world.now self.old.met e.1) types.now }
        requires tables { AreTablesRight self.old.world.now self.old.met self.old.instances
            self.old.items.defs self.old.maps }
        ensures same { self.new ≡ record self.old { maps = self.new.maps } }
        ensures forgotten { AreForgotten self.old.world.now.resolve.types (map (λ e. e.1) types.now)
            self.new.maps }
        ensures tables { AreTablesRight self.old.world.now self.old.met self.old.instances
            self.old.items.defs self.new.maps }
    {
        for entry in types.iter() {
            self.forget_type(*entry.1);
        }
    }

    /// Begins with no exported interface whose types are at hand.
    pub fn begin_exports(&mut self)
        requires tables { AreTablesRight self.old.world.now self.old.met self.old.instances
            self.old.items.defs self.old.maps }
        ensures same { self.new
            ≡ record self.old { met = record nothing_met { last = self.old.met.last } } }
        ensures tables { AreTablesRight self.old.world.now self.new.met self.old.instances
            self.old.items.defs self.old.maps }
    {
        let last = self.met.last;
        self.met = MetTypes::new(self.items.allocator());
        self.met.last = last;
    }

    /// Records the index of a resource that the component defines.
    pub fn record_resource(&mut self, id: TypeId, index: u32) -> Result<(), AllocError>
        requires tables { AreTablesRight self.old.world.now self.old.met self.old.instances
            self.old.items.defs self.old.maps }
        requires denotes { Denotes (scope_of self.old.items.defs) index
            (type_of_world self.old.world.now id) }
        ensures world { self.new.world ≡ self.old.world }
        ensures met { self.new.met ≡ self.old.met }
        ensures instances { self.new.instances ≡ self.old.instances }
        ensures grows { RootGrows self.old.world.now self.old.items self.new.items }
        ensures recorded { OnOk result (HasIndex self.new.maps id) }
        ensures tables { AreTablesRight self.old.world.now self.old.met self.new.instances
            self.new.items.defs self.new.maps }
    {
        self.interface = None;
        record_type_index(self, id, index)?;
        Ok(())
    }

    /// Enters the next type of an exported interface: one that was defined, behind all types of the
    /// interface that come before it in the resolve.
    pub fn enter_own_type(&mut self, id: TypeId)
        requires next { IsNextOwn self.old.world.now self.old.met id }
        requires recorded { HasIndex self.old.maps id }
        requires tables { AreTablesRight self.old.world.now self.old.met self.old.instances
            self.old.items.defs self.old.maps }
        ensures same { self.new ≡ record self.old { met = record self.old.met { own = Some id } } }
        ensures tables { AreTablesRight self.old.world.now self.new.met self.old.instances
            self.old.items.defs self.old.maps }
    {
        self.met.own = Some(id);
    }

    /// Enters an exported interface whose types are all in the tables.
    pub fn enter_interface(&mut self, interface: InterfaceId) -> Result<(), AllocError>
        requires all { AreAllMet self.old.world.now self.old.met interface }
        requires tables { AreTablesRight self.old.world.now self.old.met self.old.instances
            self.old.items.defs self.old.maps }
        ensures same { self.new
            ≡ record self.old
            { met = record self.old.met { interfaces = self.new.met.interfaces } } }
        ensures entered { OnOk result (self.new.met.interfaces
            ≡ with_first same_interface.eq-value.it self.old.met.interfaces interface tt) }
        ensures tables { AreTablesRight self.old.world.now self.new.met self.old.instances
            self.old.items.defs self.old.maps }
    {
        self.met.interfaces.insert_if_absent(interface, ())
    }

    /// Enters the instance that was exported for an interface: its types are found there from now on.
    pub fn enter_export(&mut self, interface: InterfaceId, instance: u32) -> Result<(), AllocError>
        requires valid { IsEncodable self.old.world.now }
        requires exports { ExportsListed self.old.world.now self.old.items.defs interface instance }
        requires tables { AreTablesRight self.old.world.now self.old.met self.old.instances
            self.old.items.defs self.old.maps }
        ensures same { self.new
            ≡ record self.old { met = record self.old.met { exported = self.new.met.exported } } }
        ensures err { OnErr result (self.new.met ≡ self.old.met) }
        ensures entered { OnOk result (self.new.met.exported
            ≡ with_first same_interface.eq-value.it self.old.met.exported interface instance) }
        ensures tables { AreTablesRight self.old.world.now self.new.met self.old.instances
            self.old.items.defs self.old.maps }
    {
        self.met.exported.insert_if_absent(interface, instance)
    }

    /// Forgets the types of an interface that was exported, so that later ones are defined anew: by
    /// their numbers, and types without names by their kinds. It allocates nothing.
    pub fn forget_exported_types(&mut self, interface: InterfaceId)
        requires valid { IsEncodable self.old.world.now }
        requires exported { IsExportedInterface self.old.world.now interface }
        requires tables { AreTablesRight self.old.world.now self.old.met self.old.instances
            self.old.items.defs self.old.maps }
        ensures same { self.new ≡ record self.old { maps = self.new.maps; met = self.new.met } }
        ensures leaves { Leaves interface self.old.met self.new.met }
        ensures forgotten { AreForgotten self.old.world.now.resolve.types
            (map (λ e. e.1) (named_types self.old.world.now.resolve interface)) self.new.maps }
        ensures tables { AreTablesRight self.old.world.now self.new.met self.old.instances
            self.old.items.defs self.new.maps }
    {
        let world = self.world;
        let types = exported_types_of(world, interface);
        self.met.leave(interface);
        self.forget_listed(types);
    }
}
