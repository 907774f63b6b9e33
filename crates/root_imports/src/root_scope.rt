//! The root of a component, as a scope of types.
#![tactic(auto, using(crate::proofs::Growth::growing))]

ghost use Rattle.std.specs.Prelude.{◌≡◌, ◌<◌, ◌||◌, length, true, IfOk, IfErr, IsSome, [], get_or, Some, None};
ghost use Rattle.std.proofs.Common.{refl};
ghost use Rattle.comp_bytes.specs.References.{defined_references, type_references};
ghost use Rattle.comp_bytes.specs.declared.types.TypeDef.TheVariants as definitions;
ghost use Rattle.comp_builder.specs.Built.{nothing_built};
ghost use Rattle.comp_trees.specs.Trees.{ResourceAt, is_known, is_known_function};
ghost use Rattle.comp_trees.specs.DefinedTrees.{OfValues, OfFunctions, OfOthers, defined_tree, function_tree};
ghost use Rattle.comp_trees.specs.Operands.{operand_in, IsOperand};
ghost use Rattle.comp_inventories.specs.Inventories.{scope_of};
ghost use Rattle.wit_data.specs.declared.types.Type.TheVariants.{Id};
ghost use Rattle.wit_data.specs.Sound.{HasFunction};
ghost use Rattle.wit_types.specs.Settings.{tree_in};
ghost use Rattle.wit_types.specs.Denoting.{AreTypes, Makes, MayMake, IsCause, exported_or};
ghost use Rattle.wit_types.specs.Maps.{no_maps};
ghost use Rattle.comp_terms.specs.Planned.{type_of_function, result_tree};
ghost use Rattle.comp_terms.specs.Terms.{IsFunctionType};
ghost use Rattle.comp_worlds.specs.Encodable.{IsEncodable};
ghost use Rattle.root_imports.specs.RootScopes.{root_setting, any_index, RootGrows, is_full, AreTablesRight, ArePassed};
ghost use Rattle.root_imports.specs.Growing.{known_on, root_same, root_on};
ghost use Rattle.root_imports.specs.Imports.{IsNeededFunction, IsResult};
ghost use Rattle.root_imports.specs.Interfaces.{AreInterfacesKnown};
ghost use Rattle.root_imports.specs.Met.{nothing_met, is_exported_type, IsSuppliedFor};
ghost use Rattle.comp_links.specs.Lists.{needed_types};
ghost use Rattle.type_scopes.specs.Titles.{is_one_of};

use crate::met_types::MetTypes;
use byte_encoding::BuildFault;
use comp_bytes::{ComponentValType, DefinedType, ExternName, FuncTypeDef};
use comp_items::ComponentItems;
use comp_lists::Keyed;
use comp_worlds::ComponentWorld;
use std::alloc::Global;
use wit_data::{Function, InterfaceId, Type, TypeId};
use wit_types::{TypeEncodingMaps, ValtypeEncoder, encode_func_type, encode_valtype};

/// What has a validated world. The scope of types is proved for each such type.
pub trait HasWorld {
    ghost use Rattle.comp_worlds.specs.declared.world.ComponentWorld.{ComponentWorld as World};

    ghost world: { Self → World };

    /// The world.
    fn as_world(&self) -> &ComponentWorld
        ensures { result.now ≡ world self.now };
}

impl HasWorld for ComponentWorld {
    ghost world = { λ w. w };

    fn as_world(&self) -> &ComponentWorld {
        self
    }
}

/// The root of a component under construction, as a scope of types: its items, and the tables of
/// the types that were met.
pub struct RootScope<'a, W: HasWorld> {
    pub world: &'a W,
    pub items: ComponentItems,
    pub maps: TypeEncodingMaps,
    /// The types of the world that are at hand: in the tables, or exported by instances of exported interfaces.
    pub met: MetTypes,
    /// The instances of the interfaces that were imported.
    pub instances: Keyed<InterfaceId, u32>,
    /// The exported interface whose types are defined now, if any.
    pub interface: Option<InterfaceId>,
}

impl<'a, W: HasWorld> Drop for RootScope<'a, W> {
    fn drop(self) {
        let RootScope {
            world: _,
            items: _,
            maps: _,
            met: _,
            instances: _,
            interface: _,
        } = self;
    }
}

impl<'a> RootScope<'a, ComponentWorld> {
    /// A component with no definition. It allocates nothing.
    pub fn new(alloc: Global, world: &'a ComponentWorld) -> RootScope<'a, ComponentWorld>
        ensures world { result.world ≡ world.entry }
        ensures items { result.items ≡ nothing_built }
        ensures maps { result.maps ≡ no_maps }
        ensures met { result.met ≡ nothing_met }
        ensures instances { result.instances ≡ [] }
        ensures interface { result.interface ≡ None }
    {
        RootScope {
            world,
            items: ComponentItems::new(alloc),
            maps: TypeEncodingMaps::new(alloc),
            met: MetTypes::new(alloc),
            instances: Keyed::new(alloc),
            interface: None,
        }
    }

    /// The component as far as it was built.
    pub fn into_items(self) -> ComponentItems
        ensures { result ≡ self.entry.items }
    {
        let RootScope {
            world: _,
            items,
            maps: _,
            met: _,
            instances: _,
            interface: _,
        } = self;
        items
    }

    /// The index of the type of a function: of one of an exported interface; or, where no interface
    /// is given, of one at the root of the world that core imports use, or that is exported. It is
    /// defined, where it is not yet.
    pub fn function_type(
        &mut self,
        interface: Option<InterfaceId>,
        function: &Function,
    ) -> Result<u32, BuildFault>
        requires valid { IsEncodable self.old.world.now }
        requires present { HasFunction self.old.world.now.resolve function.now }
        requires needed { IsNeededFunction self.old.world.now interface function.now }
        requires passed { ArePassed self.old.world.now self.old.met }
        requires supplied { IsSuppliedFor self.old.world.now self.old.met interface }
        requires tables { AreTablesRight self.old.world.now self.old.met self.old.instances
            self.old.items.defs self.old.maps }
        ensures typed { IfOk result (λ index. IsFunctionType self.new.items.defs index
            (type_of_function self.old.world.now function.now)) }
        ensures world { self.new.world ≡ self.old.world }
        ensures met { self.new.met ≡ self.old.met }
        ensures instances { self.new.instances ≡ self.old.instances }
        ensures grows { RootGrows self.old.world.now self.old.items self.new.items }
        ensures tables { AreTablesRight self.old.world.now self.old.met self.new.instances
            self.new.items.defs self.new.maps }
        ensures cause { IfErr result (IsCause is_full self.new.items.defs) }
    {
        let world = self.world;
        let alloc = self.items.allocator();
        self.interface = interface;
        encode_func_type(alloc, self, &world.resolve, function)
    }

    /// The value type of the result of a function, if it has one: of a function of an exported
    /// interface; or, where no interface is given, of one at the root that is exported. It is
    /// defined, where it is not yet.
    pub fn result_type(
        &mut self,
        interface: Option<InterfaceId>,
        result_type: Option<Type>,
    ) -> Result<Option<ComponentValType>, BuildFault>
        requires valid { IsEncodable self.old.world.now }
        requires of { IsResult self.old.world.now interface result_type }
        requires passed { ArePassed self.old.world.now self.old.met }
        requires supplied { IsSuppliedFor self.old.world.now self.old.met interface }
        requires tables { AreTablesRight self.old.world.now self.old.met self.old.instances
            self.old.items.defs self.old.maps }
        ensures typed { IfOk result (λ v. IsOperand (scope_of self.new.items.defs) v
            (result_tree self.old.world.now result_type)) }
        ensures known { IfOk result
            (λ v. IsSome (operand_in (scope_of self.new.items.defs) v)) }
        ensures world { self.new.world ≡ self.old.world }
        ensures met { self.new.met ≡ self.old.met }
        ensures instances { self.new.instances ≡ self.old.instances }
        ensures grows { RootGrows self.old.world.now self.old.items self.new.items }
        ensures tables { AreTablesRight self.old.world.now self.old.met self.new.instances
            self.new.items.defs self.new.maps }
        ensures cause { IfErr result (IsCause is_full self.new.items.defs) }
    {
        let world = self.world;
        let alloc = self.items.allocator();
        match result_type {
            Some(ty) => {
                self.interface = interface;
                let value = encode_valtype(alloc, self, &world.resolve, &ty)?;
                Ok(Some(value))
            }
            None => Ok(None),
        }
    }
}

impl<'a, W: HasWorld> ValtypeEncoder for RootScope<'a, W> {
    ghost setting = { λ e. root_setting (W.world e.world.now) e.interface e.met };

    ghost scope = { λ e. scope_of e.items.defs };

    ghost maps = { λ e. e.maps };

    ghost with_maps = { λ e m. record e { maps = m } };

    ghost follows = { λ old new. (new.world ≡ old.world) × (new.met ≡ old.met) × (new.instances ≡ old.instances) × RootGrows (W.world old.world.now) old.items new.items × (new.interface ≡ old.interface) };

    ghost names = { λ e name index. any_index name index };

    ghost offers = { λ e. AreInterfacesKnown (W.world e.world.now) e.items.defs e.met.exported e.instances };

    ghost refuses = { λ e count. is_full e.items.defs count };

    ghost follows_itself = { λ e. (refl, refl, refl, root_same (W.world e.world.now) e.items, refl) };

    ghost follows_on = { λ a b c g h. root_on (λ r. W.world r.now) a.world b.world c.world a.met b.met c.met a.instances b.instances c.instances a.interface b.interface c.interface a.items b.items c.items g h };

    ghost names_kept = { λ a b g name index h. h };

    ghost offers_kept = { λ a b g known. known_on (λ r. W.world r.now) a.world b.world a.met b.met a.instances b.instances a.interface b.interface a.items b.items g known };

    ghost follows_maps = { λ e m. (refl, refl, refl, root_same (W.world e.world.now) e.items, refl) };

    ghost maps_given = { λ e m. refl };

    ghost scope_kept = { λ e m. refl };

    ghost setting_kept = { λ e m. refl };

    fn defined_type(&mut self, ty: DefinedType) -> Result<u32, BuildFault>
        requires present { AreTypes (length (scope_of self.old.items.defs))
            (defined_references ty) }
        requires known { is_known (defined_tree (scope_of self.old.items.defs) ty) ≡ true }
        ensures makes { Makes (scope_of self.old.items.defs) (scope_of self.new.items.defs) result
            (OfValues (defined_tree (scope_of self.old.items.defs) ty)) }
        ensures setting { root_setting (W.world self.new.world.now) self.new.interface self.new.met
            ≡ root_setting (W.world self.old.world.now) self.old.interface self.old.met }
        ensures maps { self.new.maps ≡ self.old.maps }
        ensures follows { (self.new.world ≡ self.old.world)
            × (self.new.met ≡ self.old.met)
            × (self.new.instances ≡ self.old.instances)
            × RootGrows (W.world self.old.world.now) self.old.items self.new.items
            × (self.new.interface ≡ self.old.interface) }
        ensures cause { IfErr result (IsCause is_full self.new.items.defs) }
    {
        self.items.defined_type(ty)
    }

    fn define_function_type(&mut self, ty: FuncTypeDef) -> Result<u32, BuildFault>
        requires present { AreTypes (length (scope_of self.old.items.defs))
            (type_references (definitions.Func ty)) }
        requires known { is_known_function (function_tree (scope_of self.old.items.defs) ty)
            ≡ true }
        ensures makes { Makes (scope_of self.old.items.defs) (scope_of self.new.items.defs) result
            (OfFunctions (function_tree (scope_of self.old.items.defs) ty)) }
        ensures setting { root_setting (W.world self.new.world.now) self.new.interface self.new.met
            ≡ root_setting (W.world self.old.world.now) self.old.interface self.old.met }
        ensures maps { self.new.maps ≡ self.old.maps }
        ensures follows { (self.new.world ≡ self.old.world)
            × (self.new.met ≡ self.old.met)
            × (self.new.instances ≡ self.old.instances)
            × RootGrows (W.world self.old.world.now) self.old.items self.new.items
            × (self.new.interface ≡ self.old.interface) }
        ensures cause { IfErr result (IsCause is_full self.new.items.defs) }
    {
        self.items.function_type(ty)
    }

    /// Nothing is exported: a named type is imported, before what names it.
    fn export_type(&mut self, index: u32, name: ExternName) -> Result<Option<u32>, BuildFault>
        ensures same { self.new ≡ self.old }
        ensures none { IfOk result (λ exported. exported ≡ None) }
        ensures names { IfOk result (λ exported. any_index name.name (exported_or exported index)) }
        ensures makes { MayMake (scope_of self.old.items.defs) (scope_of self.new.items.defs) result
            (get_or (scope_of self.old.items.defs) index OfOthers) }
        ensures setting { root_setting (W.world self.new.world.now) self.new.interface self.new.met
            ≡ root_setting (W.world self.old.world.now) self.old.interface self.old.met }
        ensures maps { self.new.maps ≡ self.old.maps }
        ensures follows { (self.new.world ≡ self.old.world)
            × (self.new.met ≡ self.old.met)
            × (self.new.instances ≡ self.old.instances)
            × RootGrows (W.world self.old.world.now) self.old.items self.new.items
            × (self.new.interface ≡ self.old.interface) }
        ensures cause { IfErr result (IsCause is_full self.new.items.defs) }
    {
        let _ = (index, name);
        Ok(None)
    }

    /// No name may be exported here (`root_setting`), so that no caller may ask for this: it refuses.
    fn export_resource(&mut self, name: ExternName) -> Result<u32, BuildFault>
        ensures same { self.new ≡ self.old }
        ensures names { IfOk result (λ index. any_index name.name index) }
        ensures makes { Makes (scope_of self.old.items.defs) (scope_of self.new.items.defs) result
            (OfValues (ResourceAt ((root_setting (W.world self.old.world.now) self.old.interface
            self.old.met).resource name.name))) }
        ensures setting { root_setting (W.world self.new.world.now) self.new.interface self.new.met
            ≡ root_setting (W.world self.old.world.now) self.old.interface self.old.met }
        ensures maps { self.new.maps ≡ self.old.maps }
        ensures follows { (self.new.world ≡ self.old.world)
            × (self.new.met ≡ self.old.met)
            × (self.new.instances ≡ self.old.instances)
            × RootGrows (W.world self.old.world.now) self.old.items self.new.items
            × (self.new.interface ≡ self.old.interface) }
        ensures cause { IfErr result (IsCause is_full self.new.items.defs) }
    {
        let _ = name;
        Err(BuildFault::Memory)
    }

    /// The alias of a type that the instance of an interface exports: of an exported interface, or
    /// else of an imported one.
    fn import_type(&mut self, interface: InterfaceId, id: TypeId) -> Result<u32, BuildFault>
        requires may { (is_one_of (needed_types (W.world self.old.world.now) interface) id.index
            || is_exported_type (W.world self.old.world.now) self.old.met interface id)
            ≡ true }
        requires offers { AreInterfacesKnown (W.world self.old.world.now) self.old.items.defs
            self.old.met.exported self.old.instances }
        ensures makes { Makes (scope_of self.old.items.defs) (scope_of self.new.items.defs) result
            (OfValues (tree_in
            (root_setting (W.world self.old.world.now) self.old.interface self.old.met)
            (Some (Id id)))) }
        ensures setting { root_setting (W.world self.new.world.now) self.new.interface self.new.met
            ≡ root_setting (W.world self.old.world.now) self.old.interface self.old.met }
        ensures maps { self.new.maps ≡ self.old.maps }
        ensures follows { (self.new.world ≡ self.old.world)
            × (self.new.met ≡ self.old.met)
            × (self.new.instances ≡ self.old.instances)
            × RootGrows (W.world self.old.world.now) self.old.items self.new.items
            × (self.new.interface ≡ self.old.interface) }
        ensures cause { IfErr result (IsCause is_full self.new.items.defs) }
    {
        if self.met.has_instance(interface) {
            self.alias_exported_type(interface, id)
        } else {
            self.alias_type(interface, id)
        }
    }

    fn type_encoding_maps(&mut self) -> &mut TypeEncodingMaps {
        &mut self.maps
    }

    fn interface(&self) -> Option<InterfaceId> {
        self.interface
    }
}
