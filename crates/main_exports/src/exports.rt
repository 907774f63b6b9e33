//! The required exports: a function is exported as its lift, an interface as an instance of a
//! nested component, which gives the lifts of the interface's functions their types.
//!
//! Component model, explainer: component definitions, instance definitions, export definitions.
#![tactic(auto, using(crate::proofs::Growth::growing))]

ghost use Rattle.std.specs.Prelude.{◌≡◌, [], ◌∷◌, length, map, IfOk, IfErr, OnOk, Some, None, slice_get};
ghost use Rattle.std.specs.List.{AllByRecursion, IsDistinct};
ghost use Rattle.std.specs.Map.{keys_of};
ghost use Rattle.std.specs.Str.{bytes_eq};
ghost use Rattle.comp_imports.specs.Names.{naming_of};
ghost use Rattle.comp_items.specs.Items.{Extends};
ghost use Rattle.comp_links.specs.Lists.{required_keys, resource_of};
ghost use Rattle.comp_links.specs.Naming.{name_of};
ghost use Rattle.comp_terms.specs.Instances.{IsNestedRight};
ghost use Rattle.comp_terms.specs.Exports.{IsNestedFor, exports_in};
ghost use Rattle.comp_terms.specs.Rules.{Exported, Grows, IsExportRight};
ghost use Rattle.comp_worlds.specs.WorldContents.{exported_item};
ghost use Rattle.comp_worlds.specs.Worlds.{IsRequired};
ghost use Rattle.core_options.specs.Causes.{IsCause, IsCauseAmong, IsEncodedExport};
ghost use Rattle.core_options.specs.MainOptions.{HasLiftOptions};
ghost use Rattle.comp_trees.specs.Trees.{Resource};
ghost use Rattle.root_imports.specs.Keeping.{RootKept, RootMoved};
ghost use Rattle.main_exports.specs.Exports.{AreExports, AreExported, AreExportsAtHand, AreNextKeys, exporter, key_for, IsExportAdded, ForgetsTypes, functions_of_key, key_marked, nested_mark, AreArgumentsFor, IsInstantiated, IsNestedOf};
ghost use Rattle.nested_components.specs.Types.{IsAtHome};
ghost use Rattle.comp_inventories.specs.Inventories.{NestedInstance, given_by, inventory, scope_of};
ghost use Rattle.nested_terms.specs.Nested.{empty_scope, exports_after};
ghost use Rattle.root_imports.specs.Interfaces.{ExportsListed};
ghost use Rattle.root_imports.specs.Met.{IsSupplied};
ghost use Rattle.wit_data.specs.declared.worlds.WorldItem.TheVariants as items;
ghost use Rattle.wit_data.specs.Sound.{IsSound, HasFunction, HasInterface, HasKey};
ghost use Rattle.wit_data.specs.declared.ids.TypeId.{TypeId};
ghost use Rattle.wit_data.specs.Live.{named_types};
ghost use Rattle.world_values.specs.Items.{functions_of};

use crate::sources::ModuleExports;
use comp_bytes::{Argument, Item, Sort};
use comp_lists::{Keyed, Seq, Text};
use comp_worlds::ComponentWorld;
use core_options::StateFault;
use nested_components::{NestedComponent, nested_component};
use root_imports::{RootScope, types_of};
use std::alloc::{AllocError, Global};
use wit_data::{Function, InterfaceId, TypeId, WorldItem, WorldKey};
use world_values::function_key;

/// The debug name of what is generated for an interface.
fn debug_name(alloc: Global, interface: &Text, what: &str) -> Result<Text, AllocError> {
    let mut name = String::from_str(alloc, interface.as_str())?;
    name.push_str(what)?;
    Ok(Text::from_string(name))
}

/// The functions of an interface, and that their names are distinct, which an iterator over them says.
fn functions_of(world: &ComponentWorld, id: InterfaceId) -> &Keyed<Text, Function>
    requires present { HasInterface world.now.resolve id }
    ensures functions { result.now ≡ functions_of world.now.resolve id }
    ensures apart { IsDistinct bytes_eq (keys_of result.now) }
{
    let functions = &world.resolve.interfaces.as_slice()[id.index].functions;
    let _ = functions.iter();
    functions
}

/// The types of an interface, and that their names are distinct.
fn listed_types(world: &ComponentWorld, id: InterfaceId) -> &Keyed<Text, TypeId>
    requires present { HasInterface world.now.resolve id }
    ensures types { result.now ≡ named_types world.now.resolve id }
    ensures apart { IsDistinct bytes_eq (keys_of result.now) }
{
    let types = types_of(&world.resolve, id);
    let _ = types.iter();
    types
}

/// The nested component of an exported interface that lists these types and has these functions.
fn interface_component(
    alloc: Global,
    world: &ComponentWorld,
    id: InterfaceId,
    types: &Keyed<Text, TypeId>,
    functions: &Keyed<Text, Function>,
) -> Result<NestedComponent, StateFault>
    ghost origin: { TypeId → Resource }
    requires origin { origin ≡ resource_of world.now }
    requires sound { IsSound world.now.resolve }
    requires present { AllByRecursion (λ e. HasFunction world.now.resolve e.1) functions.now }
    requires home { IsAtHome world.now.resolve.types id types.now functions.now }
    ensures nested { IfOk result (λ c. IsNestedOf world.now types.now functions.now c) }
    ensures cause { IfErr result (IsCauseAmong world.now [] []) }
{
    let nested = nested_component(alloc, &world.resolve, id, types, functions)?;
    Ok(nested)
}

impl ModuleExports<'_> {
    /// Exports an item under the name of its key, and returns the index of what is exported.
    fn export(
        &self,
        root: &mut RootScope<'_, ComponentWorld>,
        key: &WorldKey,
        sort: Sort,
        index: u32,
    ) -> Result<u32, StateFault>
        requires sound { IsSound root.old.world.now.resolve }
        requires present { HasKey root.old.world.now.resolve key.now }
        requires right { IsExportRight root.old.world.now root.old.items.defs sort index None }
        ensures same { root.new ≡ record root.old { items = root.new.items } }
        ensures extends { Extends root.old.items root.new.items }
        ensures grows { OnOk result (Grows root.old.world.now root.old.items.defs
            root.new.items.defs (Exported (record {
              name = name_of (naming_of self.now.names)
                  root.old.world.now.resolve key.now;
              sort = sort;
            }) ∷ [])) }
        ensures added { IfOk result
            (IsExportAdded root.old.items.defs root.new.items.defs sort index) }
        ensures cause { IfErr result (IsCauseAmong root.old.world.now [] []) }
    {
        let world = root.world;
        let alloc = root.items.allocator();
        let name = self.names.key_name(alloc, &world.resolve, key)?;
        let exported = root.items.export(name, sort, index)?;
        Ok(exported)
    }

    /// Lifts a function that is required at the root, and exports it.
    fn export_function(
        &self,
        root: &mut RootScope<'_, ComponentWorld>,
        key: &WorldKey,
        function: &Function,
    ) -> Result<(), StateFault>
        requires exports { AreExports root.old.world.now self.now root.old }
        requires next { slice_get (required_keys root.old.world.now)
            (exports_in root.old.items.defs)
            ≡ Some (key_for (exporter self.now) key.now) }
        requires item { exported_item root.old.world.now key.now
            ≡ Some (items.Function function.now) }
        requires required { IsRequired root.old.world.now self.now.user.found.now key.now }
        ensures kept { RootKept root.old.world.now root.old root.new }
        ensures grows { OnOk result (Grows root.old.world.now root.old.items.defs
            root.new.items.defs (key_marked (naming_of self.now.names) root.old.world.now
            (exporter self.now) key.now)) }
        ensures has { OnOk result (AllByRecursion (HasLiftOptions root.old.world.now)
            (functions_of_key root.old.world.now (exporter self.now) key.now)) }
        ensures encoded { OnOk result (AllByRecursion (IsEncodedExport root.old.world.now)
            (functions_of_key root.old.world.now (exporter self.now) key.now)) }
        ensures cause { IfErr result (IsCauseAmong root.old.world.now []
            (functions_of_key root.old.world.now (exporter self.now) key.now)) }
    {
        let required = function_key(root.items.allocator(), key, &function.name)?;
        let lifted = self.lift(root, None, &required, function)?;
        let _ = self.export(root, key, Sort::Func, lifted)?;
        Ok(())
    }

    /// Adds the nested component of the interface of a key, and its instance, which is given these
    /// arguments. Debug names are made from the name under which the interface is exported.
    fn nested_instance(
        &self,
        root: &mut RootScope<'_, ComponentWorld>,
        key: &WorldKey,
        definitions: Seq<Item>,
        arguments: Seq<Argument>,
    ) -> Result<u32, StateFault>
        requires sound { IsSound root.old.world.now.resolve }
        requires present { HasKey root.old.world.now.resolve key.now }
        requires nested { IsNestedRight definitions }
        requires of { IsNestedFor root.old.world.now definitions }
        requires right { AreArgumentsFor root.old.items.defs definitions arguments }
        ensures same { root.new ≡ record root.old { items = root.new.items } }
        ensures extends { Extends root.old.items root.new.items }
        ensures grows { OnOk result (Grows root.old.world.now root.old.items.defs
            root.new.items.defs (nested_mark definitions ∷ [])) }
        ensures made { IfOk result
            (λ index. IsInstantiated root.new.items.defs definitions arguments index) }
        ensures entry { IfOk result (λ index. slice_get (inventory root.new.items.defs).instances
            index
            ≡ Some (NestedInstance (exports_after
            (given_by (scope_of root.old.items.defs) arguments) empty_scope
            definitions))) }
        ensures cause { IfErr result (IsCauseAmong root.old.world.now [] []) }
    {
        let world = root.world;
        let alloc = root.items.allocator();
        let name = self.names.key_name(alloc, &world.resolve, key)?;
        let component_name = debug_name(alloc, &name.name, "-shim-component")?;
        let instance_name = debug_name(alloc, &name.name, "-shim-instance")?;
        let debug = Some(component_name.as_str());
        let component = root.items.nested_component(debug, definitions)?;
        let debug = Some(instance_name.as_str());
        let index = root.items.nested_instance(debug, component, arguments)?;
        Ok(index)
    }

    /// Lifts the functions of an interface, and exports an instance of the interface's nested
    /// component, which is given the lifts, and the types of which they are made. The answer is the
    /// index of the instance that is exported.
    fn export_instance(
        &self,
        root: &mut RootScope<'_, ComponentWorld>,
        key: &WorldKey,
        id: InterfaceId,
    ) -> Result<u32, StateFault>
        requires exports { AreExports root.old.world.now self.now root.old }
        requires next { slice_get (required_keys root.old.world.now)
            (exports_in root.old.items.defs)
            ≡ Some (key_for (exporter self.now) key.now) }
        requires item { exported_item root.old.world.now key.now ≡ Some (items.Interface id) }
        requires required { IsRequired root.old.world.now self.now.user.found.now key.now }
        requires supplied { IsSupplied root.old.world.now root.old.met id
            (length root.old.world.now.resolve.types) }
        ensures kept { RootKept root.old.world.now root.old root.new }
        ensures grows { OnOk result (Grows root.old.world.now root.old.items.defs
            root.new.items.defs (key_marked (naming_of self.now.names) root.old.world.now
            (exporter self.now) key.now)) }
        ensures exports { IfOk result (ExportsListed root.old.world.now root.new.items.defs id) }
        ensures has { OnOk result (AllByRecursion (HasLiftOptions root.old.world.now)
            (functions_of_key root.old.world.now (exporter self.now) key.now)) }
        ensures encoded { OnOk result (AllByRecursion (IsEncodedExport root.old.world.now)
            (functions_of_key root.old.world.now (exporter self.now) key.now)) }
        ensures cause { IfErr result (IsCauseAmong root.old.world.now []
            (functions_of_key root.old.world.now (exporter self.now) key.now)) }
    {
        let world = root.world;
        let functions = functions_of(world, id);
        let types = listed_types(world, id);
        let nested = interface_component(root.items.allocator(), world, id, types, functions)?;
        let arguments = self.interface_arguments(root, key, id, functions, &nested)?;
        let instance = self.nested_instance(root, key, nested.into_items(), arguments)?;
        let exported = self.export(root, key, Sort::Instance, instance)?;
        Ok(exported)
    }

    /// Exports an interface. The root forgets its types then, so that others are defined anew, and
    /// knows the instance that exports them.
    fn export_interface(
        &self,
        root: &mut RootScope<'_, ComponentWorld>,
        key: &WorldKey,
        id: InterfaceId,
    ) -> Result<(), StateFault>
        requires exports { AreExports root.old.world.now self.now root.old }
        requires at_hand { AreExportsAtHand root.old.world.now root.old.met
            (exports_in root.old.items.defs) }
        requires next { slice_get (required_keys root.old.world.now)
            (exports_in root.old.items.defs)
            ≡ Some (key_for (exporter self.now) key.now) }
        requires item { exported_item root.old.world.now key.now ≡ Some (items.Interface id) }
        requires required { IsRequired root.old.world.now self.now.user.found.now key.now }
        ensures moved { RootMoved root.old.world.now root.old root.new }
        ensures at_hand { AreExportsAtHand root.old.world.now root.new.met
            (exports_in root.new.items.defs) }
        ensures forgotten { OnOk result (ForgetsTypes root.old.world.now id root.new) }
        ensures grows { OnOk result (Grows root.old.world.now root.old.items.defs
            root.new.items.defs (key_marked (naming_of self.now.names) root.old.world.now
            (exporter self.now) key.now)) }
        ensures has { OnOk result (AllByRecursion (HasLiftOptions root.old.world.now)
            (functions_of_key root.old.world.now (exporter self.now) key.now)) }
        ensures encoded { OnOk result (AllByRecursion (IsEncodedExport root.old.world.now)
            (functions_of_key root.old.world.now (exporter self.now) key.now)) }
        ensures cause { IfErr result (IsCauseAmong root.old.world.now []
            (functions_of_key root.old.world.now (exporter self.now) key.now)) }
    {
        let instance = self.export_instance(root, key, id)?;
        root.enter_export(id, instance)?;
        root.forget_exported_types(id);
        Ok(())
    }

    /// Lifts what is required at a key, and exports it.
    fn export_item(
        &self,
        root: &mut RootScope<'_, ComponentWorld>,
        key: &WorldKey,
    ) -> Result<(), StateFault>
        requires exports { AreExports root.old.world.now self.now root.old }
        requires at_hand { AreExportsAtHand root.old.world.now root.old.met
            (exports_in root.old.items.defs) }
        requires next { slice_get (required_keys root.old.world.now)
            (exports_in root.old.items.defs)
            ≡ Some (key_for (exporter self.now) key.now) }
        requires required { IsRequired root.old.world.now self.now.user.found.now key.now }
        ensures moved { RootMoved root.old.world.now root.old root.new }
        ensures at_hand { AreExportsAtHand root.old.world.now root.new.met
            (exports_in root.new.items.defs) }
        ensures grows { OnOk result (Grows root.old.world.now root.old.items.defs
            root.new.items.defs (key_marked (naming_of self.now.names) root.old.world.now
            (exporter self.now) key.now)) }
        ensures has { OnOk result (AllByRecursion (HasLiftOptions root.old.world.now)
            (functions_of_key root.old.world.now (exporter self.now) key.now)) }
        ensures encoded { OnOk result (AllByRecursion (IsEncodedExport root.old.world.now)
            (functions_of_key root.old.world.now (exporter self.now) key.now)) }
        ensures cause { IfErr result (IsCauseAmong root.old.world.now []
            (functions_of_key root.old.world.now (exporter self.now) key.now)) }
    {
        match root.world.items().exports.get(key).unwrap() {
            WorldItem::Function(function) => self.export_function(root, key, function),
            WorldItem::Interface(id) => self.export_interface(root, key, *id),
            WorldItem::NamedType(_) => unreachable!(),
        }
    }

    /// Lifts and exports what is required at these keys, in order.
    pub(crate) fn export_keys(
        &self,
        root: &mut RootScope<'_, ComponentWorld>,
        keys: &[WorldKey],
    ) -> Result<(), StateFault>
        requires exports { AreExports root.old.world.now self.now root.old }
        requires at_hand { AreExportsAtHand root.old.world.now root.old.met
            (exports_in root.old.items.defs) }
        requires next { AreNextKeys root.old.world.now (exporter self.now) self.now.user.found.now
            (exports_in root.old.items.defs) keys.now }
        ensures moved { RootMoved root.old.world.now root.old root.new }
        ensures at_hand { AreExportsAtHand root.old.world.now root.new.met
            (exports_in root.new.items.defs) }
        ensures exported { OnOk result (AreExported (naming_of self.now.names) root.old.world.now
            root.old.items.defs root.new.items.defs
            (map (key_for (exporter self.now)) keys.now)) }
        ensures cause { IfErr result (IsCause root.old.world.now) }
    {
        for key in keys {
            self.export_item(root, key)?;
        }
        Ok(())
    }
}
