//! What the nested component of an interface is given for its imports: the lifts of the interface's
//! functions, and the types of the root that they are made of.
//!
//! Component model, explainer: instance definitions.
#![tactic(auto, using(crate::proofs::Growth::growing))]

ghost use Rattle.std.specs.Prelude.{◌≡◌, [], length, IfOk, IfErr, OnOk, Some};
ghost use Rattle.std.specs.List.{AllByRecursion, AllZip};
ghost use Rattle.comp_terms.specs.Rules.{Grows};
ghost use Rattle.comp_worlds.specs.Encodable.{IsEncodable};
ghost use Rattle.comp_worlds.specs.WorldContents.{exported_item};
ghost use Rattle.core_options.specs.Causes.{IsCauseAmong, IsEncodedExport};
ghost use Rattle.core_options.specs.MainOptions.{HasLiftOptions};
ghost use Rattle.interface_needs.specs.RootNeeds.{IsUsableType};
ghost use Rattle.root_imports.specs.Keeping.{RootKept};
ghost use Rattle.main_exports.specs.Exports.{AreExports, exporter, functions_at, AreModuleFunctions, IsTypeArgument, AreTypesUsable, IsNestedOf, AreArgumentsOf};
ghost use Rattle.root_imports.specs.Met.{IsSupplied};
ghost use Rattle.root_imports.specs.RootScopes.{AreTablesRight};
ghost use Rattle.world_values.specs.Items.{functions_of};
ghost use Rattle.wit_data.specs.Live.{named_types};
ghost use Rattle.wit_data.specs.declared.worlds.WorldItem.TheVariants as world_items;

use crate::sources::ModuleExports;
use comp_bytes::{Argument, Sort};
use comp_lists::{Keyed, Seq, Text};
use comp_worlds::ComponentWorld;
use core_options::StateFault;
use nested_components::{NestedComponent, TypeImport};
use root_imports::RootScope;
use wit_data::{Function, InterfaceId, WorldKey};

/// The argument for the import of a type by the nested component of an exported interface: the type
/// of the root that is what the import stands for.
fn type_argument(
    root: &mut RootScope<'_, ComponentWorld>,
    interface: InterfaceId,
    import: &TypeImport,
) -> Result<Argument, StateFault>
    requires valid { IsEncodable root.old.world.now }
    requires usable { IsUsableType root.old.world.now interface import.now.id }
    requires supplied { IsSupplied root.old.world.now root.old.met interface
        (length root.old.world.now.resolve.types) }
    requires tables { AreTablesRight root.old.world.now root.old.met root.old.instances
        root.old.items.defs root.old.maps }
    ensures kept { RootKept root.old.world.now root.old root.new }
    ensures grows { OnOk result
        (Grows root.old.world.now root.old.items.defs root.new.items.defs []) }
    ensures given { IfOk result
        (λ a. IsTypeArgument root.old.world.now root.new.items.defs import.now a) }
    ensures cause { IfErr result (IsCauseAmong root.old.world.now [] []) }
{
    let name = import.name.clone(root.items.allocator())?;
    let index = root.exported_type(interface, import.id)?;
    Ok(Argument {
        name,
        sort: Sort::Type,
        index,
    })
}

/// The arguments for these imports of types, in their order.
fn type_arguments(
    root: &mut RootScope<'_, ComponentWorld>,
    interface: InterfaceId,
    imports: &[TypeImport],
) -> Result<Seq<Argument>, StateFault>
    requires valid { IsEncodable root.old.world.now }
    requires usable { AreTypesUsable root.old.world.now interface imports.now }
    requires supplied { IsSupplied root.old.world.now root.old.met interface
        (length root.old.world.now.resolve.types) }
    requires tables { AreTablesRight root.old.world.now root.old.met root.old.instances
        root.old.items.defs root.old.maps }
    ensures kept { RootKept root.old.world.now root.old root.new }
    ensures grows { OnOk result
        (Grows root.old.world.now root.old.items.defs root.new.items.defs []) }
    ensures given { IfOk result (λ arguments. AllZip
        (IsTypeArgument root.old.world.now root.new.items.defs) imports.now arguments) }
    ensures cause { IfErr result (IsCauseAmong root.old.world.now [] []) }
{
    let mut arguments = Seq::new(root.items.allocator());
    for import in imports {
        arguments.push(type_argument(root, interface, import)?)?;
    }
    Ok(arguments)
}

impl ModuleExports<'_> {
    /// Lifts the functions of an interface: the arguments for the imports of its nested component,
    /// the lifts and then the types.
    pub(crate) fn interface_arguments(
        &self,
        root: &mut RootScope<'_, ComponentWorld>,
        key: &WorldKey,
        id: InterfaceId,
        functions: &Keyed<Text, Function>,
        nested: &NestedComponent,
    ) -> Result<Seq<Argument>, StateFault>
        requires exports { AreExports root.old.world.now self.now root.old }
        requires item { exported_item root.old.world.now key.now ≡ Some (world_items.Interface id) }
        requires supplied { IsSupplied root.old.world.now root.old.met id
            (length root.old.world.now.resolve.types) }
        requires functions { AreModuleFunctions root.old.world.now (exporter self.now) key.now
            functions.now }
        requires all { functions.now ≡ functions_of root.old.world.now.resolve id }
        requires nested { IsNestedOf root.old.world.now (named_types root.old.world.now.resolve id)
            functions.now nested.now }
        ensures kept { RootKept root.old.world.now root.old root.new }
        ensures grows { OnOk result
            (Grows root.old.world.now root.old.items.defs root.new.items.defs []) }
        ensures given { IfOk result (λ arguments. AreArgumentsOf root.old.world.now
            (exporter self.now) root.new.items.defs key.now functions.now nested.now
            arguments) }
        ensures has { OnOk result (AllByRecursion (HasLiftOptions root.old.world.now)
            (functions_at (exporter self.now) key.now functions.now)) }
        ensures encoded { OnOk result (AllByRecursion (IsEncodedExport root.old.world.now)
            (functions_at (exporter self.now) key.now functions.now)) }
        ensures cause { IfErr result (IsCauseAmong root.old.world.now []
            (functions_at (exporter self.now) key.now functions.now)) }
    {
        let names = nested.names.as_slice();
        let mut arguments = self.lift_arguments(root, key, id, functions, names)?;
        let types = type_arguments(root, id, nested.types.as_slice())?;
        arguments.append(types)?;
        Ok(arguments)
    }
}
