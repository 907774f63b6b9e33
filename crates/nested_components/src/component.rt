//! The nested component of an interface.

ghost use Rattle.std.specs.Prelude.{◌≡◌, ◌++◌, map, true, None, IfOk, IfErr, OnOk};
ghost use Rattle.std.specs.List.{AllByRecursion, AllZip, IsDistinct, flat_map};
ghost use Rattle.std.specs.Map.{keys_of};
ghost use Rattle.std.specs.Str.{bytes_eq};
ghost use Rattle.wit_data.specs.declared.ids.TypeId.{TypeId};
ghost use Rattle.wit_data.specs.Sound.{IsSound, HasFunction};
ghost use Rattle.comp_bytes.specs.ScopeNames.{item_import};
ghost use Rattle.comp_trees.specs.Trees.{Resource};
ghost use Rattle.wit_types.specs.Allowing.{allows_function};
ghost use Rattle.type_scopes.specs.Members.{IsExcess};
ghost use Rattle.nested_terms.specs.Naming.{AreNames};
ghost use Rattle.nested_components.specs.Functions.{functions_of, nested_functions, exported, IsTyped, PassesOn, IsNestedComponent};
ghost use Rattle.nested_components.specs.Types.{IsAtHome, exported_type, imported_ids};
ghost use Rattle.nested_components.specs.Beginning.{IsBegun};
ghost use Rattle.nested_components.specs.Foreign.{AreUsable};
ghost use Rattle.nested_components.specs.Homes.{new_home, with_resources, nested_setting, CanExport};
ghost use Rattle.nested_components.specs.Planning.{IsPlan, IsGiven};
ghost use Rattle.nested_components.specs.Resources.{IsOwnResource, AreResourcesImported};
ghost use Rattle.nested_components.specs.declared.stage.Stage.TheVariants as stages;
ghost use Rattle.nested_components.specs.Growing.{scope_of, AreTablesRight, GrowsBy, Exports, ArePassedOn};

use crate::contents::Contents;
use crate::foreign_imports::import_foreign_types;
use crate::home::OwnTypes;
use crate::named_types::export_types;
use crate::nested_encoder::NestedEncoder;
use crate::passing::{export_functions, import_functions};
use crate::placement::Placement;
use crate::plan::{ImportNames, Plan, plan_imports, taken_apart};
use crate::resources::import_resources;
use crate::type_import::TypeImport;
use byte_encoding::BuildFault;
use comp_bytes::Item;
use comp_lists::{Keyed, Seq, Text};
use std::alloc::Global;
use std::marker::Brand;
use wit_data::{Function, InterfaceId, Resolve, TypeId};

/// The items of a nested component, the names under which it imports the functions of the
/// interface, in their order, and the types that it imports, in order.
pub struct NestedComponent {
    pub items: Seq<Item>,
    pub names: Seq<Text>,
    pub types: Seq<TypeImport>,
}

impl Drop for NestedComponent {
    fn drop(self) {
        let NestedComponent {
            items: _,
            names: _,
            types: _,
        } = self;
    }
}

impl NestedComponent {
    /// The items.
    pub fn into_items(self) -> Seq<Item>
        ensures { result ≡ self.items }
    {
        let NestedComponent {
            items,
            names: _,
            types: _,
        } = self;
        items
    }
}

/// The nested component of an interface that lists these types, and has these functions. It imports each function, and
/// exports the types and then the functions under the names that they have in the interface.
///
/// The types of other interfaces of which the interface is made are imported first, each as equal
/// to its definition and behind those of which it is made, and each resource as one that is given.
/// The resources that the interface lists are imported next, as given ones too, and exported by the
/// indices of these imports. The type of a function stands right before the import, unless an equal
/// one was written before, and behind what it is made of; a type of values of the interface is
/// imported as equal to its definition as soon as that is written, and stands for it from then on.
/// The exports use no type that was written for the imports of functions. (No clause says which
/// types are imported: those of other interfaces, the resources, and those of which the functions
/// are made.)
pub fn nested_component(
    alloc: Global,
    resolve: &Resolve,
    interface: InterfaceId,
    types: &Keyed<Text, TypeId>,
    functions: &Keyed<Text, Function>,
) -> Result<NestedComponent, BuildFault>
    ghost origin: { TypeId → Resource }
    requires sound { IsSound resolve.now }
    requires present { AllByRecursion (λ e. HasFunction resolve.now e.1) functions.now }
    requires home { IsAtHome resolve.now.types interface types.now functions.now }
    ensures nested { IfOk result
        (IsNestedComponent origin resolve.now.types types.now functions.now) }
    ensures cause { IfErr result IsExcess }
{
    let plan = plan_imports(alloc, resolve, interface, types, functions)?;
    placed_component::<Brand>(alloc, resolve, interface, types, functions, plan)
}

/// The same with names that were chosen, at a placement, which says what is given for the imports.
fn placed_component<P: Placement>(
    alloc: Global,
    resolve: &Resolve,
    interface: InterfaceId,
    types: &Keyed<Text, TypeId>,
    functions: &Keyed<Text, Function>,
    plan: Plan,
) -> Result<NestedComponent, BuildFault>
    requires sound { IsSound resolve.now }
    requires present { AllByRecursion (λ e. HasFunction resolve.now e.1) functions.now }
    requires home { IsAtHome resolve.now.types interface types.now functions.now }
    requires planned { IsPlan resolve.now.types interface types.now functions.now plan.names
        plan.taken }
    requires given { AllByRecursion (IsGiven P.given P.origin resolve.now.types)
        (plan.names.foreign ++ plan.names.resources) }
    ensures names { IfOk result (λ c. AreNames (functions_of functions.now) c.names) }
    ensures passes { IfOk result (λ c. PassesOn P.given P.origin resolve.now.types types.now
        functions.now
        (nested_functions P.origin resolve.now.types (functions_of functions.now) c.names)
        c.types c.items) }
    ensures apart { IfOk result (λ c. IsDistinct bytes_eq (flat_map item_import c.items)) }
    ensures cause { IfErr result IsExcess }
{
    let (names, taken) = plan.into_parts();
    let contents = contents_of::<P>(alloc, resolve, interface, types, functions, &names, taken)?;
    taken_apart(&contents.taken);
    let component = with_contents(names, contents);
    Ok(component)
}

/// The nested component of what was built.
fn with_contents(names: ImportNames, contents: Contents) -> NestedComponent
    ensures names { result.names ≡ names.functions }
    ensures items { result.items ≡ contents.items }
    ensures types { result.types ≡ contents.types }
{
    let (items, types) = contents.into_parts();
    NestedComponent {
        items,
        names: names.into_functions(),
        types,
    }
}

/// No two types are listed under one name.
fn names_apart(types: &Keyed<Text, TypeId>)
    ensures { IsDistinct bytes_eq (keys_of types.now) }
{
    let _ = types.iter();
}

/// A nested component that imports these types of other interfaces, where these names are taken.
fn begin_component<'a, P: Placement>(
    alloc: Global,
    resolve: &'a Resolve,
    interface: InterfaceId,
    types: &'a Keyed<Text, TypeId>,
    foreign: &[TypeImport],
    taken: Keyed<Text, Option<TypeId>>,
) -> Result<NestedEncoder<'a, P>, BuildFault>
    requires sound { IsSound resolve.now }
    requires usable { AreUsable P.given P.origin (new_home resolve.now.types interface types.now)
        foreign.now }
    ensures begun { IfOk result (λ e. IsBegun P.given P.origin
        (new_home resolve.now.types interface types.now) taken foreign.now e.home e.stage
        e.contents e.maps) }
    ensures cause { IfErr result IsExcess }
{
    let home = OwnTypes::new(alloc, resolve, interface, types);
    let mut encoder: NestedEncoder<'_, P> = NestedEncoder::new(alloc, home, taken);
    import_foreign_types(alloc, &mut encoder, resolve, foreign)?;
    Ok(encoder)
}

/// The items of the nested component, where these names were chosen, which are those that are taken.
fn contents_of<P: Placement>(
    alloc: Global,
    resolve: &Resolve,
    interface: InterfaceId,
    types: &Keyed<Text, TypeId>,
    functions: &Keyed<Text, Function>,
    names: &ImportNames,
    taken: Keyed<Text, Option<TypeId>>,
) -> Result<Contents, BuildFault>
    requires sound { IsSound resolve.now }
    requires present { AllByRecursion (λ e. HasFunction resolve.now e.1) functions.now }
    requires home { IsAtHome resolve.now.types interface types.now functions.now }
    requires planned { IsPlan resolve.now.types interface types.now functions.now names.now taken }
    requires given { AllByRecursion (IsGiven P.given P.origin resolve.now.types)
        (names.now.foreign ++ names.now.resources) }
    ensures passed { IfOk result (ArePassedOn P.given P.origin resolve.now.types types.now
        functions.now names.now.functions) }
    ensures cause { IfErr result IsExcess }
{
    names_apart(types);
    let foreign = names.foreign.as_slice();
    let mut encoder: NestedEncoder<'_, P> = begin_component(
        alloc, resolve, interface, types, foreign, taken,
    )?;
    let tables = encoder.type_tables()?;
    import_all(alloc, &mut encoder, resolve, names, functions)?;
    let importing = encoder.begin_exports(tables);
    let imported = &importing.id_to_index;
    export_all(alloc, &mut encoder, resolve, imported, types, functions)?;
    Ok(encoder.into_contents())
}

/// Imports the resources of the interface, and then the functions.
fn import_all<P: Placement>(
    alloc: Global,
    encoder: &mut NestedEncoder<'_, P>,
    resolve: &Resolve,
    names: &ImportNames,
    functions: &Keyed<Text, Function>,
) -> Result<(), BuildFault>
    requires sound { IsSound resolve.now }
    requires same { encoder.old.home.types ≡ resolve.now.types }
    requires stage { encoder.old.stage ≡ stages.Importing }
    requires present { AllByRecursion (λ e. HasFunction resolve.now e.1) functions.now }
    requires own { AllByRecursion (IsOwnResource P.given P.origin encoder.old.home)
        names.now.resources }
    requires allowed { AllByRecursion (λ f. allows_function (nested_setting P.origin
        (with_resources encoder.old.home (imported_ids names.now.resources))
        encoder.old.stage) f
        ≡ true) (functions_of functions.now) }
    requires right { AreTablesRight P.given P.origin encoder.old.home encoder.old.stage
        encoder.old.contents.items encoder.old.maps }
    ensures home { OnOk result
        (encoder.new.home ≡ with_resources encoder.old.home (imported_ids names.now.resources)) }
    ensures stage { OnOk result (encoder.new.stage ≡ encoder.old.stage) }
    ensures grows { OnOk result (GrowsBy P.given P.origin encoder.new.home encoder.old.stage
        names.now.resources encoder.old.contents encoder.new.contents (nested_functions P.origin
        encoder.old.home.types (functions_of functions.now) names.now.functions)) }
    ensures right { OnOk result (AreTablesRight P.given P.origin encoder.new.home encoder.new.stage
        encoder.new.contents.items encoder.new.maps) }
    ensures cause { IfErr result IsExcess }
{
    import_resources(encoder, names.resources.as_slice())?;
    let function_names = names.functions.as_slice();
    import_functions(alloc, encoder, resolve, function_names, functions)?;
    Ok(())
}

/// Exports the types, each resource by the index of its import, and then the functions.
fn export_all<P: Placement>(
    alloc: Global,
    encoder: &mut NestedEncoder<'_, P>,
    resolve: &Resolve,
    imported: &Keyed<TypeId, u32>,
    types: &Keyed<Text, TypeId>,
    functions: &Keyed<Text, Function>,
) -> Result<(), BuildFault>
    requires sound { IsSound resolve.now }
    requires same { encoder.old.home.types ≡ resolve.now.types }
    requires stage { encoder.old.stage ≡ stages.Exporting None }
    requires home { CanExport encoder.old.home functions.now }
    requires named { types.now ≡ encoder.old.home.named }
    requires imported { AreResourcesImported P.given P.origin encoder.old.home
        encoder.old.contents.items imported.now }
    requires present { AllByRecursion (λ e. HasFunction resolve.now e.1) functions.now }
    requires right { AreTablesRight P.given P.origin encoder.old.home encoder.old.stage
        encoder.old.contents.items encoder.old.maps }
    requires typed { AllZip (IsTyped P.origin encoder.old.home.types)
        (scope_of P.given encoder.old.contents.items).functions (functions_of functions.now) }
    ensures exports { OnOk result (Exports P.given encoder.old.contents encoder.new.contents
        (map (exported_type P.origin encoder.old.home.types) encoder.old.home.named
        ++ exported (functions_of functions.now)
        (scope_of P.given encoder.old.contents.items).functions)
        (scope_of P.given encoder.old.contents.items).functions) }
    ensures cause { IfErr result IsExcess }
{
    export_types(alloc, encoder, resolve, imported, types)?;
    export_functions(alloc, encoder, resolve, functions)?;
    Ok(())
}
