//! How what a world imports is lowered for core modules.

ghost use Rattle.std.specs.Prelude.{◌≡◌, [], ◌∷◌, ◌++◌, None, codes, IfOk, OnOk};
ghost use Rattle.std.specs.List.{flat_map, AllByRecursion};
ghost use Rattle.wit_data.specs.Sound.{IsSound, HasFunction, HasInterface, HasEntry};
ghost use Rattle.wit_data.specs.Keys.{name_of_key};
ghost use Rattle.comp_worlds.specs.Lowerings.{is_same_lowering};
ghost use Rattle.world_values.specs.Tables.{with_all};
ghost use Rattle.comp_worlds.specs.Uses.{used_in};
ghost use Rattle.comp_worlds.specs.Imported.{lowering_of, called_as, function_lowerings, drop_lowerings, root_lowerings, interface_lowerings, root_entry, interface_entry, imported, is_same_import_key};

use crate::mentions::interface_of;
use crate::uses::call_at;
use bitflags::Flags;
use comp_lists::{Keyed, Text, TryClone};
use comp_options::RequiredOptions;
use comp_worlds::{ImportedInterface, Lowering, LoweringKey, Uses};
use std::alloc::{AllocError, Global};
use wit_data::{AbiVariant, Function, InterfaceId, Resolve, TypeId, WorldItem, WorldKey};

/// Lowerings by name and form.
type Lowerings = Keyed<LoweringKey, Lowering>;

/// The lowering of a function that is called in this form.
fn lowering_of(
    alloc: Global,
    resolve: &Resolve,
    function: &Function,
    abi: AbiVariant,
    shares_memory: bool,
) -> Result<Lowering, AllocError>
    requires sound { IsSound resolve.now }
    requires present { HasFunction resolve.now function.now }
    ensures { IfOk result (λ l. l ≡ lowering_of shares_memory abi resolve.now.types function.now) }
{
    let options = RequiredOptions::for_import(resolve, function, abi);
    if shares_memory || !options.contains(RequiredOptions::MEMORY) {
        return Ok(Lowering::Direct { options });
    }
    let sig = resolve.wasm_signature(alloc, abi, function)?;
    Ok(Lowering::Indirect { sig, options })
}

/// Adds a function as it is called in this form, if it is.
fn add_called(
    alloc: Global,
    table: &mut Lowerings,
    uses: &Uses,
    resolve: &Resolve,
    key: &WorldKey,
    function: &Function,
    abi: AbiVariant,
) -> Result<(), AllocError>
    requires sound { IsSound resolve.now }
    requires present { HasFunction resolve.now function.now }
    ensures { OnOk result (table.new
        ≡ with_all is_same_lowering table.old
        (called_as (used_in uses.now) resolve.now.types key.now function.now abi)) }
{
    let call = call_at(alloc, key, &function.name, abi)?;
    if !uses.calls.contains_key(&call) {
        return Ok(());
    }
    let lowering = lowering_of(alloc, resolve, function, abi, uses.shares_memory)?;
    table.insert_if_absent(call.lowering, lowering)
}

/// Adds a function in each form in which it is called.
#[tactic(auto, using(crate::proofs::Entering::after_both))]
fn add_function(
    alloc: Global,
    table: &mut Lowerings,
    uses: &Uses,
    resolve: &Resolve,
    key: &WorldKey,
    function: &Function,
) -> Result<(), AllocError>
    requires sound { IsSound resolve.now }
    requires present { HasFunction resolve.now function.now }
    ensures { OnOk result (table.new
        ≡ with_all is_same_lowering table.old
        (function_lowerings (used_in uses.now) resolve.now.types key.now function.now)) }
{
    add_called(
        alloc,
        table,
        uses,
        resolve,
        key,
        function,
        AbiVariant::GuestImport,
    )?;
    add_called(
        alloc,
        table,
        uses,
        resolve,
        key,
        function,
        AbiVariant::GuestImportAsync,
    )
}

/// Adds the drop of a resource, if it is dropped.
fn add_drop(
    alloc: Global,
    table: &mut Lowerings,
    uses: &Uses,
    name: &str,
    id: TypeId,
) -> Result<(), AllocError>
    ensures { OnOk result (table.new
        ≡ with_all is_same_lowering table.old (drop_lowerings (used_in uses.now) name.now id)) }
{
    if !uses.drops.contains_key(&id.index) {
        return Ok(());
    }
    let name = drop_name(alloc, name)?;
    let key = LoweringKey {
        name,
        abi: AbiVariant::GuestExport,
    };
    table.insert_if_absent(key, Lowering::ResourceDrop(id))
}

/// The key's name of the drop of a resource: `NAME_drop`.
fn drop_name(alloc: Global, name: &str) -> Result<Text, AllocError>
    ensures { IfOk result (λ t. t ≡ name.now ++ codes "_drop") }
{
    let mut text = String::from_str(alloc, name)?;
    text.push_str("_drop")?;
    Ok(Text::from_string(text))
}

/// Adds an import at the root of the world.
fn add_root_item(
    alloc: Global,
    table: &mut Lowerings,
    uses: &Uses,
    resolve: &Resolve,
    key: &WorldKey,
    item: &WorldItem,
) -> Result<(), AllocError>
    requires sound { IsSound resolve.now }
    requires present { HasEntry resolve.now (key.now, item.now) }
    ensures { OnOk result (table.new
        ≡ with_all is_same_lowering table.old
        (root_lowerings (used_in uses.now) resolve.now.types (key.now, item.now))) }
{
    match item {
        WorldItem::Function(function) => add_function(alloc, table, uses, resolve, key, function),
        WorldItem::NamedType(id) => add_drop(alloc, table, uses, plain_name(key), *id),
        WorldItem::Interface(_) => Ok(()),
    }
}

/// The plain name of a key; an interface has none.
fn plain_name(key: &WorldKey) -> &str
    ensures { result.now ≡ name_of_key key.now }
{
    match key {
        WorldKey::Name(text) => text.as_str(),
        WorldKey::Interface(_) => "",
    }
}

/// The lowerings of what the world imports at its root.
#[tactic(auto, using(crate::proofs::Entering::after_item))]
fn root_lowerings(
    alloc: Global,
    uses: &Uses,
    resolve: &Resolve,
    entries: &Keyed<WorldKey, WorldItem>,
) -> Result<Lowerings, AllocError>
    requires sound { IsSound resolve.now }
    requires all_present { AllByRecursion (HasEntry resolve.now) entries.now }
    ensures { IfOk result (λ t. t
        ≡ with_all is_same_lowering []
        (flat_map (root_lowerings (used_in uses.now) resolve.now.types) entries.now)) }
{
    let mut table = Keyed::new(alloc);
    for (key, item) in entries.iter() {
        add_root_item(alloc, &mut table, uses, resolve, key, item)?;
    }
    Ok(table)
}

/// Adds the drops of these types.
#[tactic(auto, using(crate::proofs::Entering::after_item))]
fn add_drops(
    alloc: Global,
    table: &mut Lowerings,
    uses: &Uses,
    types: &Keyed<Text, TypeId>,
) -> Result<(), AllocError>
    ensures { OnOk result (table.new
        ≡ with_all is_same_lowering table.old
        (flat_map (λ t. drop_lowerings (used_in uses.now) t.0 t.1) types.now)) }
{
    for (name, id) in types.iter() {
        add_drop(alloc, table, uses, name.as_str(), *id)?;
    }
    Ok(())
}

/// Adds these functions, each in the forms in which it is called.
#[tactic(auto, using(crate::proofs::Entering::after_item))]
fn add_functions(
    alloc: Global,
    table: &mut Lowerings,
    uses: &Uses,
    resolve: &Resolve,
    key: &WorldKey,
    functions: &Keyed<Text, Function>,
) -> Result<(), AllocError>
    requires sound { IsSound resolve.now }
    requires all_present { AllByRecursion (λ f. HasFunction resolve.now f.1) functions.now }
    ensures { OnOk result (table.new
        ≡ with_all is_same_lowering table.old (flat_map
        (λ f. function_lowerings (used_in uses.now) resolve.now.types key.now f.1)
        functions.now)) }
{
    for (_, function) in functions.iter() {
        add_function(alloc, table, uses, resolve, key, function)?;
    }
    Ok(())
}

/// The lowerings of an imported interface.
#[tactic(auto, using(crate::proofs::Entering::after_both))]
fn interface_lowerings(
    alloc: Global,
    uses: &Uses,
    resolve: &Resolve,
    key: &WorldKey,
    id: InterfaceId,
) -> Result<Lowerings, AllocError>
    requires sound { IsSound resolve.now }
    requires present { HasInterface resolve.now id }
    ensures { IfOk result (λ t. t
        ≡ with_all is_same_lowering []
        (interface_lowerings (used_in uses.now) resolve.now key.now id)) }
{
    let interface = interface_of(resolve, id);
    let mut table = Keyed::new(alloc);
    add_drops(alloc, &mut table, uses, &interface.types)?;
    add_functions(alloc, &mut table, uses, resolve, key, &interface.functions)?;
    Ok(table)
}

/// Adds an imported interface, if the import is one.
fn add_interface(
    alloc: Global,
    table: &mut Keyed<Option<WorldKey>, ImportedInterface>,
    uses: &Uses,
    resolve: &Resolve,
    key: &WorldKey,
    item: &WorldItem,
) -> Result<(), AllocError>
    requires sound { IsSound resolve.now }
    requires present { HasEntry resolve.now (key.now, item.now) }
    ensures { OnOk result (table.new
        ≡ with_all is_same_import_key table.old
        (interface_entry (used_in uses.now) resolve.now (key.now, item.now))) }
{
    let WorldItem::Interface(id) = item else {
        return Ok(());
    };
    let lowerings = interface_lowerings(alloc, uses, resolve, key, *id)?;
    let interface_key = Some(key.try_clone(alloc)?);
    let entry = ImportedInterface {
        lowerings,
        interface: Some(*id),
    };
    table.insert_if_absent(interface_key, entry)
}

/// A table with the root alone.
fn of_root(
    alloc: Global,
    lowerings: Lowerings,
) -> Result<Keyed<Option<WorldKey>, ImportedInterface>, AllocError>
    ensures { IfOk result
        (λ t. t ≡ (None, record { lowerings = lowerings; interface = None }) ∷ []) }
{
    let mut table = Keyed::new(alloc);
    let entry = ImportedInterface {
        lowerings,
        interface: None,
    };
    table.insert_if_absent(None, entry)?;
    Ok(table)
}

/// What is lowered of what the world imports, by what its core imports use.
#[tactic(auto, using(crate::proofs::Entering::after_item))]
pub(crate) fn imported(
    alloc: Global,
    uses: &Uses,
    resolve: &Resolve,
    entries: &Keyed<WorldKey, WorldItem>,
) -> Result<Keyed<Option<WorldKey>, ImportedInterface>, AllocError>
    requires sound { IsSound resolve.now }
    requires all_present { AllByRecursion (HasEntry resolve.now) entries.now }
    ensures { IfOk result (λ t. t ≡ imported (used_in uses.now) resolve.now entries.now) }
{
    let root = root_lowerings(alloc, uses, resolve, entries)?;
    let mut table = of_root(alloc, root)?;
    for (key, item) in entries.iter() {
        add_interface(alloc, &mut table, uses, resolve, key, item)?;
    }
    Ok(table)
}
