//! Warnings of a world.

ghost use Rattle.std.specs.Prelude.{◌≡◌, ◌++◌, ◌∷◌, [], map, codes, IfOk, OnOk};
ghost use Rattle.std.specs.List.{flat_map};
ghost use Rattle.record_values.specs.Names.{key_text};
ghost use Rattle.name_warnings.specs.Repeats.{repeats};
ghost use Rattle.world_warnings.specs.Worlds.{typed_warnings, types_warnings, named_function_warnings, functions_warnings, form_warnings, member_names, interface_at, interface_warnings, world_function_warnings, world_type_warnings, item_warnings, side_warnings, interfaces_warnings, warnings_of};

use crate::facts::{Facts, facts_of};
use crate::functions::add_function;
use crate::types::add_definition;
use comp_lists::{Keyed, Seq, Text, TryClone};
use name_warnings::{
    Warning, add_interface_name, add_label, add_plain_name, add_repeats, add_world_name, longer,
};
use record_values::{Func, Interface, InterfaceName, Item, ItemKey, Node, Owner, Typed, Wit};
use std::alloc::{AllocError, Global};
use world_names::Resources;

// ---- types and functions with their names

/// Adds the warnings of a named type, behind this path.
fn add_named_type(
    alloc: Global,
    warnings: &mut Seq<Warning>,
    resources: &Resources,
    path: &Seq<Text>,
    typed: &Typed,
) -> Result<(), AllocError>
    ensures { OnOk result
        (warnings.new ≡ warnings.old ++ typed_warnings resources.now path.now typed.now) }
{
    let at = longer(alloc, path, typed.name.as_str())?;
    add_label(alloc, warnings, path, typed.name.as_str())?;
    add_definition(alloc, warnings, resources, &at, typed.nodes.as_slice())?;
    Ok(())
}

/// Adds the warnings of a function of an owner, behind this path.
fn add_named_function(
    alloc: Global,
    warnings: &mut Seq<Warning>,
    facts: &Facts,
    owner: &Owner,
    path: &Seq<Text>,
    function: &Func,
) -> Result<(), AllocError>
    ensures { OnOk result (warnings.new
        ≡ warnings.old ++ named_function_warnings facts.now owner.now path.now function.now) }
{
    let at = longer(alloc, path, function.name.as_str())?;
    add_plain_name(alloc, warnings, path, function.name.as_str())?;
    add_function(alloc, warnings, facts, owner, &at, function)?;
    Ok(())
}

// ---- interfaces

fn add_types(
    alloc: Global,
    warnings: &mut Seq<Warning>,
    resources: &Resources,
    path: &Seq<Text>,
    types: &[Typed],
) -> Result<(), AllocError>
    ensures { OnOk result
        (warnings.new ≡ warnings.old ++ types_warnings resources.now types.now path.now) }
{
    for typed in types {
        add_named_type(alloc, warnings, resources, path, typed)?;
    }
    Ok(())
}

fn add_functions(
    alloc: Global,
    warnings: &mut Seq<Warning>,
    facts: &Facts,
    owner: &Owner,
    path: &Seq<Text>,
    functions: &[Func],
) -> Result<(), AllocError>
    ensures { OnOk result
        (warnings.new ≡ warnings.old ++ functions_warnings facts.now owner.now functions.now path.now) }
{
    for function in functions {
        add_named_function(alloc, warnings, facts, owner, path, function)?;
    }
    Ok(())
}

/// Adds a warning where the name of an interface isn't in kebab case: its id, or its name in the world.
fn add_form(
    alloc: Global,
    warnings: &mut Seq<Warning>,
    path: &Seq<Text>,
    name: &InterfaceName,
) -> Result<(), AllocError>
    ensures { OnOk result (warnings.new ≡ warnings.old ++ form_warnings path.now name.now) }
{
    match name {
        InterfaceName::Id(text) => add_interface_name(alloc, warnings, path, text.as_str()),
        InterfaceName::Imported(text) => add_label(alloc, warnings, path, text.as_str()),
        InterfaceName::Exported(text) => add_label(alloc, warnings, path, text.as_str()),
        InterfaceName::Unused(_) => Ok(()),
    }
}

fn type_names(alloc: Global, types: &[Typed]) -> Result<Seq<Text>, AllocError>
    ensures { IfOk result (λ ns. ns ≡ map (λ t. t.name) types.now) }
{
    let mut names = Seq::new(alloc);
    for typed in types {
        names.push(typed.name.clone(alloc)?)?;
    }
    Ok(names)
}

fn function_names(alloc: Global, functions: &[Func]) -> Result<Seq<Text>, AllocError>
    ensures { IfOk result (λ ns. ns ≡ map (λ f. f.name) functions.now) }
{
    let mut names = Seq::new(alloc);
    for function in functions {
        names.push(function.name.clone(alloc)?)?;
    }
    Ok(names)
}

/// The names that an instance of an interface exports: of its types and of its functions.
fn member_names(alloc: Global, interface: &Interface) -> Result<Seq<Text>, AllocError>
    ensures { IfOk result (λ ns. ns ≡ member_names interface.now) }
{
    let mut names = type_names(alloc, interface.types.as_slice())?;
    let others = function_names(alloc, interface.functions.as_slice())?;
    names.append(others)?;
    Ok(names)
}

fn add_members(
    alloc: Global,
    warnings: &mut Seq<Warning>,
    path: &Seq<Text>,
    interface: &Interface,
) -> Result<(), AllocError>
    ensures { OnOk result
        (warnings.new ≡ warnings.old ++ repeats path.now (member_names interface.now)) }
{
    let names = member_names(alloc, interface)?;
    add_repeats(alloc, warnings, path, names.as_slice())
}

fn add_types_at(
    alloc: Global,
    warnings: &mut Seq<Warning>,
    resources: &Resources,
    path: &Seq<Text>,
    interface: &Interface,
) -> Result<(), AllocError>
    ensures { OnOk result (warnings.new ≡ warnings.old
        ++ types_warnings resources.now interface.now.types (path.now ++ codes "types" ∷ [])) }
{
    let at = longer(alloc, path, "types")?;
    add_types(alloc, warnings, resources, &at, interface.types.as_slice())
}

fn add_functions_at(
    alloc: Global,
    warnings: &mut Seq<Warning>,
    facts: &Facts,
    owner: &Owner,
    path: &Seq<Text>,
    interface: &Interface,
) -> Result<(), AllocError>
    ensures { OnOk result (warnings.new ≡ warnings.old ++ functions_warnings facts.now owner.now
        interface.now.functions (path.now ++ codes "functions" ∷ [])) }
{
    let at = longer(alloc, path, "functions")?;
    let functions = interface.functions.as_slice();
    add_functions(alloc, warnings, facts, owner, &at, functions)
}

/// Adds the warnings of what an interface has, at its path.
fn add_interface_at(
    alloc: Global,
    warnings: &mut Seq<Warning>,
    facts: &Facts,
    owner: &Owner,
    path: &Seq<Text>,
    interface: &Interface,
) -> Result<(), AllocError>
    ensures { OnOk result (warnings.new
        ≡ warnings.old ++ interface_at facts.now owner.now interface.now path.now) }
{
    add_members(alloc, warnings, path, interface)?;
    add_types_at(alloc, warnings, &facts.resources, path, interface)?;
    add_functions_at(alloc, warnings, facts, owner, path, interface)?;
    Ok(())
}

fn add_named_interface(
    alloc: Global,
    warnings: &mut Seq<Warning>,
    facts: &Facts,
    path: &Seq<Text>,
    name: &InterfaceName,
    interface: &Interface,
) -> Result<(), AllocError>
    ensures { OnOk result (warnings.new
        ≡ warnings.old ++ interface_warnings facts.now path.now (name.now, interface.now)) }
{
    let owner = Owner::Interface(name.try_clone(alloc)?);
    let at = longer(alloc, path, name.text())?;
    add_form(alloc, warnings, path, name)?;
    add_interface_at(alloc, warnings, facts, &owner, &at, interface)?;
    Ok(())
}

fn add_interfaces(
    alloc: Global,
    warnings: &mut Seq<Warning>,
    facts: &Facts,
    path: &Seq<Text>,
    interfaces: &Keyed<InterfaceName, Interface>,
) -> Result<(), AllocError>
    ensures { OnOk result (warnings.new
        ≡ warnings.old ++ flat_map (interface_warnings facts.now path.now) interfaces.now) }
{
    for (name, interface) in interfaces.iter() {
        add_named_interface(alloc, warnings, facts, path, name, interface)?;
    }
    Ok(())
}

// ---- the world's own items

fn add_world_function(
    alloc: Global,
    warnings: &mut Seq<Warning>,
    facts: &Facts,
    path: &Seq<Text>,
    function: &Func,
) -> Result<(), AllocError>
    ensures { OnOk result (warnings.new
        ≡ warnings.old ++ world_function_warnings facts.now path.now function.now) }
{
    let owner = Owner::World;
    let at = longer(alloc, path, function.name.as_str())?;
    add_world_name(alloc, warnings, path, function.name.as_str())?;
    add_function(alloc, warnings, facts, &owner, &at, function)?;
    Ok(())
}

fn add_world_type(
    alloc: Global,
    warnings: &mut Seq<Warning>,
    resources: &Resources,
    path: &Seq<Text>,
    name: &str,
    nodes: &[Node],
) -> Result<(), AllocError>
    ensures { OnOk result (warnings.new
        ≡ warnings.old ++ world_type_warnings resources.now path.now name.now nodes.now) }
{
    let at = longer(alloc, path, name)?;
    add_world_name(alloc, warnings, path, name)?;
    add_definition(alloc, warnings, resources, &at, nodes)?;
    Ok(())
}

fn add_item(
    alloc: Global,
    warnings: &mut Seq<Warning>,
    facts: &Facts,
    path: &Seq<Text>,
    key: &ItemKey,
    item: &Item,
) -> Result<(), AllocError>
    ensures { OnOk result (warnings.new
        ≡ warnings.old ++ item_warnings facts.now path.now (key.now, item.now)) }
{
    match item {
        Item::Interface(_) => Ok(()),
        Item::Function(function) => add_world_function(alloc, warnings, facts, path, function),
        Item::Type(nodes) => {
            let name = key.text().as_str();
            add_world_type(
                alloc,
                warnings,
                &facts.resources,
                path,
                name,
                nodes.as_slice(),
            )
        }
    }
}

fn add_items(
    alloc: Global,
    warnings: &mut Seq<Warning>,
    facts: &Facts,
    path: &Seq<Text>,
    items: &Keyed<ItemKey, Item>,
) -> Result<(), AllocError>
    ensures { OnOk result (warnings.new
        ≡ warnings.old ++ flat_map (item_warnings facts.now path.now) items.now) }
{
    for (key, item) in items.iter() {
        add_item(alloc, warnings, facts, path, key, item)?;
    }
    Ok(())
}

fn item_names(alloc: Global, items: &Keyed<ItemKey, Item>) -> Result<Seq<Text>, AllocError>
    ensures { IfOk result (λ ns. ns ≡ map (λ e. key_text e.0) items.now) }
{
    let mut names = Seq::new(alloc);
    for (key, _item) in items.iter() {
        names.push(key.text().clone(alloc)?)?;
    }
    Ok(names)
}

/// Adds the warnings of a side of the world, at its path.
fn add_side_at(
    alloc: Global,
    warnings: &mut Seq<Warning>,
    facts: &Facts,
    path: &Seq<Text>,
    items: &Keyed<ItemKey, Item>,
) -> Result<(), AllocError>
    ensures { OnOk result
        (warnings.new ≡ warnings.old ++ side_warnings facts.now items.now path.now) }
{
    let names = item_names(alloc, items)?;
    add_repeats(alloc, warnings, path, names.as_slice())?;
    add_items(alloc, warnings, facts, path, items)?;
    Ok(())
}

fn add_side(
    alloc: Global,
    warnings: &mut Seq<Warning>,
    facts: &Facts,
    path: &Seq<Text>,
    side: &str,
    items: &Keyed<ItemKey, Item>,
) -> Result<(), AllocError>
    ensures { OnOk result (warnings.new ≡ warnings.old
        ++ side_warnings facts.now items.now (path.now ++ side.now ∷ [])) }
{
    let at = longer(alloc, path, side)?;
    add_side_at(alloc, warnings, facts, &at, items)
}

fn add_all_interfaces(
    alloc: Global,
    warnings: &mut Seq<Warning>,
    facts: &Facts,
    path: &Seq<Text>,
    wit: &Wit,
) -> Result<(), AllocError>
    ensures { OnOk result (warnings.new
        ≡ warnings.old ++ interfaces_warnings facts.now path.now wit.now.interfaces) }
{
    let at = longer(alloc, path, "interfaces")?;
    add_interfaces(alloc, warnings, facts, &at, &wit.interfaces)
}

/// Adds the warnings of a world, behind this path. The only error is out of memory.
pub fn add_world_warnings(
    alloc: Global,
    warnings: &mut Seq<Warning>,
    path: &Seq<Text>,
    wit: &Wit,
) -> Result<(), AllocError>
    ensures { OnOk result (warnings.new ≡ warnings.old ++ warnings_of path.now wit.now) }
{
    let facts = facts_of(alloc, wit)?;
    add_all_interfaces(alloc, warnings, &facts, path, wit)?;
    add_side(alloc, warnings, &facts, path, "imports", &wit.imports)?;
    add_side(alloc, warnings, &facts, path, "exports", &wit.exports)?;
    Ok(())
}
