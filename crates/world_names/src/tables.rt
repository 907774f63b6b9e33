//! What a world has by name.

ghost use Rattle.std.specs.Prelude.{◌≡◌, [], Some, IfOk, OnOk};
ghost use Rattle.record_versions.specs.Compatible as versions;
ghost use Rattle.record_versions.specs.Groups.{candidates, greatest_after};
ghost use Rattle.world_names.specs.WorldNames.{owned, with_functions, functions_after, with_alias, with_named, with_type, with_types, of_interfaces, with_item, of_items, with_compatible, with_exported, exported_after, resources_of, tables_of, with_tables, names_of};

use comp_lists::{Keyed, Text, TryClone};
use name_parts::{Reading, Refusal};
use record_values::{
    Func, Interface, InterfaceName, Item, ItemKey, Node, Owner, TypeName, Typed, Wit,
};
use record_versions::{Compatible, Greatest, compatible_of, greatest_imports};
use std::alloc::{AllocError, Global};

/// The functions of interfaces, by the interface and the name.
type Functions = Keyed<TypeName, ()>;

/// Resources by their names, each with the resource that it is.
pub type Resources = Keyed<TypeName, TypeName>;

/// Exported interfaces by the ids that compatible versions share.
type Exported = Keyed<Text, Reading<InterfaceName>>;

/// What a world has by name, with the world. It is made once of a world, and then each look-up takes the time of a
/// hash.
pub struct WorldNames {
    pub(crate) wit: Wit,
    pub(crate) functions: Functions,
    pub(crate) resources: Resources,
    pub(crate) imported_versions: Greatest,
    pub(crate) exported_versions: Exported,
}

impl Drop for WorldNames {
    fn drop(self) {
        let WorldNames {
            wit: _,
            functions: _,
            resources: _,
            imported_versions: _,
            exported_versions: _,
        } = self;
    }
}

/// The tables of a world.
#[derive(Drop)]
struct Tables {
    functions: Functions,
    resources: Resources,
    imported_versions: Greatest,
    exported_versions: Exported,
}

// ---- functions

/// What an interface has under a name.
fn owned(alloc: Global, interface: &InterfaceName, name: &Text) -> Result<TypeName, AllocError>
    ensures { IfOk result (λ t. t ≡ owned (Owner.Interface interface.now) name.now) }
{
    let owner = Owner::Interface(interface.try_clone(alloc)?);
    let name = name.clone(alloc)?;
    Ok(TypeName { owner, name })
}

fn add_functions(
    alloc: Global,
    table: &mut Functions,
    interface: &InterfaceName,
    functions: &[Func],
) -> Result<(), AllocError>
    ensures { OnOk result (table.new ≡ with_functions table.old interface.now functions.now) }
{
    for function in functions {
        table.insert_if_absent(owned(alloc, interface, &function.name)?, ())?;
    }
    Ok(())
}

fn functions_of(
    alloc: Global,
    interfaces: &Keyed<InterfaceName, Interface>,
) -> Result<Functions, AllocError>
    ensures { IfOk result (λ t. t ≡ functions_after [] interfaces.now) }
{
    let mut table = Keyed::new(alloc);
    for (name, interface) in interfaces.iter() {
        add_functions(alloc, &mut table, name, interface.functions.as_slice())?;
    }
    Ok(table)
}

// ---- resources

/// Adds a name for the same resource as another one, if that is one.
fn add_alias(
    alloc: Global,
    table: &mut Resources,
    name: TypeName,
    other: &TypeName,
) -> Result<(), AllocError>
    ensures { OnOk result (table.new ≡ with_named table.old name (Node.Named other.now)) }
{
    let Some(resource) = table.get(other) else {
        return Ok(());
    };
    let resource = resource.try_clone(alloc)?;
    table.insert_if_absent(name, resource)
}

fn add_named(
    alloc: Global,
    table: &mut Resources,
    name: TypeName,
    node: &Node,
) -> Result<(), AllocError>
    ensures { OnOk result (table.new ≡ with_named table.old name node.now) }
{
    match node {
        Node::Resource => {
            let resource = name.try_clone(alloc)?;
            table.insert_if_absent(name, resource)
        }
        Node::Named(other) => add_alias(alloc, table, name, other),
        _ => Ok(()),
    }
}

fn add_type(
    alloc: Global,
    table: &mut Resources,
    name: TypeName,
    nodes: &[Node],
) -> Result<(), AllocError>
    ensures { OnOk result (table.new ≡ with_type table.old name nodes.now) }
{
    match nodes {
        [node] => add_named(alloc, table, name, node),
        _ => Ok(()),
    }
}

fn add_types(
    alloc: Global,
    table: &mut Resources,
    interface: &InterfaceName,
    types: &[Typed],
) -> Result<(), AllocError>
    ensures { OnOk result (table.new ≡ with_types table.old interface.now types.now) }
{
    for typed in types {
        let name = owned(alloc, interface, &typed.name)?;
        add_type(alloc, table, name, typed.nodes.as_slice())?;
    }
    Ok(())
}

fn add_interfaces(
    alloc: Global,
    table: &mut Resources,
    interfaces: &Keyed<InterfaceName, Interface>,
) -> Result<(), AllocError>
    ensures { OnOk result (table.new ≡ of_interfaces table.old interfaces.now) }
{
    for (name, interface) in interfaces.iter() {
        add_types(alloc, table, name, interface.types.as_slice())?;
    }
    Ok(())
}

fn add_item(
    alloc: Global,
    table: &mut Resources,
    key: &ItemKey,
    item: &Item,
) -> Result<(), AllocError>
    ensures { OnOk result (table.new ≡ with_item table.old key.now item.now) }
{
    match item {
        Item::Type(nodes) => {
            let name = key.text().clone(alloc)?;
            let owner = Owner::World;
            add_type(alloc, table, TypeName { owner, name }, nodes.as_slice())
        }
        _ => Ok(()),
    }
}

fn add_items(
    alloc: Global,
    table: &mut Resources,
    items: &Keyed<ItemKey, Item>,
) -> Result<(), AllocError>
    ensures { OnOk result (table.new ≡ of_items table.old items.now) }
{
    for (key, item) in items.iter() {
        add_item(alloc, table, key, item)?;
    }
    Ok(())
}

/// The resources of a world by their names, each with the resource that it is. The only error is out of memory.
pub fn resources_of(alloc: Global, wit: &Wit) -> Result<Resources, AllocError>
    ensures { IfOk result (λ t. t ≡ resources_of wit.now) }
{
    let mut table = Keyed::new(alloc);
    add_interfaces(alloc, &mut table, &wit.interfaces)?;
    add_items(alloc, &mut table, &wit.imports)?;
    Ok(table)
}

// ---- compatible versions

/// The part of an interface's id that compatible versions share, if it has one.
pub(crate) fn compatible(
    alloc: Global,
    name: &InterfaceName,
) -> Result<Option<Compatible>, AllocError>
    ensures { IfOk result (λ c. c ≡ versions.compatible name.now) }
{
    match compatible_of(alloc, name) {
        Ok(compatible) => Ok(compatible),
        Err(failure) => {
            drop(failure);
            Err(AllocError)
        }
    }
}

fn add_compatible(
    alloc: Global,
    table: &mut Exported,
    name: InterfaceName,
    compatible: &Compatible,
) -> Result<(), AllocError>
    ensures { OnOk result (table.new ≡ with_compatible table.old name (Some compatible.now)) }
{
    let canonical = compatible.canonical.clone(alloc)?;
    if table.contains_key(&canonical) {
        table.set(canonical, Reading::Refused(Refusal::SeveralMeanings))
    } else {
        table.set(canonical, Reading::Means(name))
    }
}

fn add_interface(
    alloc: Global,
    table: &mut Exported,
    name: &InterfaceName,
) -> Result<(), AllocError>
    ensures { OnOk result (table.new ≡ with_compatible table.old name.now
        (versions.compatible name.now)) }
{
    let Some(compatible) = compatible(alloc, name)? else {
        return Ok(());
    };
    let name = name.try_clone(alloc)?;
    add_compatible(alloc, table, name, &compatible)
}

fn add_exported(alloc: Global, table: &mut Exported, item: &Item) -> Result<(), AllocError>
    ensures { OnOk result (table.new ≡ with_exported table.old item.now) }
{
    match item {
        Item::Interface(name) => add_interface(alloc, table, name),
        _ => Ok(()),
    }
}

fn exported_of(alloc: Global, items: &Keyed<ItemKey, Item>) -> Result<Exported, AllocError>
    ensures { IfOk result (λ t. t ≡ exported_after [] items.now) }
{
    let mut table = Keyed::new(alloc);
    for (_key, item) in items.iter() {
        add_exported(alloc, &mut table, item)?;
    }
    Ok(table)
}

fn imported_of(alloc: Global, items: &Keyed<ItemKey, Item>) -> Result<Greatest, AllocError>
    ensures { IfOk result (λ t. t ≡ greatest_after [] (candidates items.now)) }
{
    match greatest_imports(alloc, items) {
        Ok(table) => Ok(table),
        Err(failure) => {
            drop(failure);
            Err(AllocError)
        }
    }
}

fn tables_of(alloc: Global, wit: &Wit) -> Result<Tables, AllocError>
    ensures { IfOk result (λ t. t ≡ tables_of wit.now) }
{
    let functions = functions_of(alloc, &wit.interfaces)?;
    let resources = resources_of(alloc, wit)?;
    let imported_versions = imported_of(alloc, &wit.imports)?;
    let exported_versions = exported_of(alloc, &wit.exports)?;
    Ok(Tables {
        functions,
        resources,
        imported_versions,
        exported_versions,
    })
}

fn with_tables(wit: Wit, tables: Tables) -> WorldNames
    ensures { result ≡ with_tables wit tables }
{
    let Tables {
        functions,
        resources,
        imported_versions,
        exported_versions,
    } = tables;
    WorldNames {
        wit,
        functions,
        resources,
        imported_versions,
        exported_versions,
    }
}

impl WorldNames {
    /// The names of a world. The only error is out of memory.
    pub fn of(alloc: Global, wit: Wit) -> Result<WorldNames, AllocError>
        ensures { IfOk result (λ n. n ≡ names_of wit) }
    {
        match tables_of(alloc, &wit) {
            Ok(tables) => Ok(with_tables(wit, tables)),
            Err(refused) => {
                drop(wit);
                Err(refused)
            }
        }
    }

    /// The world.
    pub fn into_wit(self) -> Wit
        ensures { result ≡ self.wit }
    {
        let WorldNames {
            wit,
            functions: _,
            resources: _,
            imported_versions: _,
            exported_versions: _,
        } = self;
        wit
    }
}
