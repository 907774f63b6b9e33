//! What types are of which others are made.

ghost use Rattle.std.specs.Prelude.{◌≡◌, IfOk, OnOk};
ghost use Rattle.std.specs.List.{list_any};
ghost use Rattle.world_names.specs.WorldNames.{owned};
ghost use Rattle.world_warnings.specs.Facts.{node_borrows, borrows, with_type, with_types, of_interfaces, with_item, of_items, borrowing_of, facts_of};

use comp_lists::{Keyed, Text, TryClone};
use record_values::{Interface, InterfaceName, Item, ItemKey, Node, Owner, TypeName, Typed, Wit};
use std::alloc::{AllocError, Global};
use world_names::{Resources, resources_of};

/// The named types that hold a borrowed handle.
pub(crate) type Borrowing = Keyed<TypeName, ()>;

/// What is known of the named types of a world.
#[derive(Drop)]
pub(crate) struct Facts {
    /// The resources by their names, each with the resource that it is.
    pub(crate) resources: Resources,
    pub(crate) borrowing: Borrowing,
}

/// What an owner has under a name. The only error, here and below, is out of memory.
pub(crate) fn owned(alloc: Global, owner: &Owner, name: &str) -> Result<TypeName, AllocError>
    ensures { IfOk result (λ t. t ≡ owned owner.now name.now) }
{
    let owner = owner.try_clone(alloc)?;
    let name = Text::from_str(alloc, name)?;
    Ok(TypeName { owner, name })
}

/// What an interface has under a name.
fn owned_by(alloc: Global, interface: &InterfaceName, name: &Text) -> Result<TypeName, AllocError>
    ensures { IfOk result (λ t. t ≡ owned (Owner.Interface interface.now) name.now) }
{
    let owner = Owner::Interface(interface.try_clone(alloc)?);
    let name = name.clone(alloc)?;
    Ok(TypeName { owner, name })
}

// ---- types that hold a borrowed handle

fn node_borrows(table: &Borrowing, node: &Node) -> bool
    ensures { result ≡ node_borrows table.now node.now }
{
    match node {
        Node::Borrow(_) => true,
        Node::Named(named) => table.contains_key(named),
        _ => false,
    }
}

/// Whether a type holds a borrowed handle.
pub(crate) fn borrows(table: &Borrowing, nodes: &[Node]) -> bool
    ensures { result ≡ list_any (node_borrows table.now) nodes.now }
{
    for node in nodes {
        if node_borrows(table, node) {
            return true;
        }
    }
    false
}

fn add_type(table: &mut Borrowing, name: TypeName, nodes: &[Node]) -> Result<(), AllocError>
    ensures { OnOk result (table.new ≡ with_type table.old name nodes.now) }
{
    if borrows(table, nodes) {
        table.insert_if_absent(name, ())
    } else {
        drop(name);
        Ok(())
    }
}

fn add_types(
    alloc: Global,
    table: &mut Borrowing,
    interface: &InterfaceName,
    types: &[Typed],
) -> Result<(), AllocError>
    ensures { OnOk result (table.new ≡ with_types table.old interface.now types.now) }
{
    for typed in types {
        let name = owned_by(alloc, interface, &typed.name)?;
        add_type(table, name, typed.nodes.as_slice())?;
    }
    Ok(())
}

fn add_interfaces(
    alloc: Global,
    table: &mut Borrowing,
    interfaces: &Keyed<InterfaceName, Interface>,
) -> Result<(), AllocError>
    ensures { OnOk result (table.new ≡ of_interfaces table.old interfaces.now) }
{
    for (name, interface) in interfaces.iter() {
        add_types(alloc, table, name, interface.types.as_slice())?;
    }
    Ok(())
}

fn add_item(
    alloc: Global,
    table: &mut Borrowing,
    key: &ItemKey,
    item: &Item,
) -> Result<(), AllocError>
    ensures { OnOk result (table.new ≡ with_item table.old key.now item.now) }
{
    match item {
        Item::Type(nodes) => {
            let name = key.text().clone(alloc)?;
            let owner = Owner::World;
            add_type(table, TypeName { owner, name }, nodes.as_slice())
        }
        _ => Ok(()),
    }
}

fn add_items(
    alloc: Global,
    table: &mut Borrowing,
    items: &Keyed<ItemKey, Item>,
) -> Result<(), AllocError>
    ensures { OnOk result (table.new ≡ of_items table.old items.now) }
{
    for (key, item) in items.iter() {
        add_item(alloc, table, key, item)?;
    }
    Ok(())
}

fn borrowing_of(alloc: Global, wit: &Wit) -> Result<Borrowing, AllocError>
    ensures { IfOk result (λ t. t ≡ borrowing_of wit.now) }
{
    let mut table = Keyed::new(alloc);
    add_interfaces(alloc, &mut table, &wit.interfaces)?;
    add_items(alloc, &mut table, &wit.imports)?;
    Ok(table)
}

/// What is known of the named types of a world.
pub(crate) fn facts_of(alloc: Global, wit: &Wit) -> Result<Facts, AllocError>
    ensures { IfOk result (λ f. f ≡ facts_of wit.now) }
{
    let resources = resources_of(alloc, wit)?;
    let borrowing = borrowing_of(alloc, wit)?;
    Ok(Facts {
        resources,
        borrowing,
    })
}
