//! Interfaces and items of a world by name.

ghost use Rattle.std.specs.Prelude.{◌≡◌, [], OnOk, IfOk};
ghost use Rattle.json_paths.specs.Faults.{Gives};
ghost use Rattle.comp_lists.specs.Tables.{with_first};
ghost use Rattle.record_values.specs.Names.{is_same_item};
ghost use Rattle.record_values.specs.Renaming.{renamed};
ghost use Rattle.record_worlds.specs.Naming.{index_name};
ghost use Rattle.record_worlds.specs.Tables.{renamed_content, with_interface, with_same, interfaces_from, is_seen, with_seen, with_item, side_from, side_at};

use crate::naming::{Entry, Names, index_name};
use comp_lists::{Keyed, SharedText, TryClone};
use json_paths::{Failure, Refusal, fault_here, under, under_index};
use record_sides::Side;
use record_types::ReadInterface;
use record_values::{Interface, InterfaceName, Item, ItemKey, rename_interface, rename_name};
use std::alloc::{AllocError, Global};

/// Interfaces by name.
pub(crate) type Interfaces = Keyed<InterfaceName, Interface>;

/// Names of interfaces.
pub(crate) type InterfaceSet = Keyed<InterfaceName, ()>;

/// The items of a side by key, and the interfaces among them.
#[derive(Drop)]
pub(crate) struct SideTable {
    pub items: Keyed<ItemKey, Item>,
    pub interfaces: InterfaceSet,
}

/// The contents of an interface, where interfaces have their names.
fn rename_content(
    alloc: Global,
    names: &Names,
    read: &ReadInterface,
) -> Result<Interface, AllocError>
    ensures { IfOk result (λ x. x ≡ renamed_content names.now read.now) }
{
    let interface = Interface {
        types: read.types.clone(alloc)?,
        functions: read.functions.clone(alloc)?,
    };
    rename_interface(alloc, names, &interface)
}

/// Adds an interface that has an id: another of the same id must be equal.
fn add_same(
    alloc: Global,
    table: &mut Interfaces,
    id: &SharedText,
    interface: Interface,
) -> Result<(), Failure>
    ensures { Gives (λ _. table.new) result
        (with_same ⟦<Interface as PartialEq>⟧.eq table.old id.now interface) }
{
    let name = InterfaceName::Id(id.try_clone(alloc)?);
    match table.get(&name) {
        Some(other) => {
            if *other == interface {
                Ok(())
            } else {
                Err(Failure::Refused(Refusal::MergeConflict {
                    name: id.as_text().clone(alloc)?,
                }))
            }
        }
        None => {
            table.insert(name, interface)?;
            Ok(())
        }
    }
}

/// Adds an interface, unless it is not in the world.
fn add_interface(
    alloc: Global,
    table: &mut Interfaces,
    name: InterfaceName,
    interface: Interface,
) -> Result<(), Failure>
    ensures { Gives (λ _. table.new) result
        (with_interface ⟦<Interface as PartialEq>⟧.eq table.old name interface) }
{
    match &name {
        InterfaceName::Id(id) => add_same(alloc, table, id, interface),
        InterfaceName::Unused(_) => Ok(()),
        _ => Ok(table.insert_if_absent(name, interface)?),
    }
}

/// Adds the interface at an index of a record, unless it is not in the world.
fn add_read(
    alloc: Global,
    names: &Names,
    table: &mut Interfaces,
    index: usize,
    read: &ReadInterface,
) -> Result<(), Failure>
    ensures { Gives (λ _. table.new) result (with_interface ⟦<Interface as PartialEq>⟧.eq table.old
        (renamed names.now (index_name index)) (renamed_content names.now read.now)) }
{
    let name = rename_name(alloc, names, &index_name(index))?;
    let interface = rename_content(alloc, names, read)?;
    add_interface(alloc, table, name, interface)
}

/// The interfaces of a record that have an id or are in the world.
pub(crate) fn table_interfaces(
    alloc: Global,
    names: &Names,
    interfaces: &[ReadInterface],
) -> Result<Interfaces, Failure>
    ensures { Gives (λ t. t) result
        (interfaces_from ⟦<Interface as PartialEq>⟧.eq names.now 0 [] interfaces.now) }
{
    let mut table = Keyed::new(alloc);
    for (index, read) in interfaces.iter().enumerate() {
        add_read(alloc, names, &mut table, index, read)?;
    }
    Ok(table)
}

/// Whether an item is an interface that is in the set.
fn is_seen(interfaces: &InterfaceSet, item: &Item) -> bool
    ensures { result ≡ is_seen interfaces.now item.now }
{
    match item {
        Item::Interface(name) => interfaces.contains_key(name),
        Item::Function(_) => false,
        Item::Type(_) => false,
    }
}

/// Adds an item to the set of interfaces, where it is one.
pub(crate) fn note_seen(
    alloc: Global,
    interfaces: &mut InterfaceSet,
    item: &Item,
) -> Result<(), AllocError>
    ensures { OnOk result (interfaces.new ≡ with_seen interfaces.old item.now) }
{
    match item {
        Item::Interface(name) => interfaces.insert_if_absent(name.try_clone(alloc)?, ()),
        Item::Function(_) => Ok(()),
        Item::Type(_) => Ok(()),
    }
}

/// Adds an entry: its item, unless its key has one, and its interface, where it is one.
fn put_entry(alloc: Global, table: &mut SideTable, entry: &Entry) -> Result<(), AllocError>
    ensures { OnOk result (table.new ≡ record {
      items = with_first is_same_item table.old.items entry.now.key entry.now.item;
      interfaces = with_seen table.old.interfaces entry.now.item;
    }) }
{
    note_seen(alloc, &mut table.interfaces, &entry.item)?;
    let key = entry.key.try_clone(alloc)?;
    let item = entry.item.try_clone(alloc)?;
    table.items.insert_if_absent(key, item)
}

/// Adds the entry at an index: its key and its interface must be new.
fn add_entry(
    alloc: Global,
    table: &mut SideTable,
    index: usize,
    entry: &Entry,
) -> Result<(), Failure>
    ensures { Gives (λ _. table.new) result (with_item index table.old entry.now) }
{
    if table.items.contains_key(&entry.key) {
        return under_index(alloc, index, Err(fault_here(alloc)));
    }
    if is_seen(&table.interfaces, &entry.item) {
        return under_index(alloc, index, Err(fault_here(alloc)));
    }
    Ok(put_entry(alloc, table, entry)?)
}

/// The items of a side by key; faults are reported below its list.
fn table_entries(alloc: Global, entries: &[Entry]) -> Result<SideTable, Failure>
    ensures { Gives (λ t. t) result
        (side_from 0 (record { items = []; interfaces = [] }) entries.now) }
{
    let mut table = SideTable {
        items: Keyed::new(alloc),
        interfaces: Keyed::new(alloc),
    };
    for (index, entry) in entries.iter().enumerate() {
        add_entry(alloc, &mut table, index, entry)?;
    }
    Ok(table)
}

/// The items of a side by key: no key and no interface occurs twice.
pub(crate) fn table_side(alloc: Global, side: Side, entries: &[Entry]) -> Result<SideTable, Failure>
    ensures { Gives (λ t. t) result (side_at side entries.now) }
{
    match side {
        Side::Import => under(alloc, "imports", table_entries(alloc, entries)),
        Side::Export => under(alloc, "exports", table_entries(alloc, entries)),
    }
}
