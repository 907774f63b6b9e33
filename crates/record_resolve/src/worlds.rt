//! The interfaces and the items of a world.

ghost use Rattle.std.specs.Prelude.{◌≡◌, [], IfOk, OnOk};
ghost use Rattle.json_paths.specs.Faults.{Gives};
ghost use Rattle.record_resolve.specs.declared.making.Side.TheVariants as sides;
ghost use Rattle.wit_data.specs.declared.worlds.WorldItem.TheVariants as made_items;
ghost use Rattle.record_resolve.specs.Steps.{Becomes, Makes};
ghost use Rattle.record_resolve.specs.Worlds.{all_named, with_copy, copies_of, with_other, others_of, exported_of, key_of, plain_name, interface_item, function_item, imported_type, type_item, item_of, with_item, items_from, is_async, with_kind, finished, with_finished, finished_from, all_items};

use crate::functions::{function_kind, make_function, plain};
use crate::interfaces::{MadeInterfaces, add_named};
use crate::making::{Making, Side, put_new};
use crate::types::make_named;
use comp_lists::{Keyed, Seq, Text, TryClone};
use json_paths::{Failure, fault_here};
use record_values::{Func, Interface, InterfaceName, Interfaces, Item, ItemKey, Node, Owner};
use std::alloc::{AllocError, Global};
use wit_data::{Function, FunctionKind, InterfaceId, TypeOwner, WorldId, WorldItem, WorldKey};

/// The interfaces of the record by name.
type All = Keyed<InterfaceName, Interface>;

/// The interfaces of a side by name.
type Ids = Keyed<InterfaceName, InterfaceId>;

/// The items of a side of the world.
pub(crate) type Items = Keyed<WorldKey, WorldItem>;

/// Makes the interfaces of a list.
pub(crate) fn add_all(
    alloc: Global,
    making: &mut Making,
    side: Side,
    all: &All,
    names: &Interfaces,
    made_interfaces: &mut MadeInterfaces,
) -> Result<(), Failure>
    ensures { Becomes result (made_interfaces.new, making.new)
        (all_named side all.now names.now (made_interfaces.old, making.old)) }
{
    for (name, _) in names.iter() {
        add_named(alloc, making, side, all, name, made_interfaces)?;
    }
    Ok(())
}

/// Makes the copy of an imported interface that is exported too.
fn add_copy(
    alloc: Global,
    making: &mut Making,
    all: &All,
    name: &InterfaceName,
    made_interfaces: &mut MadeInterfaces,
) -> Result<(), Failure>
    ensures { Becomes result (made_interfaces.new, making.new)
        (with_copy all.now name.now (made_interfaces.old, making.old)) }
{
    if making.exported.contains_key(name) {
        add_named(alloc, making, Side::Exported, all, name, made_interfaces)
    } else {
        Ok(())
    }
}

fn add_copies(
    alloc: Global,
    making: &mut Making,
    all: &All,
    imported: &Interfaces,
    made_interfaces: &mut MadeInterfaces,
) -> Result<(), Failure>
    ensures { Becomes result (made_interfaces.new, making.new)
        (copies_of all.now imported.now (made_interfaces.old, making.old)) }
{
    for (name, _) in imported.iter() {
        add_copy(alloc, making, all, name, made_interfaces)?;
    }
    Ok(())
}

/// Makes an interface that is exported only.
fn add_other(
    alloc: Global,
    making: &mut Making,
    imported: &Interfaces,
    all: &All,
    name: &InterfaceName,
    made_interfaces: &mut MadeInterfaces,
) -> Result<(), Failure>
    ensures { Becomes result (made_interfaces.new, making.new)
        (with_other imported.now all.now name.now (made_interfaces.old, making.old)) }
{
    if making.exported.contains_key(name) && !imported.contains_key(name) {
        add_named(alloc, making, Side::Exported, all, name, made_interfaces)
    } else {
        Ok(())
    }
}

fn add_others(
    alloc: Global,
    making: &mut Making,
    imported: &Interfaces,
    all: &All,
    made_interfaces: &mut MadeInterfaces,
) -> Result<(), Failure>
    ensures { Becomes result (made_interfaces.new, making.new)
        (others_of imported.now all.now all.now (made_interfaces.old, making.old)) }
{
    for (name, _interface) in all.iter() {
        add_other(alloc, making, imported, all, name, made_interfaces)?;
    }
    Ok(())
}

/// Makes the copies of exported interfaces: first of those that are imported too.
#[tactic(auto, unfolding(crate::specs::Worlds::exported_of))]
pub(crate) fn add_exported(
    alloc: Global,
    making: &mut Making,
    imported: &Interfaces,
    all: &All,
    made_interfaces: &mut MadeInterfaces,
) -> Result<(), Failure>
    ensures { Becomes result (made_interfaces.new, making.new)
        (exported_of imported.now all.now (made_interfaces.old, making.old)) }
{
    add_copies(alloc, making, all, imported, made_interfaces)?;
    add_others(alloc, making, imported, all, made_interfaces)
}

fn key_of(alloc: Global, key: &ItemKey, id: InterfaceId) -> Result<WorldKey, AllocError>
    ensures { IfOk result (λ k. k ≡ key_of key.now id) }
{
    match key {
        ItemKey::Name(text) => Ok(WorldKey::Name(text.clone(alloc)?)),
        ItemKey::Interface(_) => Ok(WorldKey::Interface(id)),
    }
}

/// The plain name that a function and a type have.
fn plain_name(alloc: Global, key: &ItemKey) -> Result<Text, Failure>
    ensures { Gives (λ t. t) result (plain_name key.now) }
{
    match key {
        ItemKey::Name(text) => Ok(text.clone(alloc)?),
        ItemKey::Interface(_) => Err(fault_here(alloc)),
    }
}

#[tactic(auto, unfolding(crate::specs::Worlds::interface_item))]
fn interface_item(
    alloc: Global,
    ids: &Ids,
    key: &ItemKey,
    name: &InterfaceName,
) -> Result<(WorldKey, WorldItem), Failure>
    ensures { Gives (λ i. i) result (interface_item ids.now key.now name.now) }
{
    match ids.get(name) {
        Some(id) => Ok((key_of(alloc, key, *id)?, WorldItem::Interface(*id))),
        None => Err(fault_here(alloc)),
    }
}

/// A function that does not belong to a type yet. One that is exported names types of imported interfaces too.
#[tactic(auto, unfolding(crate::specs::Worlds::function_item))]
fn function_item(
    alloc: Global,
    making: &mut Making,
    key: &ItemKey,
    function: &Func,
) -> Result<(WorldKey, WorldItem), Failure>
    ensures { Makes result making.new (function_item key.now function.now making.old) }
{
    let name = plain_name(alloc, key)?;
    let kind = plain(function.is_async);
    let made = make_function(alloc, making, Side::Imported, kind, function)?;
    Ok((WorldKey::Name(name), WorldItem::Function(made)))
}

#[tactic(auto, unfolding(crate::specs::Worlds::imported_type))]
fn imported_type(
    alloc: Global,
    making: &mut Making,
    key: &ItemKey,
    nodes: &[Node],
) -> Result<(WorldKey, WorldItem), Failure>
    ensures { Makes result making.new (imported_type key.now nodes.now making.old) }
{
    let name = plain_name(alloc, key)?;
    let type_owner = TypeOwner::World(WorldId { index: 0 });
    let owner = Owner::World;
    let id = make_named(
        alloc,
        making,
        Side::Imported,
        &owner,
        type_owner,
        &name,
        nodes,
    )?;
    Ok((WorldKey::Name(name), WorldItem::NamedType(id)))
}

fn type_item(
    alloc: Global,
    making: &mut Making,
    side: Side,
    key: &ItemKey,
    nodes: &[Node],
) -> Result<(WorldKey, WorldItem), Failure>
    ensures { Makes result making.new (type_item side key.now nodes.now making.old) }
{
    match side {
        Side::Imported => imported_type(alloc, making, key, nodes),
        Side::Exported => Err(fault_here(alloc)),
    }
}

fn make_item(
    alloc: Global,
    making: &mut Making,
    side: Side,
    ids: &Ids,
    key: &ItemKey,
    item: &Item,
) -> Result<(WorldKey, WorldItem), Failure>
    ensures { Makes result making.new (item_of side ids.now key.now item.now making.old) }
{
    match item {
        Item::Interface(name) => interface_item(alloc, ids, key, name),
        Item::Function(function) => function_item(alloc, making, key, function),
        Item::Type(nodes) => type_item(alloc, making, side, key, nodes.as_slice()),
    }
}

#[tactic(auto, unfolding(crate::specs::Worlds::with_item))]
fn push_item(
    alloc: Global,
    making: &mut Making,
    side: Side,
    ids: &Ids,
    key: &ItemKey,
    item: &Item,
    items: &mut Seq<(WorldKey, WorldItem)>,
) -> Result<(), Failure>
    ensures { Becomes result (items.new, making.new)
        (with_item side ids.now key.now item.now (items.old, making.old)) }
{
    let made = make_item(alloc, making, side, ids, key, item)?;
    items.push(made)?;
    Ok(())
}

/// The items of a side as they are made; its functions do not belong to types yet.
fn make_unfinished(
    alloc: Global,
    making: &mut Making,
    side: Side,
    ids: &Ids,
    entries: &Keyed<ItemKey, Item>,
) -> Result<Seq<(WorldKey, WorldItem)>, Failure>
    ensures { Makes result making.new (items_from side ids.now entries.now ([], making.old)) }
{
    let mut items = Seq::new(alloc);
    for (key, item) in entries.iter() {
        push_item(alloc, making, side, ids, key, item, &mut items)?;
    }
    Ok(items)
}

fn is_async(kind: FunctionKind) -> bool
    ensures { result ≡ is_async kind }
{
    match kind {
        FunctionKind::Freestanding => false,
        FunctionKind::AsyncFreestanding => true,
        FunctionKind::Method(_) => false,
        FunctionKind::AsyncMethod(_) => true,
        FunctionKind::Static(_) => false,
        FunctionKind::AsyncStatic(_) => true,
        FunctionKind::Constructor(_) => false,
    }
}

/// Sets the kind of a function of the world, among all types that are made.
fn set_kind(
    alloc: Global,
    making: &Making,
    side: Side,
    function: &mut Function,
) -> Result<(), Failure>
    ensures { Becomes result (made_items.Function function.new)
        (with_kind making.now side function.old) }
{
    let is_async = is_async(function.kind);
    let name = function.name.as_str();
    let kind = function_kind(alloc, making, side, &Owner::World, is_async, name)?;
    function.kind = kind;
    Ok(())
}

fn finish_item(
    alloc: Global,
    making: &Making,
    side: Side,
    item: &mut WorldItem,
) -> Result<(), Failure>
    ensures { Becomes result item.new (finished making.now side item.old) }
{
    match item {
        WorldItem::Interface(_) => Ok(()),
        WorldItem::Function(function) => set_kind(alloc, making, side, function),
        WorldItem::NamedType(_) => Ok(()),
    }
}

/// Finishes an item, and adds it after others.
#[tactic(auto, unfolding(crate::specs::Worlds::with_finished))]
fn add_finished(
    alloc: Global,
    making: &Making,
    side: Side,
    key: WorldKey,
    item: WorldItem,
    items: &mut Items,
) -> Result<(), Failure>
    ensures { Becomes result items.new (with_finished making.now side key item items.old) }
{
    let mut item = item;
    finish_item(alloc, making, side, &mut item)?;
    put_new(alloc, items, key, item)
}

fn finish_items(
    alloc: Global,
    making: &Making,
    side: Side,
    made: Seq<(WorldKey, WorldItem)>,
) -> Result<Items, Failure>
    ensures { Gives (λ items. items) result (finished_from making.now side made []) }
{
    let mut items = Keyed::new(alloc);
    for (key, item) in made.into_vec() {
        add_finished(alloc, making, side, key, item, &mut items)?;
    }
    Ok(items)
}

/// The items of a side. The kinds of its functions are found among all types of the world.
#[tactic(auto, unfolding(crate::specs::Worlds::all_items))]
pub(crate) fn make_items(
    alloc: Global,
    making: &mut Making,
    side: Side,
    ids: &Ids,
    entries: &Keyed<ItemKey, Item>,
) -> Result<Items, Failure>
    ensures { Makes result making.new (all_items side ids.now entries.now making.old) }
{
    let made = make_unfinished(alloc, making, side, ids, entries)?;
    finish_items(alloc, making, side, made)
}
