//! Imports in the new order of their interfaces.

ghost use Rattle.std.specs.Prelude.{◌≡◌, [], IfOk, OnOk};
ghost use Rattle.comp_lists.specs.Tables.{with_first};
ghost use Rattle.json_paths.specs.Faults.{Gives};
ghost use Rattle.record_values.specs.Names.{is_same_item};
ghost use Rattle.record_versions.specs.Order.{waiting_item, waiting, interfaces_taken, with_other, others_after, ordered_by, ordered, in_order_by, in_order, first_lesser};
ghost use Rattle.record_values.specs.declared.world.Item.TheVariants as items;

use crate::containment::conflict_of;
use crate::groups::Renames;
use crate::taking::take_anew;
use crate::uses::uses;
use comp_lists::{Keyed, Seq, TryClone};
use json_paths::Failure;
use record_values::{Interface, InterfaceName, Item, ItemKey, Wit};
use std::alloc::{AllocError, Global};

/// An imported interface, and those that it uses.
#[derive(Debug, Drop)]
pub(crate) struct Waiting {
    pub key: ItemKey,
    pub name: InterfaceName,
    pub uses: Seq<InterfaceName>,
}

/// Interfaces that are taken, with their keys.
pub(crate) type Taken = Keyed<InterfaceName, ItemKey>;

fn waiting_item(
    alloc: Global,
    interfaces: &Keyed<InterfaceName, Interface>,
    key: &ItemKey,
    item: &Item,
) -> Result<Seq<Waiting>, AllocError>
    ensures { IfOk result (λ ws. ws ≡ waiting_item interfaces.now key.now item.now) }
{
    match item {
        Item::Interface(name) => waiting_interface(alloc, interfaces, key, name),
        Item::Function(_) => Ok(Seq::new(alloc)),
        Item::Type(_) => Ok(Seq::new(alloc)),
    }
}

fn waiting_interface(
    alloc: Global,
    interfaces: &Keyed<InterfaceName, Interface>,
    key: &ItemKey,
    name: &InterfaceName,
) -> Result<Seq<Waiting>, AllocError>
    ensures { IfOk result
        (λ ws. ws ≡ waiting_item interfaces.now key.now (items.Interface name.now)) }
{
    let mut list = Seq::new(alloc);
    let uses = uses(alloc, interfaces, name)?;
    let key = key.try_clone(alloc)?;
    let name = name.try_clone(alloc)?;
    list.push(Waiting { key, name, uses })?;
    Ok(list)
}

fn all_waiting(
    alloc: Global,
    interfaces: &Keyed<InterfaceName, Interface>,
    imports: &Keyed<ItemKey, Item>,
) -> Result<Seq<Waiting>, AllocError>
    ensures { IfOk result (λ ws. ws ≡ waiting interfaces.now imports.now) }
{
    let mut list = Seq::new(alloc);
    for (key, item) in imports.iter() {
        list.append(waiting_item(alloc, interfaces, key, item)?)?;
    }
    Ok(list)
}

/// Adds an interface that is taken.
fn put_taken(
    alloc: Global,
    table: &mut Keyed<ItemKey, Item>,
    name: &InterfaceName,
    key: &ItemKey,
) -> Result<(), AllocError>
    ensures { OnOk result
        (table.new ≡ with_first is_same_item table.old key.now (items.Interface name.now)) }
{
    let key = key.try_clone(alloc)?;
    table.insert_if_absent(key, Item::Interface(name.try_clone(alloc)?))
}

/// The interfaces that are taken, in their order.
fn interfaces_taken(alloc: Global, taken: &Taken) -> Result<Keyed<ItemKey, Item>, AllocError>
    ensures { IfOk result (λ t. t ≡ interfaces_taken [] taken.now) }
{
    let mut table = Keyed::new(alloc);
    for (name, key) in taken.iter() {
        put_taken(alloc, &mut table, name, key)?;
    }
    Ok(table)
}

fn add_other(
    alloc: Global,
    table: &mut Keyed<ItemKey, Item>,
    key: &ItemKey,
    item: &Item,
) -> Result<(), AllocError>
    ensures { OnOk result (table.new ≡ with_other table.old key.now item.now) }
{
    match item {
        Item::Interface(_) => Ok(()),
        Item::Function(_) => table.insert_if_absent(key.try_clone(alloc)?, item.try_clone(alloc)?),
        Item::Type(_) => table.insert_if_absent(key.try_clone(alloc)?, item.try_clone(alloc)?),
    }
}

fn add_others(
    alloc: Global,
    table: &mut Keyed<ItemKey, Item>,
    imports: &Keyed<ItemKey, Item>,
) -> Result<(), AllocError>
    ensures { OnOk result (table.new ≡ others_after table.old imports.now) }
{
    for (key, item) in imports.iter() {
        add_other(alloc, table, key, item)?;
    }
    Ok(())
}

fn order_by(
    alloc: Global,
    imports: &Keyed<ItemKey, Item>,
    taken: &Option<Taken>,
) -> Result<Option<Keyed<ItemKey, Item>>, AllocError>
    ensures { IfOk result (λ t. t ≡ ordered_by imports.now taken.now) }
{
    match taken {
        Some(taken) => {
            let mut table = interfaces_taken(alloc, taken)?;
            add_others(alloc, &mut table, imports)?;
            Ok(Some(table))
        }
        None => Ok(None),
    }
}

/// Imports in the new order, where there is one. The only refusal is out of memory.
#[tactic(auto, unfolding(crate::specs::Order::ordered))]
fn order(
    alloc: Global,
    interfaces: &Keyed<InterfaceName, Interface>,
    imports: &Keyed<ItemKey, Item>,
) -> Result<Option<Keyed<ItemKey, Item>>, AllocError>
    ensures { IfOk result (λ t. t ≡ ordered interfaces.now imports.now) }
{
    let all = all_waiting(alloc, interfaces, imports)?;
    let taken = take_anew(alloc, all.as_slice())?;
    order_by(alloc, imports, &taken)
}

/// A world whose imports are in the new order; the refusal names this interface where there is none.
fn put_in_order(alloc: Global, lesser: &InterfaceName, wit: Wit) -> Result<Wit, Failure>
    ensures { Gives (λ w. w) result
        (in_order_by lesser.now wit (ordered wit.interfaces wit.imports)) }
{
    match order(alloc, &wit.interfaces, &wit.imports)? {
        Some(imports) => Ok(Wit {
            interfaces: wit.interfaces,
            imports,
            exports: wit.exports,
        }),
        None => Err(conflict_of(alloc, lesser)),
    }
}

fn first_lesser(alloc: Global, renames: &Renames) -> Result<Option<InterfaceName>, AllocError>
    ensures { IfOk result (λ n. n ≡ first_lesser renames.now) }
{
    for (lesser, _greatest) in renames.iter() {
        return Ok(Some(lesser.try_clone(alloc)?));
    }
    Ok(None)
}

/// A world whose imports are in the new order where an interface became another.
pub(crate) fn in_order(alloc: Global, renames: &Renames, wit: Wit) -> Result<Wit, Failure>
    ensures { Gives (λ w. w) result (in_order (first_lesser renames.now) wit) }
{
    match first_lesser(alloc, renames)? {
        Some(lesser) => put_in_order(alloc, &lesser, wit),
        None => Ok(wit),
    }
}
