//! A world without the interfaces that became others.

ghost use Rattle.std.specs.Prelude.{◌≡◌, [], IfOk, OnOk, if◌then◌else◌};
ghost use Rattle.comp_lists.specs.Tables.{with_first};
ghost use Rattle.record_values.specs.Names.{is_same_interface, is_same_item};
ghost use Rattle.record_values.specs.Renaming.{renamed_interface, renamed_item};
ghost use Rattle.record_versions.specs.Renamed.{is_removed, item_is_removed, interfaces_left, items_left, renamed_wit};

use crate::groups::Renames;
use comp_lists::{Keyed, TryClone};
use record_values::{Interface, InterfaceName, Item, ItemKey, Wit, rename_interface, rename_item};
use std::alloc::{AllocError, Global};

fn item_is_removed(renames: &Renames, item: &Item) -> bool
    ensures { result ≡ item_is_removed renames.now item.now }
{
    match item {
        Item::Interface(name) => renames.contains_key(name),
        Item::Function(_) => false,
        Item::Type(_) => false,
    }
}

fn add_interface(
    alloc: Global,
    renames: &Renames,
    table: &mut Keyed<InterfaceName, Interface>,
    name: &InterfaceName,
    interface: &Interface,
) -> Result<(), AllocError>
    ensures { OnOk result (table.new
        ≡ (if is_removed renames.now name.now
        then table.old
        else with_first is_same_interface table.old name.now
        (renamed_interface renames.now interface.now))) }
{
    if renames.contains_key(name) {
        return Ok(());
    }
    let name = name.try_clone(alloc)?;
    table.insert_if_absent(name, rename_interface(alloc, renames, interface)?)
}

fn interfaces_left(
    alloc: Global,
    renames: &Renames,
    interfaces: &Keyed<InterfaceName, Interface>,
) -> Result<Keyed<InterfaceName, Interface>, AllocError>
    ensures { IfOk result (λ t. t ≡ interfaces_left renames.now [] interfaces.now) }
{
    let mut table = Keyed::new(alloc);
    for (name, interface) in interfaces.iter() {
        add_interface(alloc, renames, &mut table, name, interface)?;
    }
    Ok(table)
}

fn add_item(
    alloc: Global,
    renames: &Renames,
    table: &mut Keyed<ItemKey, Item>,
    key: &ItemKey,
    item: &Item,
) -> Result<(), AllocError>
    ensures { OnOk result (table.new
        ≡ (if item_is_removed renames.now item.now
        then table.old
        else with_first is_same_item table.old key.now
        (renamed_item renames.now item.now))) }
{
    if item_is_removed(renames, item) {
        return Ok(());
    }
    let key = key.try_clone(alloc)?;
    table.insert_if_absent(key, rename_item(alloc, renames, item)?)
}

fn items_left(
    alloc: Global,
    renames: &Renames,
    items: &Keyed<ItemKey, Item>,
) -> Result<Keyed<ItemKey, Item>, AllocError>
    ensures { IfOk result (λ t. t ≡ items_left renames.now [] items.now) }
{
    let mut table = Keyed::new(alloc);
    for (key, item) in items.iter() {
        add_item(alloc, renames, &mut table, key, item)?;
    }
    Ok(table)
}

/// A world without the interfaces that became others, in which all references name those that they
/// became. The only refusal is out of memory.
#[tactic(auto, unfolding(crate::specs::Renamed::renamed_wit))]
pub(crate) fn rename_wit(alloc: Global, renames: &Renames, wit: &Wit) -> Result<Wit, AllocError>
    ensures { IfOk result (λ w. w ≡ renamed_wit renames.now wit.now) }
{
    Ok(Wit {
        interfaces: interfaces_left(alloc, renames, &wit.interfaces)?,
        imports: items_left(alloc, renames, &wit.imports)?,
        exports: items_left(alloc, renames, &wit.exports)?,
    })
}
