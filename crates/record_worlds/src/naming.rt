//! Names of the interfaces of a record.

ghost use Rattle.std.specs.Prelude.{◌≡◌, [], OnOk, IfOk, map};
ghost use Rattle.record_worlds.specs.Naming.{index_name, given_name, with_id, ids_from, with_key, with_given, with_all_given, names_of, renamed_entry, renamed_entries};

use crate::items::{ReadItem, WorldItems};
use comp_lists::{Keyed, Seq, SharedText, Text, TryClone};
use record_sides::Side;
use record_types::ReadInterface;
use record_values::{InterfaceName, Item, ItemKey, rename_item};
use std::alloc::{AllocError, Global};

/// The interfaces of a record by index, with their names.
pub(crate) type Names = Keyed<InterfaceName, InterfaceName>;

/// An item of a world, with its key.
#[derive(Drop)]
pub(crate) struct Entry {
    pub key: ItemKey,
    pub item: Item,
}

/// The name of an interface while its name in the world is not known.
pub(crate) fn index_name(index: usize) -> InterfaceName
    ensures { result ≡ index_name index }
{
    InterfaceName::Unused((index % 4294967296) as u32)
}

/// The name of an interface without id that a side has under this name.
fn given_name(alloc: Global, side: Side, name: &Text) -> Result<InterfaceName, AllocError>
    ensures { IfOk result (λ n. n ≡ given_name side name.now) }
{
    let name = SharedText::from_str(alloc, name.as_str())?;
    match side {
        Side::Import => Ok(InterfaceName::Imported(name)),
        Side::Export => Ok(InterfaceName::Exported(name)),
    }
}

/// Adds the name of an interface that has an id.
fn add_id(
    alloc: Global,
    names: &mut Names,
    index: usize,
    id: &Option<Text>,
) -> Result<(), AllocError>
    ensures { OnOk result (names.new ≡ with_id names.old index id.now) }
{
    match id {
        Some(id) => {
            let id = SharedText::from_str(alloc, id.as_str())?;
            names.insert_if_absent(index_name(index), InterfaceName::Id(id))
        }
        None => Ok(()),
    }
}

fn id_names(alloc: Global, interfaces: &[ReadInterface]) -> Result<Names, AllocError>
    ensures { IfOk result (λ n. n ≡ ids_from [] 0 interfaces.now) }
{
    let mut names = Keyed::new(alloc);
    for (index, interface) in interfaces.iter().enumerate() {
        add_id(alloc, &mut names, index, &interface.id)?;
    }
    Ok(names)
}

/// Adds the name that a key gives to an interface, unless the interface has a name already.
fn add_key(
    alloc: Global,
    side: Side,
    names: &mut Names,
    name: &InterfaceName,
    key: &ItemKey,
) -> Result<(), AllocError>
    ensures { OnOk result (names.new ≡ with_key side names.old name.now key.now) }
{
    match key {
        ItemKey::Name(text) => {
            let given = given_name(alloc, side, text)?;
            names.insert_if_absent(name.try_clone(alloc)?, given)
        }
        ItemKey::Interface(_) => Ok(()),
    }
}

fn add_given(
    alloc: Global,
    side: Side,
    names: &mut Names,
    key: &ItemKey,
    item: &Item,
) -> Result<(), AllocError>
    ensures { OnOk result (names.new ≡ with_given side names.old key.now item.now) }
{
    match item {
        Item::Interface(name) => add_key(alloc, side, names, name, key),
        Item::Function(_) => Ok(()),
        Item::Type(_) => Ok(()),
    }
}

/// The names of interfaces, with those that the items of a side give.
fn add_all_given(
    alloc: Global,
    side: Side,
    names: Names,
    items: &[ReadItem],
) -> Result<Names, AllocError>
    ensures { IfOk result (λ n. n ≡ with_all_given side names items.now) }
{
    let mut names = names;
    for read in items {
        add_given(alloc, side, &mut names, &read.key, &read.item)?;
    }
    Ok(names)
}

/// The names of all interfaces that have an id or are in the world.
pub(crate) fn names_of(alloc: Global, read: &WorldItems) -> Result<Names, AllocError>
    ensures { IfOk result (λ n. n ≡ names_of read.now) }
{
    let names = id_names(alloc, read.interfaces.as_slice())?;
    let names = add_all_given(alloc, Side::Import, names, read.imports.as_slice())?;
    add_all_given(alloc, Side::Export, names, read.exports.as_slice())
}

fn rename_entry(alloc: Global, names: &Names, read: &ReadItem) -> Result<Entry, AllocError>
    ensures { IfOk result (λ e. e ≡ renamed_entry names.now read.now) }
{
    Ok(Entry {
        key: read.key.try_clone(alloc)?,
        item: rename_item(alloc, names, &read.item)?,
    })
}

/// The items of a side, in which interfaces have their names.
pub(crate) fn rename_entries(
    alloc: Global,
    names: &Names,
    items: &[ReadItem],
) -> Result<Seq<Entry>, AllocError>
    ensures { IfOk result (λ es. es ≡ renamed_entries names.now items.now) }
{
    let mut renamed = Seq::new(alloc);
    for read in items {
        renamed.push(rename_entry(alloc, names, read)?)?;
    }
    Ok(renamed)
}
