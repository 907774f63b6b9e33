//! The items of a world, as they are written in a record.

ghost use Rattle.std.specs.Prelude.{◌≡◌, [], OnOk, codes, option_map};
ghost use Rattle.std.specs.List.{list_any};
ghost use Rattle.serde_json.specs.Find.{get};
ghost use Rattle.serde_json.specs.View.{view, items_view};
ghost use Rattle.json_paths.specs.Faults.{Gives};
ghost use Rattle.record_worlds.specs.Items.{holds_colon, index_of, plain_name_of, key_of, named_key, id_key, interface_at, other_item, function_item, type_item, interface_item, item_of, with_type, with_read, items_from, items_of, items_if, interfaces_if, sides_read, world_items_of, world_function, world_type};

use comp_lists::{Keyed, Seq, SharedText, Text};
use json_paths::{
    Failure, check_members, fault_at, fault_here, read_text, required, take_items, take_member,
    under, under_index,
};
use record_sides::Side;
use record_types::{
    ReadInterface, Scope, TypeFacts, read_function, read_interfaces, read_named_type,
};
use record_values::{Func, InterfaceName, Item, ItemKey, Typed};
use serde_json::Value;
use std::alloc::{AllocError, Global};

/// An item of a world as it is written in a record, with its key. An interface is named by its index in
/// the record; of a type it has what is known.
#[derive(Drop)]
pub(crate) struct ReadItem {
    pub key: ItemKey,
    pub item: Item,
    pub facts: Option<TypeFacts>,
}

/// Items in order, and the types of the world by name.
#[derive(Drop)]
pub(crate) struct ReadItems {
    pub items: Seq<ReadItem>,
    pub types: Keyed<Text, TypeFacts>,
}

/// The interfaces of a record, and the items of its world.
#[derive(Drop)]
pub(crate) struct WorldItems {
    pub interfaces: Seq<ReadInterface>,
    pub imports: Seq<ReadItem>,
    pub exports: Seq<ReadItem>,
}

/// A function at the root of the world.
fn read_world_function(
    alloc: Global,
    interfaces: &[ReadInterface],
    types: &Keyed<Text, TypeFacts>,
    value: &Value,
) -> Result<Func, Failure>
    ensures { Gives (λ f. f) result (world_function interfaces.now types.now (view value.now)) }
{
    let scope = Scope {
        done: interfaces,
        current: types,
        is_world: true,
    };
    read_function(alloc, &scope, value)
}

/// A type of the world.
fn read_world_type(
    alloc: Global,
    interfaces: &[ReadInterface],
    types: &Keyed<Text, TypeFacts>,
    value: &Value,
) -> Result<(Typed, TypeFacts), Failure>
    ensures { Gives (λ t. t) result (world_type interfaces.now types.now (view value.now)) }
{
    let scope = Scope {
        done: interfaces,
        current: types,
        is_world: true,
    };
    read_named_type(alloc, &scope, value)
}

#[tactic(auto, unfolding(crate::specs::Items::function_item))]
fn read_function_item(
    alloc: Global,
    interfaces: &[ReadInterface],
    types: &Keyed<Text, TypeFacts>,
    value: &Value,
) -> Result<ReadItem, Failure>
    ensures { Gives (λ x. x) result (function_item interfaces.now types.now (view value.now)) }
{
    check_members(alloc, value, &["func"])?;
    let member = required(alloc, value, "func")?;
    let function = read_world_function(alloc, interfaces, types, member);
    let function = under(alloc, "func", function)?;
    Ok(ReadItem {
        key: ItemKey::Name(function.name.clone(alloc)?),
        item: Item::Function(function),
        facts: None,
    })
}

#[tactic(auto, unfolding(crate::specs::Items::type_item))]
fn read_type_item(
    alloc: Global,
    interfaces: &[ReadInterface],
    types: &Keyed<Text, TypeFacts>,
    value: &Value,
) -> Result<ReadItem, Failure>
    ensures { Gives (λ x. x) result (type_item interfaces.now types.now (view value.now)) }
{
    check_members(alloc, value, &["type"])?;
    let member = required(alloc, value, "type")?;
    let read = read_world_type(alloc, interfaces, types, member);
    let (typed, facts) = under(alloc, "type", read)?;
    let Typed { name, nodes } = typed;
    Ok(ReadItem {
        key: ItemKey::Name(name),
        item: Item::Type(nodes),
        facts: Some(facts),
    })
}

/// The index of an interface.
#[tactic(auto, unfolding(crate::specs::Items::index_of))]
fn read_index(alloc: Global, value: &Value) -> Result<u32, Failure>
    ensures { Gives (λ n. n) result (index_of (view value.now)) }
{
    match value.as_u64() {
        Some(number) => {
            if number < 4294967296 {
                Ok(number as u32)
            } else {
                Err(fault_here(alloc))
            }
        }
        None => Err(fault_here(alloc)),
    }
}

fn has_colon(bytes: &[u8]) -> bool
    ensures { result ≡ holds_colon bytes.now }
{
    for byte in bytes {
        if *byte == b':' {
            return true;
        }
    }
    false
}

/// A name that is not an id.
#[tactic(auto, unfolding(crate::specs::Items::plain_name_of))]
fn read_plain_name(alloc: Global, value: &Value) -> Result<Text, Failure>
    ensures { Gives (λ n. n) result (plain_name_of (view value.now)) }
{
    let name = read_text(alloc, value)?;
    if has_colon(name.as_str().as_bytes()) {
        Err(fault_here(alloc))
    } else {
        Ok(name)
    }
}

/// The key of an interface that has no id.
#[tactic(auto, unfolding(crate::specs::Items::named_key))]
fn read_named_key(alloc: Global, id: &Option<Text>, value: &Value) -> Result<ItemKey, Failure>
    ensures { Gives (λ k. k) result (named_key id.now (view value.now)) }
{
    let name = under(alloc, "name", read_plain_name(alloc, value))?;
    match id {
        Some(_) => Err(fault_at(alloc, "interface")),
        None => Ok(ItemKey::Name(name)),
    }
}

/// The key of an interface that has an id.
fn id_key(alloc: Global, id: &Option<Text>) -> Result<ItemKey, Failure>
    ensures { Gives (λ k. k) result (id_key id.now) }
{
    match id {
        Some(id) => {
            let id = SharedText::from_str(alloc, id.as_str())?;
            Ok(ItemKey::Interface(id))
        }
        None => Err(fault_at(alloc, "interface")),
    }
}

fn read_key(alloc: Global, id: &Option<Text>, value: &Value) -> Result<ItemKey, Failure>
    ensures { Gives (λ k. k) result (key_of id.now (get (codes "name") (view value.now))) }
{
    match value.get("name") {
        Some(name) => read_named_key(alloc, id, name),
        None => id_key(alloc, id),
    }
}

/// The interface at an index.
fn find_interface<'v>(
    alloc: Global,
    interfaces: &'v [ReadInterface],
    index: u32,
) -> Result<&'v ReadInterface, Failure>
    ensures { Gives (λ x. x.now) result (interface_at interfaces.now index) }
{
    match interfaces.get(index as usize) {
        Some(interface) => Ok(interface),
        None => Err(fault_at(alloc, "interface")),
    }
}

#[tactic(auto, unfolding(crate::specs::Items::interface_item))]
fn read_interface_item(
    alloc: Global,
    interfaces: &[ReadInterface],
    value: &Value,
) -> Result<ReadItem, Failure>
    ensures { Gives (λ x. x) result (interface_item interfaces.now (view value.now)) }
{
    check_members(alloc, value, &["interface", "name"])?;
    let member = required(alloc, value, "interface")?;
    let index = under(alloc, "interface", read_index(alloc, member))?;
    let interface = find_interface(alloc, interfaces, index)?;
    let key = read_key(alloc, &interface.id, value)?;
    Ok(ReadItem {
        key,
        item: Item::Interface(InterfaceName::Unused(index)),
        facts: None,
    })
}

/// An item other than a function.
fn read_other_item(
    alloc: Global,
    side: Side,
    interfaces: &[ReadInterface],
    types: &Keyed<Text, TypeFacts>,
    value: &Value,
) -> Result<ReadItem, Failure>
    ensures { Gives (λ x. x) result (other_item side interfaces.now types.now (view value.now)) }
{
    match side {
        Side::Export => read_interface_item(alloc, interfaces, value),
        Side::Import => {
            if value.get("type").is_some() {
                read_type_item(alloc, interfaces, types, value)
            } else {
                read_interface_item(alloc, interfaces, value)
            }
        }
    }
}

/// An item; these are the interfaces of the record, and the types of the world before it.
fn read_item(
    alloc: Global,
    side: Side,
    interfaces: &[ReadInterface],
    types: &Keyed<Text, TypeFacts>,
    value: &Value,
) -> Result<ReadItem, Failure>
    ensures { Gives (λ x. x) result (item_of side interfaces.now types.now (view value.now)) }
{
    if value.get("func").is_some() {
        read_function_item(alloc, interfaces, types, value)
    } else {
        read_other_item(alloc, side, interfaces, types, value)
    }
}

/// Adds a type of the world to those that are known.
fn note_type(
    alloc: Global,
    types: &mut Keyed<Text, TypeFacts>,
    item: &ReadItem,
) -> Result<(), AllocError>
    ensures { OnOk result (types.new ≡ with_type types.old item.now) }
{
    match item.facts {
        Some(facts) => types.insert_if_absent(item.key.text().clone(alloc)?, facts),
        None => Ok(()),
    }
}

/// Reads the item at an index, after those that were read.
#[tactic(auto, unfolding(crate::specs::Items::with_read))]
fn add_value(
    alloc: Global,
    side: Side,
    interfaces: &[ReadInterface],
    read: &mut ReadItems,
    index: usize,
    value: &Value,
) -> Result<(), Failure>
    ensures { Gives (λ _. read.new) result
        (with_read side interfaces.now index read.old (view value.now)) }
{
    let item = read_item(alloc, side, interfaces, &read.types, value);
    let item = under_index(alloc, index, item)?;
    note_type(alloc, &mut read.types, &item)?;
    Ok(read.items.push(item)?)
}

/// The items of a list; these types of the world are known before it. The JSON of each is given
/// back before the next is read.
fn read_values(
    alloc: Global,
    side: Side,
    interfaces: &[ReadInterface],
    types: Keyed<Text, TypeFacts>,
    values: Vec<Value>,
) -> Result<ReadItems, Failure>
    ensures { Gives (λ r. r) result (items_from side interfaces.now 0
        (record { items = []; types = types }) (items_view values.items)) }
{
    let mut read = ReadItems {
        items: Seq::new(alloc),
        types,
    };
    for (index, value) in values.into_iter().enumerate() {
        add_value(alloc, side, interfaces, &mut read, index, &value)?;
    }
    Ok(read)
}

#[tactic(auto, unfolding(crate::specs::Items::items_of))]
fn read_items(
    alloc: Global,
    side: Side,
    interfaces: &[ReadInterface],
    types: Keyed<Text, TypeFacts>,
    value: Value,
) -> Result<ReadItems, Failure>
    ensures { Gives (λ r. r) result (items_of side interfaces.now types (view value)) }
{
    match take_items(alloc, value) {
        Ok(values) => read_values(alloc, side, interfaces, types, values),
        Err(failure) => {
            drop(types);
            Err(failure)
        }
    }
}

/// The items of a side, none where its member is left out.
fn items_member(
    alloc: Global,
    side: Side,
    interfaces: &[ReadInterface],
    types: Keyed<Text, TypeFacts>,
    key: &str,
    member: Option<Value>,
) -> Result<ReadItems, Failure>
    ensures { Gives (λ r. r) result
        (items_if side interfaces.now types key.now (option_map view member)) }
{
    match member {
        Some(member) => {
            let items = read_items(alloc, side, interfaces, types, member);
            under(alloc, key, items)
        }
        None => Ok(ReadItems {
            items: Seq::new(alloc),
            types,
        }),
    }
}

/// The interfaces of a record, none where their member is left out.
fn interfaces_member(alloc: Global, member: Option<Value>) -> Result<Seq<ReadInterface>, Failure>
    ensures { Gives (λ x. x) result (interfaces_if (option_map view member)) }
{
    match member {
        Some(member) => under(alloc, "interfaces", read_interfaces(alloc, member)),
        None => Ok(Seq::new(alloc)),
    }
}

/// The members of a record that describe its world.
#[derive(Drop)]
struct WorldMembers {
    interfaces: Option<Value>,
    imports: Option<Value>,
    exports: Option<Value>,
}

/// Takes the members of the world out of a record.
fn take_world_members(value: Value) -> WorldMembers
    ensures interfaces { option_map view result.interfaces ≡ get (codes "interfaces") (view value) }
    ensures imports { option_map view result.imports ≡ get (codes "imports") (view value) }
    ensures exports { option_map view result.exports ≡ get (codes "exports") (view value) }
{
    let mut value = value;
    let interfaces = take_member(&mut value, "interfaces");
    let imports = take_member(&mut value, "imports");
    let exports = take_member(&mut value, "exports");
    WorldMembers {
        interfaces,
        imports,
        exports,
    }
}

/// The items of the world of these interfaces.
fn read_sides(
    alloc: Global,
    interfaces: Seq<ReadInterface>,
    imports: Option<Value>,
    exports: Option<Value>,
) -> Result<WorldItems, Failure>
    ensures { Gives (λ w. w) result
        (sides_read interfaces (option_map view imports) (option_map view exports)) }
{
    let read = interfaces.as_slice();
    let imports = items_member(
        alloc,
        Side::Import,
        read,
        Keyed::new(alloc),
        "imports",
        imports,
    )?;
    let ReadItems {
        items: imports,
        types,
    } = imports;
    let exports = items_member(alloc, Side::Export, read, types, "exports", exports)?;
    let ReadItems { items: exports, .. } = exports;
    Ok(WorldItems {
        interfaces,
        imports,
        exports,
    })
}

/// The interfaces of a record, and the items of its world. The JSON of each is given back as soon as it was read.
#[tactic(auto, unfolding(crate::specs::Items::world_items_of))]
pub(crate) fn read_world_items(alloc: Global, value: Value) -> Result<WorldItems, Failure>
    ensures { Gives (λ w. w) result (world_items_of (view value)) }
{
    let WorldMembers {
        interfaces,
        imports,
        exports,
    } = take_world_members(value);
    let interfaces = interfaces_member(alloc, interfaces)?;
    read_sides(alloc, interfaces, imports, exports)
}
