//! The items of a world.

ghost use Rattle.std.specs.Prelude.{◌≡◌, map, IfOk};
ghost use Rattle.serde_json.specs.View.{view};
ghost use Rattle.record_texts.specs.Worlds.{interface_item, item_data, items_data};

use crate::functions::{function_value, named_type_value};
use crate::names::{Indices, interface_index};
use crate::values::{append, only};
use comp_lists::Keyed;
use record_values::{InterfaceName, Item, ItemKey};
use serde_json::{Value, json};
use std::alloc::{AllocError, Global};

/// An interface of the world, with its name where it has no id.
fn interface_item(
    alloc: Global,
    indices: &Indices,
    key: &ItemKey,
    name: &InterfaceName,
) -> Result<Value, AllocError>
    ensures { IfOk result (λ v. view v ≡ interface_item indices.now key.now name.now) }
{
    let index = interface_index(indices, name);
    match key {
        ItemKey::Interface(_) => only(alloc, "interface", index),
        ItemKey::Name(text) => {
            let text = text.as_str();
            json!(in alloc; {"interface": index, "name": text})
        }
    }
}

fn item_value(
    alloc: Global,
    indices: &Indices,
    key: &ItemKey,
    item: &Item,
) -> Result<Value, AllocError>
    ensures { IfOk result (λ v. view v ≡ item_data indices.now (key.now, item.now)) }
{
    match item {
        Item::Interface(name) => interface_item(alloc, indices, key, name),
        Item::Function(function) => {
            let function = function_value(alloc, indices, function)?;
            only(alloc, "func", function)
        }
        Item::Type(nodes) => {
            let name = key.text().as_str();
            let named = named_type_value(alloc, indices, name, nodes.as_slice())?;
            only(alloc, "type", named)
        }
    }
}

/// A side of the world.
pub(crate) fn item_values(
    alloc: Global,
    indices: &Indices,
    items: &Keyed<ItemKey, Item>,
) -> Result<Vec<Value>, AllocError>
    ensures { IfOk result (λ vs. map view vs.items ≡ items_data indices.now items.now) }
{
    let mut values = Vec::new(alloc);
    for (key, item) in items.iter() {
        append(&mut values, item_value(alloc, indices, key, item)?)?;
    }
    Ok(values)
}
