//! Interfaces by their indices in a record, and owners and types by these.

ghost use Rattle.std.specs.Prelude.{◌≡◌, IfOk};
ghost use Rattle.serde_json.specs.View.{view};
ghost use Rattle.record_texts.specs.Names.{interface_index, owner_data, type_name_data};

use crate::values::pair;
use comp_lists::Keyed;
use record_values::{InterfaceName, Owner, TypeName};
use serde_json::Value;
use std::alloc::{AllocError, Global};

/// Interfaces with their indices.
pub(crate) type Indices = Keyed<InterfaceName, usize>;

/// The index of an interface.
pub(crate) fn interface_index(indices: &Indices, name: &InterfaceName) -> Value
    ensures { view result ≡ interface_index indices.now name.now }
{
    match indices.get(name) {
        Some(index) => Value::from(*index),
        None => Value::Null,
    }
}

/// The index of an interface, or null for the world.
pub(crate) fn owner_value(indices: &Indices, owner: &Owner) -> Value
    ensures { view result ≡ owner_data indices.now owner.now }
{
    match owner {
        Owner::World => Value::Null,
        Owner::Interface(name) => interface_index(indices, name),
    }
}

/// A named type, by its owner and its name.
pub(crate) fn type_name_value(
    alloc: Global,
    indices: &Indices,
    named: &TypeName,
) -> Result<Value, AllocError>
    ensures { IfOk result (λ v. view v ≡ type_name_data indices.now named.now) }
{
    let name = Value::try_from_str(alloc, named.name.as_str())?;
    pair(alloc, owner_value(indices, &named.owner), name)
}
