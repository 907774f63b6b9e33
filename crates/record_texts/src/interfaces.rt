//! The interfaces of a world.

ghost use Rattle.std.specs.Prelude.{◌≡◌, IfOk, OnOk};
ghost use Rattle.serde_json.specs.View.{view};
ghost use Rattle.record_texts.specs.Worlds.{id_data, interface_data, interfaces_view, with_interface, interfaces_of};

use crate::functions::{function_values, type_values};
use crate::names::Indices;
use crate::values::append;
use comp_lists::{Keyed, TryClone};
use record_values::{Interface, InterfaceName};
use serde_json::{Value, json};
use std::alloc::{AllocError, Global};

/// Interfaces with their indices, and what is written of each.
#[derive(Drop)]
pub(crate) struct WrittenInterfaces {
    pub(crate) indices: Indices,
    pub(crate) values: Vec<Value>,
}

/// The id of an interface, if it has one.
fn id_value(alloc: Global, name: &InterfaceName) -> Result<Value, AllocError>
    ensures { IfOk result (λ v. view v ≡ id_data name.now) }
{
    match name {
        InterfaceName::Id(text) => Value::try_from_str(alloc, text.as_str()),
        InterfaceName::Imported(_) => Ok(Value::Null),
        InterfaceName::Exported(_) => Ok(Value::Null),
        InterfaceName::Unused(_) => Ok(Value::Null),
    }
}

fn interface_value(
    alloc: Global,
    indices: &Indices,
    name: &InterfaceName,
    interface: &Interface,
) -> Result<Value, AllocError>
    ensures { IfOk result (λ v. view v ≡ interface_data indices.now name.now interface.now) }
{
    let functions = function_values(alloc, indices, interface.functions.as_slice())?;
    let types = type_values(alloc, indices, interface.types.as_slice())?;
    let id = id_value(alloc, name)?;
    json!(in alloc; {"functions": functions, "id": id, "types": types})
}

/// Adds an interface, which names itself and those before it.
fn add_interface(
    alloc: Global,
    written: &mut WrittenInterfaces,
    name: &InterfaceName,
    interface: &Interface,
) -> Result<(), AllocError>
    ensures { OnOk result (interfaces_view written.new
        ≡ with_interface (interfaces_view written.old) (name.now, interface.now)) }
{
    let index = written.values.len();
    written
        .indices
        .insert_if_absent(name.try_clone(alloc)?, index)?;
    let value = interface_value(alloc, &written.indices, name, interface)?;
    append(&mut written.values, value)
}

/// All interfaces of a world, in order.
pub(crate) fn write_interfaces(
    alloc: Global,
    interfaces: &Keyed<InterfaceName, Interface>,
) -> Result<WrittenInterfaces, AllocError>
    ensures { IfOk result (λ w. interfaces_view w ≡ interfaces_of interfaces.now) }
{
    let mut written = WrittenInterfaces {
        indices: Keyed::new(alloc),
        values: Vec::new(alloc),
    };
    for (name, interface) in interfaces.iter() {
        add_interface(alloc, &mut written, name, interface)?;
    }
    Ok(written)
}
