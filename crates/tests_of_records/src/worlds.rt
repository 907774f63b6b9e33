//! What is read of whole records: the names of interfaces, and the sides that they are on. The
//! query is a record, in JSON, without its version.

use crate::faults::print_fault;
use json_paths::read_value;
use record_sides::{IndexedInterface, RecordWorld};
use record_values::InterfaceName;
use record_worlds::read_world;
use serde_json::Value;
use std::alloc::{AllocError, Global};

fn kind_of(name: &InterfaceName) -> &'static str {
    match name {
        InterfaceName::Id(_) => "Id ",
        InterfaceName::Imported(_) => "Imported ",
        InterfaceName::Exported(_) => "Exported ",
        InterfaceName::Unused(_) => "Unused",
    }
}

/// The name of an interface, and the sides that it is on.
fn push_interface(out: &mut String, placed: &IndexedInterface) -> Result<(), AllocError> {
    if !out.is_empty() {
        out.push_str("; ")?;
    }
    out.push_str(kind_of(&placed.name))?;
    out.push_str(placed.name.text())?;
    if placed.is_imported {
        out.push_str(" imported")?;
    }
    if placed.is_exported {
        out.push_str(" exported")?;
    }
    Ok(())
}

fn print_interfaces(alloc: Global, interfaces: &[IndexedInterface]) -> Result<String, AllocError> {
    if interfaces.is_empty() {
        return String::from_str(alloc, "nothing");
    }
    let mut out = String::new(alloc);
    for placed in interfaces {
        push_interface(&mut out, placed)?;
    }
    Ok(out)
}

fn print_world(alloc: Global, world: &RecordWorld) -> Result<String, AllocError> {
    print_interfaces(alloc, world.interfaces.as_slice())
}

fn print_value(alloc: Global, value: Value) -> Result<String, AllocError> {
    match read_world(alloc, value) {
        Ok(world) => print_world(alloc, &world),
        Err(failure) => print_fault(alloc, &failure),
    }
}

pub(crate) fn answer(alloc: Global, asked: &str) -> Result<String, AllocError> {
    match read_value(alloc, asked.as_bytes()) {
        Ok(value) => print_value(alloc, value),
        Err(failure) => print_fault(alloc, &failure),
    }
}
