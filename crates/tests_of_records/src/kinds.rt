//! The kinds of functions: which type of its interface or of its world each belongs to by its name, if any.
//!
//! The query is a record, in JSON, without its version. The answer has the functions that the world
//! imports, those of each interface, and those that the world exports.

use crate::faults::print_fault;
use comp_lists::Keyed;
use json_paths::{Failure, read_value};
use record_resolve::{Resolved, resolve};
use record_sides::RecordWorld;
use record_worlds::read_world;
use serde_json::Value;
use std::alloc::{AllocError, Global};
use wit_data::{Function, Interface, Resolve, WorldItem, WorldKey};

fn push_function(out: &mut String, function: &Function) -> Result<(), AllocError> {
    if !out.is_empty() {
        out.push_str("; ")?;
    }
    write!(out, "{} {:?}", function.name.as_str(), function.kind)
}

fn push_item(out: &mut String, item: &WorldItem) -> Result<(), AllocError> {
    match item {
        WorldItem::Function(function) => push_function(out, function),
        WorldItem::Interface(_) => Ok(()),
        WorldItem::NamedType(_) => Ok(()),
    }
}

/// Adds the functions among the imports or the exports of a world.
fn push_items(out: &mut String, items: &Keyed<WorldKey, WorldItem>) -> Result<(), AllocError> {
    for (_key, item) in items.iter() {
        push_item(out, item)?;
    }
    Ok(())
}

fn push_interfaces(out: &mut String, interfaces: &[Interface]) -> Result<(), AllocError> {
    for interface in interfaces {
        push_functions(out, interface)?;
    }
    Ok(())
}

fn push_functions(out: &mut String, interface: &Interface) -> Result<(), AllocError> {
    for (_name, function) in interface.functions.iter() {
        push_function(out, function)?;
    }
    Ok(())
}

fn print_functions(alloc: Global, resolve: &Resolve) -> Result<String, AllocError> {
    let mut out = String::new(alloc);
    for world in resolve.worlds.as_slice() {
        push_items(&mut out, &world.imports)?;
        push_interfaces(&mut out, resolve.interfaces.as_slice())?;
        push_items(&mut out, &world.exports)?;
    }
    Ok(out)
}

fn print_resolved(
    alloc: Global,
    resolved: Result<Resolved, Failure>,
) -> Result<String, AllocError> {
    match resolved {
        Ok(resolved) => print_functions(alloc, &resolved.resolve),
        Err(failure) => print_fault(alloc, &failure),
    }
}

fn print_world(alloc: Global, world: &RecordWorld) -> Result<String, AllocError> {
    print_resolved(alloc, resolve(alloc, &world.wit))
}

fn print_value(alloc: Global, value: Value) -> Result<String, AllocError> {
    match read_world(alloc, value) {
        Ok(world) => print_world(alloc, &world),
        Err(failure) => print_fault(alloc, &failure),
    }
}

pub(crate) fn answer(alloc: Global, asked: &str) -> Result<String, AllocError> {
    match read_value(alloc, asked.as_bytes()) {
        Ok(value) => print_value(alloc, value),
        Err(failure) => print_fault(alloc, &failure),
    }
}
