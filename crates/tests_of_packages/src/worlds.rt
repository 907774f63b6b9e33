//! What a package says: the names of its world, its encoding, its interfaces, its imports and its
//! exports. The query is the package, in hexadecimal digits.

use crate::faults::print_fault;
use comp_lists::Keyed;
use record_values::{Interface, InterfaceName, Item, ItemKey, Wit};
use std::alloc::{AllocError, Global};
use test_cases::bytes_of;
use wit_packages::{Package, read_package};

fn push_interface(
    alloc: Global,
    out: &mut String,
    name: &InterfaceName,
    interface: &Interface,
) -> Result<(), AllocError> {
    let line = format!(in alloc; " | {name:?} {interface:?}")?;
    out.push_str(line.as_str())
}

fn push_interfaces(
    alloc: Global,
    out: &mut String,
    interfaces: &Keyed<InterfaceName, Interface>,
) -> Result<(), AllocError> {
    for (name, interface) in interfaces.iter() {
        push_interface(alloc, out, name, interface)?;
    }
    Ok(())
}

fn push_item(
    alloc: Global,
    out: &mut String,
    side: &str,
    key: &ItemKey,
    item: &Item,
) -> Result<(), AllocError> {
    let line = format!(in alloc; " | {side} {key:?} {item:?}")?;
    out.push_str(line.as_str())
}

fn push_items(
    alloc: Global,
    out: &mut String,
    side: &str,
    items: &Keyed<ItemKey, Item>,
) -> Result<(), AllocError> {
    for (key, item) in items.iter() {
        push_item(alloc, out, side, key, item)?;
    }
    Ok(())
}

/// A world as text: its interfaces, its imports and its exports, in order.
fn print_wit(alloc: Global, wit: &Wit) -> Result<String, AllocError> {
    let mut out = String::new(alloc);
    push_interfaces(alloc, &mut out, &wit.interfaces)?;
    push_items(alloc, &mut out, "import", &wit.imports)?;
    push_items(alloc, &mut out, "export", &wit.exports)?;
    Ok(out)
}

fn print_names(alloc: Global, package: &Package) -> Result<String, AllocError> {
    let name = package.name.as_str();
    let id = package.id.as_str();
    let encoding = package.encoding;
    format!(in alloc; "{name} {id} {encoding:?}")
}

fn print_package(alloc: Global, package: &Package) -> Result<String, AllocError> {
    let mut out = print_names(alloc, package)?;
    let wit = print_wit(alloc, &package.wit)?;
    out.push_str(wit.as_str())?;
    Ok(out)
}

fn print_bytes(alloc: Global, bytes: &[u8]) -> Result<String, AllocError> {
    match read_package(alloc, bytes) {
        Ok(package) => print_package(alloc, &package),
        Err(fault) => print_fault(alloc, fault),
    }
}

pub(crate) fn answer(alloc: Global, asked: &str) -> Result<String, AllocError> {
    let bytes = bytes_of(alloc, asked)?;
    print_bytes(alloc, &bytes)
}
