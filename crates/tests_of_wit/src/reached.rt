//! Which types of an interface others reach. Given are types, `|`, and the indices of those that
//! the interface names, in its order; the query is the indices of two types, or of none. The answer
//! is the indices of the types that they reach, or `nothing`.

use comp_lists::{Keyed, Seq, Text};
use std::alloc::{AllocError, Global};
use test_cases::{number, word_and_rest};
use wit_data::{Interface, InterfaceId, Resolve, Type, TypeId};
use wit_texts::{id, resolve_with};

/// Types by name, of these numbers, in this order.
fn named_types(alloc: Global, order: &str) -> Result<Keyed<Text, TypeId>, AllocError> {
    let mut types = Keyed::new(alloc);
    for word in order.split_whitespace() {
        let name = Text::from_str(alloc, word)?;
        types.insert_if_absent(name, id(word))?;
    }
    Ok(types)
}

/// An interface of these types.
fn interface(alloc: Global, types: Keyed<Text, TypeId>) -> Interface {
    Interface {
        id: None,
        types,
        functions: Keyed::new(alloc),
    }
}

fn interfaces(alloc: Global, order: &str) -> Result<Seq<Interface>, AllocError> {
    let types = named_types(alloc, order)?;
    let mut interfaces = Seq::new(alloc);
    interfaces.push(interface(alloc, types))?;
    Ok(interfaces)
}

fn resolve(alloc: Global, given: &str) -> Result<Resolve, AllocError> {
    let (types, order) = given.split_once("|").unwrap_or((given, ""));
    let interfaces = interfaces(alloc, order)?;
    resolve_with(alloc, interfaces, types.trim())
}

fn print_numbers(alloc: Global, ids: &[TypeId]) -> Result<String, AllocError> {
    if ids.is_empty() {
        return String::from_str(alloc, "nothing");
    }
    let mut out = String::new(alloc);
    for id in ids {
        if !out.is_empty() {
            out.push(' ')?;
        }
        write!(out, "{}", id.index)?;
    }
    Ok(out)
}

/// The numbers of the interface's types that two types reach.
fn reached_by_two(
    alloc: Global,
    resolve: &Resolve,
    first: usize,
    second: usize,
) -> Result<String, AllocError> {
    let count = resolve.types.len();
    if !resolve.is_sound() || resolve.interfaces.is_empty() || first >= count || second >= count {
        return String::from_str(alloc, "unsound");
    }
    let given = [
        Type::Id(TypeId { index: first }),
        Type::Id(TypeId { index: second }),
    ];
    let live = resolve.live_types(alloc, InterfaceId { index: 0 }, &given)?;
    print_numbers(alloc, live.as_slice())
}

/// The numbers of the interface's types that no type reaches.
fn reached_by_none(alloc: Global, resolve: &Resolve) -> Result<String, AllocError> {
    if !resolve.is_sound() || resolve.interfaces.is_empty() {
        return String::from_str(alloc, "unsound");
    }
    let live = resolve.live_types(alloc, InterfaceId { index: 0 }, &[])?;
    print_numbers(alloc, live.as_slice())
}

fn print_reached(alloc: Global, resolve: &Resolve, asked: &str) -> Result<String, AllocError> {
    let (first, second) = word_and_rest(asked);
    if first == "none" {
        return reached_by_none(alloc, resolve);
    }
    reached_by_two(alloc, resolve, number(first), number(second))
}

pub(crate) fn answer(alloc: Global, given: &str, asked: &str) -> Result<String, AllocError> {
    let resolve = resolve(alloc, given)?;
    let printed = print_reached(alloc, &resolve, asked);
    drop(resolve);
    printed
}
