//! Worlds with compatible interfaces: the imports that are left and their order, or the refusal.
//!
//! The query is `merging` or `keeping`, and then interfaces, with `; ` between them: the side of
//! one (`import`, `export` or `both`), its id, and the ids of at most two others. It has types `t`
//! and `u`, each of which is the `t` of such another interface, in turn, or a number where none is
//! named.

use crate::faults::print_fault;
use crate::wits::{add_item, empty, name};
use comp_lists::{Keyed, Seq, Text};
use record_values::{Interface, InterfaceName, Node, Owner, TypeName, Typed, Wit};
use record_versions::merge_versions;
use std::alloc::{AllocError, Global};
use test_cases::word_and_rest;
use wit_data::Primitive;

/// The type `t` of an interface.
fn type_of(alloc: Global, id: &str) -> Result<TypeName, AllocError> {
    let type_name = Text::from_str(alloc, "t")?;
    let owner = name(alloc, id)?;
    Ok(TypeName {
        owner: Owner::Interface(owner),
        name: type_name,
    })
}

fn node(alloc: Global, uses: &str) -> Result<Node, AllocError> {
    if uses.is_empty() {
        return Ok(Node::Primitive(Primitive::U32));
    }
    match type_of(alloc, uses) {
        Ok(named) => Ok(Node::Named(named)),
        Err(refused) => Err(refused),
    }
}

fn nodes(alloc: Global, uses: &str) -> Result<Seq<Node>, AllocError> {
    let mut nodes = Seq::new(alloc);
    nodes.push(node(alloc, uses)?)?;
    Ok(nodes)
}

fn add_type(
    alloc: Global,
    types: &mut Seq<Typed>,
    type_name: &str,
    uses: &str,
) -> Result<(), AllocError> {
    let name = Text::from_str(alloc, type_name)?;
    let nodes = nodes(alloc, uses)?;
    types.push(Typed { name, nodes })?;
    Ok(())
}

/// An interface whose types are those of the others with these ids.
fn interface(alloc: Global, uses: &str) -> Result<Interface, AllocError> {
    let (first, second) = word_and_rest(uses);
    let mut types = Seq::new(alloc);
    add_type(alloc, &mut types, "t", first)?;
    add_type(alloc, &mut types, "u", second)?;
    Ok(Interface {
        types,
        functions: Seq::new(alloc),
    })
}

fn add_interface(
    alloc: Global,
    interfaces: &mut Keyed<InterfaceName, Interface>,
    id: &str,
    uses: &str,
) -> Result<(), AllocError> {
    let interface = interface(alloc, uses)?;
    interfaces.insert_if_absent(name(alloc, id)?, interface)
}

fn add_row(alloc: Global, wit: &mut Wit, text: &str) -> Result<(), AllocError> {
    let (side, rest) = word_and_rest(text);
    let (id, uses) = word_and_rest(rest);
    add_interface(alloc, &mut wit.interfaces, id, uses)?;
    add_item(alloc, &mut wit.imports, id, side != "export")?;
    add_item(alloc, &mut wit.exports, id, side != "import")
}

fn world(alloc: Global, text: &str) -> Result<Wit, AllocError> {
    let mut wit = empty(alloc);
    for row in text.split("; ") {
        add_row(alloc, &mut wit, row)?;
    }
    Ok(wit)
}

fn print_imports(alloc: Global, wit: &Wit) -> Result<String, AllocError> {
    let mut out = String::new(alloc);
    for (key, _item) in wit.imports.iter() {
        if !out.is_empty() {
            out.push(' ')?;
        }
        out.push_str(key.text().as_str())?;
    }
    Ok(out)
}

/// The imports that are left of a world, or the refusal.
fn print_merged(alloc: Global, merging: bool, wit: &Wit) -> Result<String, AllocError> {
    match merge_versions(alloc, merging, wit) {
        Ok(merged) => print_imports(alloc, &merged.wit),
        Err(failure) => print_fault(alloc, &failure),
    }
}

pub(crate) fn answer(alloc: Global, asked: &str) -> Result<String, AllocError> {
    let (word, rows) = word_and_rest(asked);
    let wit = world(alloc, rows)?;
    let printed = print_merged(alloc, word == "merging", &wit);
    drop(wit);
    printed
}
