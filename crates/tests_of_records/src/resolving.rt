//! How many types a small world has, or that it is refused.
//!
//! The query is the id of an interface of two functions that return lists of texts, and the side
//! that it is on: `import`, `export`, `both` or `nowhere`.

use crate::faults::print_fault;
use crate::wits::{add_item, empty, name};
use comp_lists::{Keyed, Seq, Text};
use json_paths::{Failure, Refusal};
use record_resolve::{Resolved, resolve};
use record_values::{Func, Interface, InterfaceName, Node, Wit};
use std::alloc::{AllocError, Global};
use test_cases::word_and_rest;
use wit_data::Primitive;

fn texts(alloc: Global) -> Result<Seq<Node>, AllocError> {
    let mut nodes = Seq::new(alloc);
    nodes.push(Node::Primitive(Primitive::String))?;
    nodes.push(Node::List)?;
    Ok(nodes)
}

fn add_function(alloc: Global, functions: &mut Seq<Func>, name: &str) -> Result<(), AllocError> {
    let name = Text::from_str(alloc, name)?;
    let nodes = texts(alloc)?;
    functions.push(Func {
        name,
        is_async: false,
        params: Seq::new(alloc),
        result: Some(nodes),
    })?;
    Ok(())
}

/// An interface of two functions that return lists of texts.
fn interface(alloc: Global) -> Result<Interface, AllocError> {
    let mut functions = Seq::new(alloc);
    add_function(alloc, &mut functions, "f")?;
    add_function(alloc, &mut functions, "g")?;
    Ok(Interface {
        types: Seq::new(alloc),
        functions,
    })
}

fn add_interface(
    alloc: Global,
    interfaces: &mut Keyed<InterfaceName, Interface>,
    id: &str,
) -> Result<(), AllocError> {
    let interface = interface(alloc)?;
    interfaces.insert_if_absent(name(alloc, id)?, interface)
}

fn world(alloc: Global, id: &str, imported: bool, exported: bool) -> Result<Wit, AllocError> {
    let mut wit = empty(alloc);
    add_interface(alloc, &mut wit.interfaces, id)?;
    add_item(alloc, &mut wit.imports, id, imported)?;
    add_item(alloc, &mut wit.exports, id, exported)?;
    Ok(wit)
}

fn print_count(alloc: Global, resolved: &Resolved) -> Result<String, AllocError> {
    let count = resolved.resolve.types.len();
    format!(in alloc; "{count}")
}

fn print_refused(alloc: Global, failure: &Failure) -> Result<String, AllocError> {
    match failure {
        Failure::Refused(Refusal::Record { path: _ }) => String::from_str(alloc, "refused"),
        _ => print_fault(alloc, failure),
    }
}

fn print_resolved(alloc: Global, wit: &Wit) -> Result<String, AllocError> {
    match resolve(alloc, wit) {
        Ok(resolved) => print_count(alloc, &resolved),
        Err(failure) => print_refused(alloc, &failure),
    }
}

pub(crate) fn answer(alloc: Global, asked: &str) -> Result<String, AllocError> {
    let (id, side) = word_and_rest(asked);
    let imported = matches!(side, "import" | "both");
    let exported = matches!(side, "export" | "both");
    let wit = world(alloc, id, imported, exported)?;
    let printed = print_resolved(alloc, &wit);
    drop(wit);
    printed
}
