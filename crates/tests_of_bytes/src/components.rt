//! Components by their bytes: how they are read, checked and shown.

use byte_encoding::BuildFault;
use comp_bytes::Defs;
use comp_check::{CheckFault, check};
use comp_lines::describe;
use comp_names::check_names;
use comp_read::read_component;
use found_links::{Form, find_links, show_links};
use std::alloc::{AllocError, Global};

/// The text of a fault, where it isn't that memory was refused.
pub(crate) fn refused(alloc: Global, fault: CheckFault) -> Result<String, AllocError> {
    match fault {
        CheckFault::Memory => Err(AllocError),
        _ => format!(in alloc; "{fault}"),
    }
}

/// The text of a fault, where it isn't that memory was refused.
pub(crate) fn not_built(alloc: Global, fault: BuildFault) -> Result<String, AllocError> {
    match fault {
        BuildFault::Memory => Err(AllocError),
        _ => format!(in alloc; "{fault}"),
    }
}

fn check_bytes(alloc: Global, bytes: &[u8]) -> Result<(), CheckFault> {
    let definitions = comp_check::read_component(alloc, bytes)?;
    check(alloc, &definitions)
}

/// Whether a component is right, or the fault.
pub(crate) fn checked(alloc: Global, bytes: &[u8]) -> Result<String, AllocError> {
    match check_bytes(alloc, bytes) {
        Ok(()) => String::from_str(alloc, "yes"),
        Err(fault) => refused(alloc, fault),
    }
}

/// Whether the names of definitions are right, or the fault.
fn names_checked(alloc: Global, definitions: &Defs) -> Result<String, AllocError> {
    match check_names(alloc, definitions) {
        Ok(()) => String::from_str(alloc, "yes"),
        Err(fault) => refused(alloc, CheckFault::from(fault)),
    }
}

fn joined(alloc: Global, lines: &[String]) -> Result<String, AllocError> {
    let mut text = String::new(alloc);
    for line in lines {
        if !text.is_empty() {
            text.push_str(" | ")?;
        }
        text.push_str(line.as_str())?;
    }
    Ok(text)
}

/// The lines of definitions, with ` | ` between two of them.
fn described(alloc: Global, definitions: &Defs) -> Result<String, AllocError> {
    match describe(alloc, definitions) {
        Ok(lines) => joined(alloc, &lines),
        Err(fault) => not_built(alloc, fault),
    }
}

/// The links of definitions in a form, with ` | ` between two lines.
fn linked(alloc: Global, form: Form, definitions: &Defs) -> Result<String, AllocError> {
    let links = find_links(alloc, definitions.as_slice())?;
    let shown = show_links(alloc, form, links.as_slice())?;
    let mut text = String::new(alloc);
    for line in shown.as_str().trim_end().split('\n') {
        if !text.is_empty() {
            text.push_str(" | ")?;
        }
        text.push_str(line.trim_start())?;
    }
    Ok(text)
}

/// The result of a call on definitions: whether their names are right, their lines, their links, or the definitions.
fn answer_of(alloc: Global, call: &str, definitions: &Defs) -> Result<String, AllocError> {
    match call {
        "check_names" => names_checked(alloc, definitions),
        "describe" => described(alloc, definitions),
        "links" => linked(alloc, Form::Text, definitions),
        "mermaid" => linked(alloc, Form::Mermaid, definitions),
        "dot" => linked(alloc, Form::Dot, definitions),
        _ => format!(in alloc; "{:?}", definitions.as_slice()),
    }
}

/// The result of a call on the definitions that bytes encode, or the fault.
pub(crate) fn read(alloc: Global, call: &str, bytes: &[u8]) -> Result<String, AllocError> {
    match read_component(alloc, bytes) {
        Ok(definitions) => answer_of(alloc, call, &definitions),
        Err(fault) => refused(alloc, CheckFault::from(fault)),
    }
}

/// Whether bytes encode these definitions.
fn equal_to(alloc: Global, definitions: &Defs, bytes: &[u8]) -> Result<bool, CheckFault> {
    let others = read_component(alloc, bytes)?;
    Ok(*definitions == others)
}

/// Whether two components are the same definitions.
fn are_equal(alloc: Global, first: &[u8], second: &[u8]) -> Result<bool, CheckFault> {
    let definitions = read_component(alloc, first)?;
    equal_to(alloc, &definitions, second)
}

/// Whether two components are the same definitions, or the fault.
pub(crate) fn equal(alloc: Global, first: &[u8], second: &[u8]) -> Result<String, AllocError> {
    match are_equal(alloc, first, second) {
        Ok(are_equal) => format!(in alloc; "{are_equal}"),
        Err(fault) => refused(alloc, fault),
    }
}
