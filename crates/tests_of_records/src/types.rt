//! The nodes and sizes of types, and functions.
//!
//! Given are the interfaces of a record, whose types a world may name; the query is a type or a
//! function of that world, all in JSON. The world has a resource `w`. The answer is the levels and
//! the nodes of a type, its kind, and its nodes; or the function; or the path of what is wrong.

use crate::faults::print_fault;
use comp_lists::{Keyed, Text};
use json_paths::read_value;
use record_types::{
    ReadInterface, Scope, Size, TypeFacts, read_function, read_interfaces, read_named_type,
};
use record_values::Typed;
use serde_json::Value;
use std::alloc::{AllocError, Global};

/// The types of the world: a resource.
fn world_types(alloc: Global) -> Result<Keyed<Text, TypeFacts>, AllocError> {
    let mut types = Keyed::new(alloc);
    let size = Size {
        levels: 1,
        nodes: 1,
    };
    let facts = TypeFacts {
        size,
        is_resource: true,
        ends_at_resource: true,
    };
    types.insert_if_absent(Text::from_str(alloc, "w")?, facts)?;
    Ok(types)
}

fn kind(facts: TypeFacts) -> &'static str {
    match (facts.is_resource, facts.ends_at_resource) {
        (true, _) => "resource",
        (false, true) => "alias",
        (false, false) => "value",
    }
}

fn print_facts(alloc: Global, typed: &Typed, facts: TypeFacts) -> Result<String, AllocError> {
    let (levels, nodes) = (facts.size.levels, facts.size.nodes);
    format!(in alloc;
        "{levels} {nodes} {} {:?}",
        kind(facts),
        typed.nodes.as_slice()
    )
}

fn print_type(alloc: Global, scope: &Scope<'_>, value: &Value) -> Result<String, AllocError> {
    match read_named_type(alloc, scope, value) {
        Ok((typed, facts)) => print_facts(alloc, &typed, facts),
        Err(failure) => print_fault(alloc, &failure),
    }
}

fn print_function(alloc: Global, scope: &Scope<'_>, value: &Value) -> Result<String, AllocError> {
    match read_function(alloc, scope, value) {
        Ok(function) => format!(in alloc; "{function:?}"),
        Err(failure) => print_fault(alloc, &failure),
    }
}

/// What a query asks for of a value.
#[derive(Clone, Copy)]
enum Requested {
    Type,
    Function,
}

/// The printed text of a value, where the world may name the types of these interfaces.
fn print_value(
    alloc: Global,
    requested: Requested,
    done: &[ReadInterface],
    value: &Value,
) -> Result<String, AllocError> {
    let current = world_types(alloc)?;
    let scope = Scope {
        done,
        current: &current,
        is_world: true,
    };
    match requested {
        Requested::Type => print_type(alloc, &scope, value),
        Requested::Function => print_function(alloc, &scope, value),
    }
}

/// The printed text of a JSON text, where the world may name the types of these interfaces.
fn print_text(
    alloc: Global,
    requested: Requested,
    done: &[ReadInterface],
    text: &str,
) -> Result<String, AllocError> {
    match read_value(alloc, text.as_bytes()) {
        Ok(value) => print_value(alloc, requested, done, &value),
        Err(failure) => print_fault(alloc, &failure),
    }
}

/// The printed text of a JSON text, where the interfaces are those of a value.
fn print_with(
    alloc: Global,
    requested: Requested,
    before: Value,
    text: &str,
) -> Result<String, AllocError> {
    match read_interfaces(alloc, before) {
        Ok(done) => print_text(alloc, requested, done.as_slice(), text),
        Err(failure) => print_fault(alloc, &failure),
    }
}

fn print_asked(
    alloc: Global,
    requested: Requested,
    given: &str,
    text: &str,
) -> Result<String, AllocError> {
    match read_value(alloc, given.as_bytes()) {
        Ok(before) => print_with(alloc, requested, before, text),
        Err(failure) => print_fault(alloc, &failure),
    }
}

pub(crate) fn answer(alloc: Global, given: &str, asked: &str) -> Result<String, AllocError> {
    let named = format!(in alloc; "{{\"name\":\"a\",\"type\":{asked}}}")?;
    print_asked(alloc, Requested::Type, given, named.as_str())
}

pub(crate) fn function_answer(
    alloc: Global,
    given: &str,
    asked: &str,
) -> Result<String, AllocError> {
    print_asked(alloc, Requested::Function, given, asked)
}
