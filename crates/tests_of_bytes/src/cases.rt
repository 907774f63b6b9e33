//! The calls of the inputs of cases.

use crate::building::{built, measured};
use crate::components::{checked, equal, read};
use crate::values::called;
use comp_names::is_formed;
use std::alloc::{AllocError, Global};
use test_cases::{bytes_of, word_and_rest};

/// Whether a name has its form.
fn formed(alloc: Global, name: &str) -> Result<String, AllocError> {
    if is_formed(alloc, name)? {
        String::from_str(alloc, "yes")
    } else {
        String::from_str(alloc, "no")
    }
}

/// The result for the last component of an input, and for the text in front of it.
fn answer_of_bytes(alloc: Global, call: &str, given: &str) -> Result<String, AllocError> {
    let (first, digits) = given.split_once(" & ").unwrap_or(("", given));
    let bytes = bytes_of(alloc, digits)?;
    match call {
        "check" => checked(alloc, &bytes),
        "build" => built(alloc, first, &bytes),
        "measure" => measured(alloc, first, &bytes),
        "equal" => equal(alloc, &bytes_of(alloc, first)?, &bytes),
        _ => read(alloc, call, &bytes),
    }
}

/// The result for an input.
pub(crate) fn answer(alloc: Global, input: &str) -> Result<String, AllocError> {
    let (call, given) = word_and_rest(input);
    match call {
        "check"
        | "build"
        | "measure"
        | "equal"
        | "read"
        | "check_names"
        | "describe"
        | "links"
        | "mermaid"
        | "dot" => { answer_of_bytes(alloc, call, given) }
        "is_formed" => formed(alloc, given),
        _ => called(alloc, call, given),
    }
}
