//! The calls of the inputs of cases.

use crate::answers::{encoding, written};
use crate::bodies::body;
use crate::modules::called;
use crate::reading::{read, stripped};
use crate::sections::section;
use core_bytes::set_module_name;
use std::alloc::{AllocError, Global};
use test_cases::{bytes_of, word_and_rest};

/// The result of a call on a module, and on the text in front of the module.
fn answer_of_module(alloc: Global, call: &str, given: &str) -> Result<String, AllocError> {
    let (asked, digits) = given.split_once(" & ").unwrap_or(("", given));
    let bytes = bytes_of(alloc, digits)?;
    match call {
        "read" => read(alloc, asked, &bytes),
        "rename" => written(alloc, set_module_name(alloc, &bytes, asked)),
        _ => stripped(alloc, &bytes),
    }
}

/// The result for an input.
pub(crate) fn answer(alloc: Global, input: &str) -> Result<String, AllocError> {
    let (call, given) = word_and_rest(input);
    match call {
        "read" | "rename" | "strip" => answer_of_module(alloc, call, given),
        "body" => encoding(alloc, body(alloc, given)),
        "section" => encoding(alloc, section(alloc, given)),
        _ => called(alloc, input),
    }
}
