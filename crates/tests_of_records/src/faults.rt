//! What is printed of a fault.

use json_paths::{Failure, Refusal};
use std::alloc::{AllocError, Global};

/// The path of what is no record, or what is wrong.
fn print_refusal(alloc: Global, refusal: &Refusal) -> Result<String, AllocError> {
    match refusal {
        Refusal::Record { path } => String::from_str(alloc, path.as_str()),
        Refusal::LeftOut { what } => String::from_str(alloc, what.as_str()),
        Refusal::MergeConflict { name } => format!(in alloc; "conflict {}", name.as_str()),
        _ => String::from_str(alloc, "no record"),
    }
}

/// The printed text of a fault; out of memory is an error of the program itself.
pub(crate) fn print_fault(alloc: Global, failure: &Failure) -> Result<String, AllocError> {
    match failure {
        Failure::Memory => Err(AllocError),
        Failure::Refused(refusal) => print_refusal(alloc, refusal),
    }
}
