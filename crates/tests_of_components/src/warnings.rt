//! Warnings of modules.

use crate::fitted::modules_of;
use module_warnings::{LintFault, warnings_text};
use std::alloc::{AllocError, Global};

/// The lines of a text, with ` ; ` between two of them, or `nothing`.
fn joined(alloc: Global, text: &str) -> Result<String, AllocError> {
    let mut answer = String::new(alloc);
    for line in text.split("\n") {
        if line.is_empty() {
            continue;
        }
        if !answer.is_empty() {
            answer.push_str(" ; ")?;
        }
        answer.push_str(line)?;
    }
    if answer.is_empty() {
        answer.push_str("nothing")?;
    }
    Ok(answer)
}

/// The warnings of the modules of an input, or the fault, as text.
pub(crate) fn answer(alloc: Global, input: &str) -> Result<String, AllocError> {
    let modules = modules_of(alloc, input)?;
    match warnings_text(alloc, modules) {
        Ok(text) => joined(alloc, text.as_str()),
        Err(LintFault::Memory) => Err(AllocError),
        Err(fault) => format!(in alloc; "{fault}"),
    }
}
