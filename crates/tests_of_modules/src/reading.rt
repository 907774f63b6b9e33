//! Modules that are read, and modules without their records.

use crate::answers::section_fault;
use comp_lists::Text;
use core_sections::{CoreModule, Stripped, read_module, strip};
use std::alloc::{AllocError, Global};

/// What the export of this name names.
fn export(alloc: Global, name: &str, module: &CoreModule) -> Result<String, AllocError> {
    let name = Text::from_str(alloc, name)?;
    format!(in alloc; "{:?}", module.exports.get(&name))
}

/// A list of what a module has, or else what the export of this name names.
fn part(alloc: Global, asked: &str, module: &CoreModule) -> Result<String, AllocError> {
    match asked {
        "types" => format!(in alloc; "{:?}", module.types.as_slice()),
        "imports" => format!(in alloc; "{:?}", module.imports.as_slice()),
        "functions" => format!(in alloc; "{:?}", module.items.functions.as_slice()),
        name => export(alloc, name, module),
    }
}

/// The result of a query on a module that is read, or the fault.
pub(crate) fn read(alloc: Global, asked: &str, bytes: &[u8]) -> Result<String, AllocError> {
    match read_module(alloc, bytes) {
        Ok(module) => part(alloc, asked, &module),
        Err(fault) => section_fault(alloc, fault),
    }
}

fn parts(alloc: Global, bytes: &[u8], stripped: &Stripped<'_>) -> Result<String, AllocError> {
    let mut text = hex::encode(alloc, bytes.get(..stripped.prefix).unwrap_or(bytes))?;
    text.push_str(hex::encode(alloc, &stripped.rest)?.as_str())?;
    for record in &stripped.records {
        text.push_str(" & ")?;
        text.push_str(hex::encode(alloc, *record)?.as_str())?;
    }
    Ok(text)
}

/// What is kept of a module, and each record that is taken out, or the fault.
pub(crate) fn stripped(alloc: Global, bytes: &[u8]) -> Result<String, AllocError> {
    match strip(alloc, bytes) {
        Ok(stripped) => parts(alloc, bytes, &stripped),
        Err(fault) => section_fault(alloc, fault),
    }
}
