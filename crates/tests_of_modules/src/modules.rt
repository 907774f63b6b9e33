//! New modules and sections, and laws.

use crate::answers::not_written;
use core_bytes::{Module, Section, TypeSection, one_module, other_sections_kept};
use std::alloc::{AllocError, Global};

/// How many bytes a module has that a component is given, and how many sections.
fn lengths(alloc: Global, module: &Module) -> Result<String, AllocError> {
    match module.core_module(alloc) {
        Ok(given) => format!(in alloc; "{} bytes, {} sections", given.len(), module.len()),
        Err(fault) => not_written(alloc, fault),
    }
}

/// A module of a start section.
fn start_module(alloc: Global) -> Result<Module, AllocError> {
    let mut module = Module::new(alloc);
    module.section(Section::Start(0))?;
    Ok(module)
}

/// Whether a new section is empty, and equals another.
fn is_empty(alloc: Global) -> bool {
    let section = TypeSection::new(alloc);
    section.is_empty() && section == TypeSection::new(alloc)
}

/// Nothing is done when a law is called: what it says is its contract.
fn laws(alloc: Global) -> Result<String, AllocError> {
    one_module();
    other_sections_kept();
    String::from_str(alloc, "called")
}

/// The result of a call.
pub(crate) fn called(alloc: Global, call: &str) -> Result<String, AllocError> {
    match call {
        "module of a start section" => lengths(alloc, &start_module(alloc)?),
        "new section is empty" => format!(in alloc; "{}", is_empty(alloc)),
        "laws" => laws(alloc),
        _ => String::from_str(alloc, "no call"),
    }
}
