//! Look-ups in the roles of the imports of a core module.
//!
//! Given are modules, with `; ` between them: a name, and `whole` where all of main's exports are
//! imported, or the fields, as `memory=7` for main's memory of seven pages, or `cancel=_` for
//! something else. The query is `memory`: the size in which main's memory is imported; or `list`:
//! the module and the field of each import that is listed by its field.

use crate::exports::memory;
use comp_lists::{Keyed, Text};
use comp_roles::{Import, ImportInstance, ImportMap, MainOrAdapter, NamedImport};
use std::alloc::{AllocError, Global};
use test_cases::word_and_rest;

/// An import of main's memory in this size, or of something else.
fn import(size: &str) -> Import {
    match size.parse::<u32>() {
        Ok(minimum) => Import::MainModuleMemory(memory(minimum)),
        Err(_) => Import::ExportedTaskCancel,
    }
}

fn add_field(
    alloc: Global,
    fields: &mut Keyed<Text, Import>,
    text: &str,
) -> Result<(), AllocError> {
    let (name, size) = text.split_once("=").unwrap_or((text, "_"));
    let name = Text::from_str(alloc, name)?;
    fields.insert_if_absent(name, import(size))
}

fn fields(alloc: Global, text: &str) -> Result<Keyed<Text, Import>, AllocError> {
    let mut fields = Keyed::new(alloc);
    for field in text.split(" ") {
        add_field(alloc, &mut fields, field)?;
    }
    Ok(fields)
}

fn instance(alloc: Global, text: &str) -> Result<ImportInstance, AllocError> {
    if text == "whole" {
        return Ok(ImportInstance::Whole(MainOrAdapter::Main));
    }
    match fields(alloc, text) {
        Ok(fields) => Ok(ImportInstance::Names(fields)),
        Err(refused) => Err(refused),
    }
}

fn add_module(
    alloc: Global,
    modules: &mut Keyed<Text, ImportInstance>,
    text: &str,
) -> Result<(), AllocError> {
    let (name, rest) = word_and_rest(text);
    let name = Text::from_str(alloc, name)?;
    let instance = instance(alloc, rest)?;
    modules.insert_if_absent(name, instance)
}

fn import_map(alloc: Global, given: &str) -> Result<ImportMap, AllocError> {
    let mut modules = Keyed::new(alloc);
    for text in given.split("; ") {
        add_module(alloc, &mut modules, text)?;
    }
    Ok(ImportMap { modules })
}

fn print_memory(alloc: Global, imports: &ImportMap) -> Result<String, AllocError> {
    match imports.imported_memory() {
        Some(memory) => format!(in alloc; "{}", memory.minimum),
        None => String::from_str(alloc, "none"),
    }
}

fn print_names(alloc: Global, list: &[NamedImport<'_>]) -> Result<String, AllocError> {
    let mut out = String::new(alloc);
    for entry in list {
        if !out.is_empty() {
            out.push_str(", ")?;
        }
        write!(out, "{} {}", entry.from, entry.field)?;
    }
    Ok(out)
}

fn print_list(alloc: Global, imports: &ImportMap) -> Result<String, AllocError> {
    let list = imports.imports(alloc)?;
    print_names(alloc, list.as_slice())
}

pub(crate) fn answer(alloc: Global, given: &str, asked: &str) -> Result<String, AllocError> {
    let imports = import_map(alloc, given)?;
    let printed = match asked {
        "memory" => print_memory(alloc, &imports),
        _ => print_list(alloc, &imports),
    };
    drop(imports);
    printed
}
