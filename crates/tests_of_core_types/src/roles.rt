//! Whether core types fit roles of imports and exports, in the world of `made`.
//!
//! The query is a group of roles, the words of one of them, `|`, and types of functions, with `, `
//! between them: parameters, `>` and results by letters, as in `made`. For `imported-memory` and
//! `exported-memory`, of at least one page, the query has the limits of a memory: a minimum, a
//! maximum or `_`, and `narrow` or `wide`. The answer is `yes` or `no` for each type.

ghost use Rattle.std.specs.Prelude.{IsTrue};
ghost use Rattle.world_values.specs.Mentions.{HasReturned};

use crate::made::{WORLD, module, resolve};
use crate::offers::limits_of;
use crate::{exports, imports};
use comp_roles::{Export, Import};
use core_sections::{CoreModule, EntityType, ExportedItem, Limits};
use core_types::MemoryType;
use record_core_types::{fits_export, fits_import};
use std::alloc::{AllocError, Global};
use test_cases::word_and_rest;
use wit_data::Resolve;

/// Whether the function that the role itself has is in the resolve.
fn has_returned(resolve: &Resolve, import: &Import) -> bool
    ensures { IsTrue result → HasReturned resolve.now import.now }
{
    match import {
        Import::ExportedTaskReturn(_, _, function) => resolve.has_function(function),
        _ => true,
    }
}

fn push_whether(out: &mut String, fits: bool) -> Result<(), AllocError> {
    if !out.is_empty() {
        out.push_str(", ")?;
    }
    out.push_str(if fits { "yes" } else { "no" })
}

/// Whether an entity fits an import; none does where the resolve isn't sound.
fn takes_import(
    alloc: Global,
    resolve: &Resolve,
    core: &CoreModule,
    import: &Import,
    entity: &EntityType,
) -> Result<bool, AllocError> {
    if !resolve.is_sound() || !has_returned(resolve, import) {
        return Ok(false);
    }
    fits_import(alloc, resolve, WORLD, core, import, entity)
}

/// Whether a function of this type fits an import.
fn takes_function(
    alloc: Global,
    resolve: &Resolve,
    import: &Import,
    letters: &str,
) -> Result<bool, AllocError> {
    let core = module(alloc, letters)?;
    let taken = takes_import(alloc, resolve, &core, import, &EntityType::Function(0));
    drop(core);
    taken
}

fn print_each_import(
    alloc: Global,
    resolve: &Resolve,
    import: &Import,
    types: &str,
) -> Result<String, AllocError> {
    let mut out = String::new(alloc);
    for letters in types.split(", ") {
        push_whether(&mut out, takes_function(alloc, resolve, import, letters)?)?;
    }
    Ok(out)
}

fn print_import(
    alloc: Global,
    resolve: &Resolve,
    import: Import,
    types: &str,
) -> Result<String, AllocError> {
    let printed = print_each_import(alloc, resolve, &import, types);
    drop(import);
    printed
}

fn print_made_import(
    alloc: Global,
    resolve: &Resolve,
    import: Result<Import, AllocError>,
    types: &str,
) -> Result<String, AllocError> {
    match import {
        Ok(import) => print_import(alloc, resolve, import, types),
        Err(refused) => Err(refused),
    }
}

/// Whether an item fits an export; none does where the resolve isn't sound.
fn takes_export(
    alloc: Global,
    resolve: &Resolve,
    core: &CoreModule,
    export: &Export,
    entity: EntityType,
) -> Result<bool, AllocError> {
    if !resolve.is_sound() {
        return Ok(false);
    }
    let item = ExportedItem::Entity(entity);
    fits_export(alloc, resolve, WORLD, core, export, &item)
}

/// Whether a function of this type fits an export.
fn takes_exported(
    alloc: Global,
    resolve: &Resolve,
    export: &Export,
    letters: &str,
) -> Result<bool, AllocError> {
    let core = module(alloc, letters)?;
    let taken = takes_export(alloc, resolve, &core, export, EntityType::Function(0));
    drop(core);
    taken
}

fn print_each_export(
    alloc: Global,
    resolve: &Resolve,
    export: &Export,
    types: &str,
) -> Result<String, AllocError> {
    let mut out = String::new(alloc);
    for letters in types.split(", ") {
        push_whether(&mut out, takes_exported(alloc, resolve, export, letters)?)?;
    }
    Ok(out)
}

fn print_export(
    alloc: Global,
    resolve: &Resolve,
    export: Export,
    types: &str,
) -> Result<String, AllocError> {
    let printed = print_each_export(alloc, resolve, &export, types);
    drop(export);
    printed
}

fn print_made_export(
    alloc: Global,
    resolve: &Resolve,
    export: Result<Export, AllocError>,
    types: &str,
) -> Result<String, AllocError> {
    match export {
        Ok(export) => print_export(alloc, resolve, export, types),
        Err(refused) => Err(refused),
    }
}

/// The role's memory: at least one page.
const MEMORY: MemoryType = MemoryType {
    minimum: 1,
    maximum: None,
};

fn print_fit(alloc: Global, fits: Result<bool, AllocError>) -> Result<String, AllocError> {
    let mut out = String::new(alloc);
    push_whether(&mut out, fits?)?;
    Ok(out)
}

fn print_imported_memory(
    alloc: Global,
    resolve: &Resolve,
    limits: Limits,
) -> Result<String, AllocError> {
    let core = module(alloc, ">")?;
    let import = Import::MainModuleMemory(MEMORY);
    let fits = takes_import(alloc, resolve, &core, &import, &EntityType::Memory(limits));
    drop(import);
    drop(core);
    print_fit(alloc, fits)
}

fn print_exported_memory(
    alloc: Global,
    resolve: &Resolve,
    limits: Limits,
) -> Result<String, AllocError> {
    let core = module(alloc, ">")?;
    let export = Export::Memory(MEMORY);
    let fits = takes_export(alloc, resolve, &core, &export, EntityType::Memory(limits));
    drop(export);
    drop(core);
    print_fit(alloc, fits)
}

/// Whether types fit a role of an export.
fn print_export_role(
    alloc: Global,
    resolve: &Resolve,
    group: &str,
    role: &str,
    types: &str,
) -> Result<String, AllocError> {
    match group {
        "exported-function" => print_made_export(
            alloc,
            resolve,
            exports::function(alloc, role),
            types,
        ),
        "post-return" => print_made_export(
            alloc,
            resolve,
            exports::post_return(alloc, role),
            types,
        ),
        "plain-export" => print_export(alloc, resolve, exports::plain(alloc, role), types),
        "exported-memory" => print_exported_memory(alloc, resolve, limits_of(types)),
        _ => String::from_str(alloc, "no group"),
    }
}

/// Whether types fit a role.
fn print_role(
    alloc: Global,
    resolve: &Resolve,
    group: &str,
    role: &str,
    types: &str,
) -> Result<String, AllocError> {
    match group {
        "built-in" => print_import(alloc, resolve, imports::built_in(role), types),
        "task" => print_import(alloc, resolve, imports::of_a_task(role), types),
        "payload" => print_import(alloc, resolve, imports::of_a_payload(alloc, role), types),
        "function" => print_made_import(alloc, resolve, imports::function(alloc, role), types),
        "task-return" => print_made_import(
            alloc,
            resolve,
            imports::task_return(alloc, role),
            types,
        ),
        "imported-memory" => print_imported_memory(alloc, resolve, limits_of(types)),
        _ => print_export_role(alloc, resolve, group, role, types),
    }
}

pub(crate) fn answer(alloc: Global, asked: &str) -> Result<String, AllocError> {
    let (words, types) = asked.split_once(" | ").unwrap_or((asked, ""));
    let (group, role) = word_and_rest(words);
    let resolve = resolve(alloc)?;
    let printed = print_role(alloc, &resolve, group, role, types);
    drop(resolve);
    printed
}
