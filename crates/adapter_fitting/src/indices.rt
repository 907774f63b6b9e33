//! What is read of a module, before it gets a function.

ghost use Rattle.std.specs.Prelude.{◌≡◌, map};
ghost use Rattle.core_sections.specs.Entries.{module_of};
ghost use Rattle.adapter_fitting.specs.Faults.{Gives, of_sections};
ghost use Rattle.adapter_fitting.specs.Places.{placed_view};
ghost use Rattle.adapter_fitting.specs.Fitting.{indices_of_module, with_type, realloc_of};
ghost use Rattle.adapter_fitting.specs.Fitting.{needed_by, needed_by_names, stack_needed, needed_of, needed_in};

use crate::data::no_data;
use crate::fault::{Refusal, Stop};
use crate::places::PlacedSection;
use crate::realloc::{
    ReallocImport, find_realloc, imported, imported_globals, is_realloc_type, shares_memory,
};
use crate::stack::{StackGlobals, stack_globals};
use core_sections::{CoreModule, read_module};
use std::alloc::Global;

/// How many types and functions a module has, and how many functions of these it imports.
#[derive(Clone, Copy)]
pub(crate) struct Indices {
    pub(crate) types: usize,
    pub(crate) functions: usize,
    pub(crate) imported: usize,
}

/// What the stack of an adapter needs.
#[derive(Clone, Copy)]
pub(crate) struct StackIndices {
    pub(crate) indices: Indices,
    /// The index of main's realloc among the functions.
    pub(crate) realloc: usize,
    pub(crate) globals: StackGlobals,
}

pub(crate) fn indices_of(module: &CoreModule) -> Indices
    ensures { result ≡ indices_of_module module.now }
{
    Indices {
        types: module.types.len(),
        functions: module.items.functions.len(),
        imported: imported(module.imports.as_slice()),
    }
}

/// The import of main's realloc, which has to be there and to have its type.
fn realloc_of(module: &CoreModule) -> Result<ReallocImport, Stop>
    ensures { Gives (λ r. r) result (realloc_of module.now) }
{
    let Some(found) = find_realloc(module.imports.as_slice()) else {
        return Err(Stop::Refused(Refusal::NoRealloc));
    };
    let ty = module.types.as_slice().get(found.type_index as usize);
    if is_realloc_type(ty) {
        Ok(found)
    } else {
        Err(Stop::Refused(Refusal::ReallocType))
    }
}

/// What a stack with these globals needs.
fn needed_with(module: &CoreModule, globals: StackGlobals) -> Result<Option<StackIndices>, Stop>
    ensures { Gives (λ o. o) result (needed_by module.now (Some globals)) }
{
    let realloc = realloc_of(module)?;
    Ok(Some(StackIndices {
        indices: indices_of(module),
        realloc: realloc.index,
        globals,
    }))
}

/// What the stack of a module needs, if it has the globals of one.
fn needed_by_names(
    alloc: Global,
    module: &CoreModule,
    sections: &[PlacedSection<'_>],
) -> Result<Option<StackIndices>, Stop>
    ensures { Gives (λ o. o) result (needed_by_names module.now (map placed_view sections.now)) }
{
    let first = imported_globals(module.imports.as_slice());
    match stack_globals(alloc, module.items.globals.as_slice(), first, sections)? {
        None => Ok(None),
        Some(globals) => needed_with(module, globals),
    }
}

/// What the stack of a module needs, if it has one and functions of its own.
fn stack_needed(
    alloc: Global,
    module: &CoreModule,
    sections: &[PlacedSection<'_>],
) -> Result<Option<StackIndices>, Stop>
    ensures { Gives (λ o. o) result (stack_needed module.now (map placed_view sections.now)) }
{
    if module.items.functions.len() == imported(module.imports.as_slice()) {
        Ok(None)
    } else {
        needed_by_names(alloc, module, sections)
    }
}

/// What the stack of a module needs, if the module shares a memory, and has no data for it.
fn needed_of(
    alloc: Global,
    module: &CoreModule,
    sections: &[PlacedSection<'_>],
) -> Result<Option<StackIndices>, Stop>
    ensures { Gives (λ o. o) result (needed_of module.now (map placed_view sections.now)) }
{
    if !shares_memory(module.imports.as_slice()) {
        return Ok(None);
    }
    no_data(sections)?;
    stack_needed(alloc, module, sections)
}

/// What the stack of the module with these bytes needs.
pub(crate) fn needed_in(
    alloc: Global,
    bytes: &[u8],
    sections: &[PlacedSection<'_>],
) -> Result<Option<StackIndices>, Stop>
    ensures { Gives (λ o. o) result (needed_in bytes.now (map placed_view sections.now)) }
{
    let module = read_module(alloc, bytes)?;
    needed_of(alloc, &module, sections)
}
