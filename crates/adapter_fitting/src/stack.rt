//! The globals of an adapter's stack, by their names.

ghost use Rattle.std.specs.Prelude.{◌≡◌, List, map, codes, IfOk, option_map};
ghost use Rattle.core_sections.specs.Sections.{body_view};
ghost use Rattle.core_parts.specs.Names.{name_view};
ghost use Rattle.adapter_fitting.specs.Faults.{Gives};
ghost use Rattle.adapter_fitting.specs.Places.{placed_view};
ghost use Rattle.adapter_fitting.specs.Stack.{has_names, names_in, names_of, is_variable, is_variable_of};
ghost use Rattle.adapter_fitting.specs.Stack.{variables, the_one, both, stack_of, stack_in};

use crate::fault::{Refusal, Stop};
use crate::places::{PlacedSection, bytes_in};
use core_parts::{GlobalName, global_names};
use core_sections::{Content, EntityType, ValType};
use std::alloc::{AllocError, Global};

/// The indices of the globals that say where the stack of an adapter is, and whether it is there.
#[derive(Clone, Copy)]
pub(crate) struct StackGlobals {
    pub(crate) pointer: u32,
    pub(crate) state: u32,
}

/// Whether this is a section of names.
fn has_names(content: Content<'_>) -> bool
    ensures { result ≡ has_names (body_view content.entry) }
{
    match content {
        Content::Custom { name, .. } => name.as_bytes() == b"name".as_slice(),
        Content::Coded { .. } => false,
    }
}

/// The names of globals that a section holds.
fn names_in<'a>(alloc: Global, section: PlacedSection<'a>) -> Result<Vec<GlobalName<'a>>, Stop>
    ensures { Gives (λ v. map name_view v.items) result (names_in (placed_view section.entry)) }
{
    let content = section.section.content;
    if !has_names(content) {
        return Ok(Vec::new(alloc));
    }
    match global_names(alloc, bytes_in(content))? {
        None => Err(Stop::Refused(Refusal::Names {
            place: section.place,
        })),
        Some(names) => Ok(names),
    }
}

/// The names of globals that these sections hold.
fn names_of<'a>(alloc: Global, sections: &[PlacedSection<'a>]) -> Result<Vec<GlobalName<'a>>, Stop>
    ensures { Gives (λ v. map name_view v.items) result
        (names_of (map placed_view sections.now)) }
{
    let mut names = Vec::new(alloc);
    for section in sections {
        let more = names_in(alloc, *section)?;
        names.extend_from_slice(&more)?;
    }
    Ok(names)
}

/// Whether this is a global of 32 bits that may be set.
fn is_variable(entity: Option<&EntityType>) -> bool
    ensures { result ≡ is_variable (option_map (λ e. e.now) entity.entry) }
{
    match entity {
        Some(
            EntityType::Global {
                val_type: ValType::I32,
                mutable,
            },
        ) => *mutable,
        _ => false,
    }
}

/// Whether this is the name of a variable that the module defines; `first` is the first global that it defines.
fn is_variable_of(globals: &[EntityType], first: usize, name: &[u8], given: GlobalName<'_>) -> bool
    ensures { result ≡ is_variable_of globals.now first name.now (name_view given.entry) }
{
    let index = given.index as usize;
    given.name == name && first <= index && is_variable(globals.get(index))
}

/// The indices of the variables with this name.
fn variables(
    alloc: Global,
    globals: &[EntityType],
    first: usize,
    name: &[u8],
    names: &[GlobalName<'_>],
) -> Result<Vec<u32>, AllocError>
    ensures { IfOk result
        (λ v. v.items ≡ variables globals.now first name.now (map name_view names.now)) }
{
    let mut indices = Vec::new(alloc);
    for given in names {
        if is_variable_of(globals, first, name, *given) {
            indices.push(given.index)?;
        }
    }
    Ok(indices)
}

/// The one that there is, if there is one.
fn the_one(indices: &[u32]) -> Result<Option<u32>, Stop>
    ensures { Gives (λ o. o) result (the_one indices.now) }
{
    match indices {
        [] => Ok(None),
        [index, rest @ ..] => {
            if rest.is_empty() {
                Ok(Some(*index))
            } else {
                Err(Stop::Refused(Refusal::ManyGlobals))
            }
        }
    }
}

/// The one variable with this name, if there is one.
fn variable(
    alloc: Global,
    globals: &[EntityType],
    first: usize,
    name: &[u8],
    names: &[GlobalName<'_>],
) -> Result<Option<u32>, Stop>
    ensures { Gives (λ o. o) result
        (the_one (variables globals.now first name.now (map name_view names.now))) }
{
    let indices = variables(alloc, globals, first, name, names)?;
    the_one(&indices)
}

/// The globals of a stack, which has a pointer and a state.
fn both(pointer: Option<u32>, state: Option<u32>) -> Result<Option<StackGlobals>, Stop>
    ensures { Gives (λ o. o) result (both pointer state) }
{
    let Some(pointer) = pointer else {
        return Ok(None);
    };
    let Some(state) = state else {
        return Err(Stop::Refused(Refusal::NoState));
    };
    Ok(Some(StackGlobals { pointer, state }))
}

/// The globals of the stack, by these names.
fn stack_by_names(
    alloc: Global,
    globals: &[EntityType],
    first: usize,
    names: &[GlobalName<'_>],
) -> Result<Option<StackGlobals>, Stop>
    ensures { Gives (λ o. o) result (stack_of globals.now first (map name_view names.now)) }
{
    let pointer = variable(alloc, globals, first, b"__stack_pointer", names)?;
    let state = variable(alloc, globals, first, b"allocation_state", names)?;
    both(pointer, state)
}

/// The globals of the stack, where these sections name them; `first` is the first global that the module defines.
pub(crate) fn stack_globals(
    alloc: Global,
    globals: &[EntityType],
    first: usize,
    sections: &[PlacedSection<'_>],
) -> Result<Option<StackGlobals>, Stop>
    ensures { Gives (λ o. o) result
        (stack_in globals.now first (map placed_view sections.now)) }
{
    let names = names_of(alloc, sections)?;
    stack_by_names(alloc, globals, first, &names)
}
