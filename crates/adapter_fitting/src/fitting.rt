//! An adapter that gets its stack when it is first called.
#![tactic(auto, using(byte_encoding::proofs::Pieces::writing))]

ghost use Rattle.std.specs.Prelude.{◌≡◌, ◌++◌, Ok, List, map, length};
ghost use Rattle.byte_encoding.specs.Encoding.{Encoding, Fits, ◌⊕◌};
ghost use Rattle.byte_encoding.specs.Written.{Writes, Refused};
ghost use Rattle.core_sections.specs.Sections.{view, pieces_of};
ghost use Rattle.adapter_fitting.specs.Faults.{Fitted};
ghost use Rattle.adapter_fitting.specs.Places.{placed_view, placed};
ghost use Rattle.module_edits.specs.Additions.{added_view, with_function};
ghost use Rattle.adapter_fitting.specs.Allocation.{allocation};
ghost use Rattle.adapter_fitting.specs.Fitting.{stack_function, stacked, needed_in, fit_needed, fit};

use crate::allocation::{allocation_type, put_allocation};
use crate::checks::{NewIndices, exports_of, limited, new_indices};
use crate::fault::FitFault;
use crate::indices::{StackIndices, needed_in};
use crate::places::{PlacedSection, placed_sections};
use crate::stack::StackGlobals;
use byte_encoding::BuildFault;
use core_parts::ExportedIndex;
use core_sections::{Section, sections_of};
use module_edits::{NewFunction, put_with_function};
use std::alloc::Global;

/// A function that allocates a stack.
fn stack_function<'a>(indices: NewIndices, body: &'a [u8]) -> NewFunction<'a>
    ensures { added_view result ≡ stack_function indices body.now }
{
    NewFunction {
        func_type: allocation_type(),
        type_index: indices.type_index,
        index: indices.index,
        body,
        export: None,
    }
}

/// Writes a module with a function of this body that allocates its stack.
fn put_with_body(
    out: &mut Vec<u8>,
    exports: &[ExportedIndex],
    indices: NewIndices,
    body: &[u8],
    sections: &[Section<'_>],
) -> Result<(), BuildFault>
    ensures { Writes out.old.items out.new.items result (with_function exports.now
        indices.first (stack_function indices body.now) (map view sections.now)) }
{
    let new = stack_function(indices, body);
    put_with_function(out, exports, indices.first, new, sections)
}

/// Writes a module with a function at these indices that allocates its stack.
#[tactic(auto, using(byte_encoding::proofs::Pieces::writing, module_edits::proofs::Bodies::no_counts))]
fn put_with_stack(
    out: &mut Vec<u8>,
    exports: &[ExportedIndex],
    indices: NewIndices,
    realloc: u32,
    globals: StackGlobals,
    sections: &[Section<'_>],
) -> Result<(), BuildFault>
    ensures { Writes out.old.items out.new.items result (with_function exports.now
        indices.first (stack_function indices (allocation realloc globals).bytes) (map view sections.now)) }
{
    let mut body = Vec::new(*out.allocator());
    put_allocation(&mut body, realloc, globals)?;
    put_with_body(out, exports, indices, body.as_slice(), sections)
}

/// Writes a module with a function that allocates its stack.
fn put_stacked(
    out: &mut Vec<u8>,
    exports: &[ExportedIndex],
    needed: StackIndices,
    sections: &[Section<'_>],
) -> Result<(), BuildFault>
    ensures { Writes out.old.items out.new.items result
        (stacked exports.now needed (map view sections.now)) }
{
    let indices = new_indices(needed.indices)?;
    let realloc = limited(needed.realloc)?;
    put_with_stack(out, exports, indices, realloc, needed.globals, sections)
}

/// The module of these sections, which end there, with its stack.
fn fit_needed(
    alloc: Global,
    end: usize,
    sections: &[Section<'_>],
    located: &[PlacedSection<'_>],
    needed: StackIndices,
) -> Result<Option<Vec<u8>>, FitFault>
    requires { map placed_view located.now ≡ placed 8 (map view sections.now) }
    ensures { Fitted (λ v. v.items) result (fit_needed end (map view sections.now) (Some needed)) }
{
    let exports = exports_of(alloc, end, needed.indices, located)?;
    let mut out = Vec::new(alloc);
    put_stacked(&mut out, &exports, needed, sections)?;
    Ok(Some(out))
}

/// The module of these sections with its stack, or nothing where it needs none.
fn fit_sections(
    alloc: Global,
    bytes: &[u8],
    sections: &[Section<'_>],
) -> Result<Option<Vec<u8>>, FitFault>
    requires { pieces_of bytes.now ≡ Ok (map view sections.now) }
    ensures { Fitted (λ v. v.items) result (fit bytes.now) }
{
    let placed = placed_sections(alloc, bytes, sections)?;
    match needed_in(alloc, bytes, &placed)? {
        None => Ok(None),
        Some(needed) => fit_needed(alloc, bytes.len(), sections, &placed, needed),
    }
}

/// An adapter with a stack of its own, or `None` where it needs none.
///
/// One that imports no memory is not looked at. One that does must have no active data segment,
/// which would be copied over what is there (`Refusal::ActiveData`). It needs a stack where its
/// sections of names have names for two globals of 32 bits that it defines and that may be set,
/// `__stack_pointer` and `allocation_state`, and it has functions of its own; the first without the
/// second is refused (`Refusal::NoState`), as its stack would be in the other module's memory,
/// wherever that has its own. Then it has one more function, the last: where the state is 0, that
/// sets it to 1, the pointer to the end of 64 KiB that main's realloc answers with, and the state
/// to 2. Main's realloc is the import `cabi_realloc` of `__main_module__`. Each exported function
/// calls it before all that it does; one that is imported doesn't. All else is kept, byte for byte,
/// but for the counts and sizes around what is added, which are written the shortest way.
///
/// The module is checked where it is read: its entries as by `read_module`, the names of globals,
/// the order of the sections, and that each body begins with locals. Instructions are not read. The
/// fault is a [`crate::Refusal`], out of memory, or [`FitFault::TooMany`] for a count, a size or an
/// index that would exceed 2^32 - 1.
pub fn fit_adapter(alloc: Global, bytes: &[u8]) -> Result<Option<Vec<u8>>, FitFault>
    ensures { Fitted (λ v. v.items) result (fit bytes.now) }
{
    let sections = sections_of(alloc, bytes)?;
    fit_sections(alloc, bytes, &sections)
}
