//! A main module that gets a realloc.
#![tactic(auto, using(byte_encoding::proofs::Pieces::writing))]

ghost use Rattle.std.specs.Prelude.{◌≡◌, ◌++◌, Ok, List, [], map, length, is_some, IfOk};
ghost use Rattle.byte_encoding.specs.Encoding.{Encoding, Fits, ◌⊕◌};
ghost use Rattle.byte_encoding.specs.Written.{Writes, Refused};
ghost use Rattle.core_sections.specs.Sections.{view, pieces_of};
ghost use Rattle.adapter_fitting.specs.Faults.{Gives, Fitted};
ghost use Rattle.adapter_fitting.specs.Places.{placed_view, placed};
ghost use Rattle.module_edits.specs.Additions.{added_view, with_function};
ghost use Rattle.adapter_fitting.specs.MainRealloc.{realloc_name, function_export, realloc_function, with_realloc};
ghost use Rattle.adapter_fitting.specs.MainRealloc.{has_lists, can_get_realloc, exports_name, has_realloc};
ghost use Rattle.adapter_fitting.specs.MainRealloc.{lacking_of, lacking, give_lacking, main_with_realloc};

use crate::allocation::{page_realloc, put_realloc_export, realloc_type};
use crate::checks::{NewIndices, exports_of, new_indices};
use crate::fault::{FitFault, Refusal, Stop};
use crate::indices::{Indices, indices_of};
use crate::places::{PlacedSection, first, placed_sections};
use byte_encoding::BuildFault;
use comp_lists::Text;
use core_sections::{CoreModule, Section, read_module, sections_of};
use module_edits::{NewFunction, put_with_function};
use std::alloc::{AllocError, Global};

/// A realloc, with the entry of its export.
fn realloc_function<'a>(indices: NewIndices, export: &'a [u8]) -> NewFunction<'a>
    ensures { added_view result ≡ realloc_function indices export.now }
{
    NewFunction {
        func_type: realloc_type(),
        type_index: indices.type_index,
        index: indices.index,
        body: page_realloc(),
        export: Some(export),
    }
}

/// Writes a module with a realloc that has this export.
fn put_with_export(
    out: &mut Vec<u8>,
    indices: NewIndices,
    export: &[u8],
    sections: &[Section<'_>],
) -> Result<(), BuildFault>
    ensures { Writes out.old.items out.new.items result (with_function []
        indices.first (realloc_function indices export.now) (map view sections.now)) }
{
    let new = realloc_function(indices, export);
    put_with_function(out, &[], indices.first, new, sections)
}

/// Writes a module with a realloc at these indices.
fn put_realloc_at(
    out: &mut Vec<u8>,
    indices: NewIndices,
    sections: &[Section<'_>],
) -> Result<(), BuildFault>
    ensures { Writes out.old.items out.new.items result (with_function [] indices.first (realloc_function
        indices (function_export realloc_name indices.index).bytes) (map view sections.now)) }
{
    let mut export = Vec::new(*out.allocator());
    put_realloc_export(&mut export, indices.index)?;
    put_with_export(out, indices, export.as_slice(), sections)
}

/// Writes a module with a realloc.
fn put_with_realloc(
    out: &mut Vec<u8>,
    indices: Indices,
    sections: &[Section<'_>],
) -> Result<(), BuildFault>
    ensures { Writes out.old.items out.new.items result
        (with_realloc indices (map view sections.now)) }
{
    let new = new_indices(indices)?;
    put_realloc_at(out, new, sections)
}

/// Whether a module has the lists that get an entry.
fn has_lists(sections: &[PlacedSection<'_>]) -> bool
    ensures { result ≡ has_lists (map placed_view sections.now) }
{
    first(1, sections).is_some() && first(3, sections).is_some() && first(7, sections).is_some()
}

/// Checks that a module has a memory, and the lists that get an entry.
fn can_get_realloc(module: &CoreModule, sections: &[PlacedSection<'_>]) -> Result<(), Stop>
    ensures { Gives (λ u. u) result (can_get_realloc module.now (map placed_view sections.now)) }
{
    if module.items.memories.is_empty() {
        return Err(Stop::Refused(Refusal::NoMemory));
    }
    if has_lists(sections) {
        Ok(())
    } else {
        Err(Stop::Refused(Refusal::NoFunctions))
    }
}

/// Whether a module exports an item of this name.
pub(crate) fn exports_name(
    alloc: Global,
    module: &CoreModule,
    name: &str,
) -> Result<bool, AllocError>
    ensures { IfOk result (λ b. b ≡ exports_name name.now module.now) }
{
    let name = Text::from_str(alloc, name)?;
    Ok(module.exports.contains_key(&name))
}

/// Whether a module exports an item that counts as a realloc.
fn has_realloc(alloc: Global, module: &CoreModule) -> Result<bool, AllocError>
    ensures { IfOk result (λ b. b ≡ has_realloc module.now) }
{
    let general = exports_name(alloc, module, "cabi_realloc")?;
    let own = exports_name(alloc, module, "cabi_realloc_adapter")?;
    Ok(general || own)
}

/// What a module is that can get a realloc, if it has none.
fn lacking_of(
    module: &CoreModule,
    sections: &[PlacedSection<'_>],
    has: bool,
) -> Result<Option<Indices>, Stop>
    ensures { Gives (λ o. o) result
        (lacking_of module.now (map placed_view sections.now) has) }
{
    if has {
        return Ok(None);
    }
    can_get_realloc(module, sections)?;
    Ok(Some(indices_of(module)))
}

/// What a module is that has no realloc, and can get one.
fn lacking(
    alloc: Global,
    bytes: &[u8],
    sections: &[PlacedSection<'_>],
) -> Result<Option<Indices>, Stop>
    ensures { Gives (λ o. o) result (lacking bytes.now (map placed_view sections.now)) }
{
    let module = read_module(alloc, bytes)?;
    let has = has_realloc(alloc, &module)?;
    lacking_of(&module, sections, has)
}

/// The module of these sections, which end there, with a realloc.
fn give_lacking(
    alloc: Global,
    end: usize,
    sections: &[Section<'_>],
    located: &[PlacedSection<'_>],
    indices: Indices,
) -> Result<Option<Vec<u8>>, FitFault>
    requires { map placed_view located.now ≡ placed 8 (map view sections.now) }
    ensures { Fitted (λ v. v.items) result
        (give_lacking end (map view sections.now) (Some indices)) }
{
    exports_of(alloc, end, indices, located)?;
    let mut out = Vec::new(alloc);
    put_with_realloc(&mut out, indices, sections)?;
    Ok(Some(out))
}

fn give_to_sections(
    alloc: Global,
    bytes: &[u8],
    sections: &[Section<'_>],
) -> Result<Option<Vec<u8>>, FitFault>
    requires { pieces_of bytes.now ≡ Ok (map view sections.now) }
    ensures { Fitted (λ v. v.items) result (main_with_realloc bytes.now) }
{
    let placed = placed_sections(alloc, bytes, sections)?;
    match lacking(alloc, bytes, &placed)? {
        None => Ok(None),
        Some(indices) => give_lacking(alloc, bytes.len(), sections, &placed, indices),
    }
}

/// A main module with a realloc for its adapters, `cabi_realloc_adapter`, or `None` where it
/// exports something of this name or `cabi_realloc`.
///
/// The realloc is one more function, the last, and its export the last one. It answers with a page
/// of memory, 64 KiB, by which memory 0 grows. It traps where something was there before, where
/// another size is asked for, and where the memory can't grow. All else is kept, byte for byte, but
/// for the counts and sizes around what is added, which are written the shortest way.
///
/// The module needs a memory, a function of its own, and exports. The faults are those of [`crate::fit_adapter`].
pub fn give_realloc(alloc: Global, bytes: &[u8]) -> Result<Option<Vec<u8>>, FitFault>
    ensures { Fitted (λ v. v.items) result (main_with_realloc bytes.now) }
{
    let sections = sections_of(alloc, bytes)?;
    give_to_sections(alloc, bytes, &sections)
}
