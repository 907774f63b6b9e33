//! Main's realloc under the name that it has for adapters, and an adapter that imports it so.
#![tactic(auto, using(byte_encoding::proofs::Pieces::writing))]

ghost use Rattle.std.specs.Prelude.{◌≡◌, ◌++◌, Ok, Some, List, [], map, MatchResult, IfOk};
ghost use Rattle.byte_encoding.specs.Encoding.{Encoding, Fits, ◌⊕◌};
ghost use Rattle.byte_encoding.specs.Written.{Writes, Refused};
ghost use Rattle.core_sections.specs.Sections.{view, pieces_of};
ghost use Rattle.core_sections.specs.Entries.{module_of};
ghost use Rattle.module_edits.specs.Renaming.{renamed_view, with_import_name};
ghost use Rattle.adapter_fitting.specs.Faults.{Gives, Fitted, Told};
ghost use Rattle.adapter_fitting.specs.Places.{placed};
ghost use Rattle.adapter_fitting.specs.AdapterRealloc.{is_for_adapters, names_adapter_realloc, new_name, importing};
ghost use Rattle.adapter_fitting.specs.AdapterRealloc.{renamed_if, with_adapter_realloc};

use crate::fault::{FitFault, Stop};
use crate::main_realloc::exports_name;
use crate::realloc::{ReallocImport, find_realloc};
use byte_encoding::BuildFault;
use core_sections::{CoreModule, Section, read_module, sections_of};
use module_edits::{ImportName, put_with_import_name};
use std::alloc::{AllocError, Global};

/// Whether a module exports a realloc for adapters, or none at all.
fn is_for_adapters(alloc: Global, module: &CoreModule) -> Result<bool, AllocError>
    ensures { IfOk result (λ b. b ≡ is_for_adapters module.now) }
{
    let own = exports_name(alloc, module, "cabi_realloc_adapter")?;
    let general = exports_name(alloc, module, "cabi_realloc")?;
    Ok(own || !general)
}

/// Whether the adapters of a main module are to import its realloc as `cabi_realloc_adapter`: it
/// exports an item of that name, or none that counts as a realloc, so that [`crate::give_realloc`]
/// gives it one.
///
/// The fault is `NotModule` or `Section`, or out of memory.
pub fn names_adapter_realloc(alloc: Global, bytes: &[u8]) -> Result<bool, FitFault>
    ensures { Told result (names_adapter_realloc bytes.now) }
{
    let module = read_module(alloc, bytes)?;
    let named = is_for_adapters(alloc, &module)?;
    Ok(named)
}

/// The import of main's realloc.
fn importing(alloc: Global, bytes: &[u8]) -> Result<Option<ReallocImport>, Stop>
    ensures { Gives (λ o. o) result (importing bytes.now []) }
{
    let module = read_module(alloc, bytes)?;
    Ok(find_realloc(module.imports.as_slice()))
}

/// Writes the module of these sections with the new name.
fn put_renamed(out: &mut Vec<u8>, sections: &[Section<'_>]) -> Result<(), BuildFault>
    ensures { Writes out.old.items out.new.items result
        (with_import_name new_name (map view sections.now)) }
{
    let name = ImportName {
        module: b"__main_module__",
        field: b"cabi_realloc",
        new_field: b"cabi_realloc_adapter",
    };
    put_with_import_name(out, name, sections)
}

/// The module of these sections with the new name.
fn renamed(alloc: Global, sections: &[Section<'_>]) -> Result<Vec<u8>, BuildFault>
    ensures { MatchResult result
        (λ v. (v.items ≡ (with_import_name new_name (map view sections.now)).bytes)
        × Fits (with_import_name new_name (map view sections.now)).counts)
        (λ e. Refused (with_import_name new_name (map view sections.now)).counts e) }
{
    let mut out = Vec::new(alloc);
    put_renamed(&mut out, sections)?;
    Ok(out)
}

fn rename_sections(
    alloc: Global,
    bytes: &[u8],
    sections: &[Section<'_>],
) -> Result<Option<Vec<u8>>, FitFault>
    requires { pieces_of bytes.now ≡ Ok (map view sections.now) }
    ensures { Fitted (λ v. v.items) result (with_adapter_realloc bytes.now) }
{
    match importing(alloc, bytes)? {
        None => Ok(None),
        Some(_) => {
            let out = renamed(alloc, sections)?;
            Ok(Some(out))
        }
    }
}

/// An adapter that imports main's realloc as `cabi_realloc_adapter` in the place of `cabi_realloc`,
/// or `None` where it doesn't import it.
///
/// All else is kept, byte for byte, but for the counts and sizes around the imports, which are
/// written the shortest way. The fault is `NotModule` or `Section`, out of memory, or
/// [`FitFault::TooMany`] for a count or a size.
pub fn name_adapter_realloc(alloc: Global, bytes: &[u8]) -> Result<Option<Vec<u8>>, FitFault>
    ensures { Fitted (λ v. v.items) result (with_adapter_realloc bytes.now) }
{
    let sections = sections_of(alloc, bytes)?;
    rename_sections(alloc, bytes, &sections)
}
