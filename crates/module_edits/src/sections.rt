//! The sections of a module with one more function.
#![tactic(auto, using(byte_encoding::proofs::Pieces::writing))]

ghost use Rattle.std.specs.Prelude.{◌≡◌, ◌++◌, List, map};
ghost use Rattle.byte_encoding.specs.Encoding.{raw, octet, number, quantity, each, named, sized};
ghost use Rattle.byte_encoding.specs.Encoding.{Encoding, ◌⊕◌};
ghost use Rattle.byte_encoding.specs.Written.{Writes};
ghost use Rattle.core_sections.specs.Sections.{view, body_view};
ghost use Rattle.module_edits.specs.Additions.{added_view, with_export, edited_section};
ghost use Rattle.module_edits.specs.Additions.{edited_body, edited, with_function};

use crate::additions::NewFunction;
use crate::code::put_code_section;
use crate::entries::{put_functions, put_longer_section};
use byte_encoding::{BuildFault, put_bytes};
use core_parts::ExportedIndex;
use core_sections::{Content, Section};

/// Writes the section of exports.
fn put_exports(
    out: &mut Vec<u8>,
    new: NewFunction<'_>,
    whole: &[u8],
    contents: &[u8],
) -> Result<(), BuildFault>
    ensures { Writes out.old.items out.new.items result
        (with_export (added_view new.entry).export whole.now contents.now) }
{
    match new.export {
        None => put_bytes(out, whole),
        Some(entry) => put_longer_section(out, 7, contents, entry),
    }
}

/// Writes a section that isn't a custom one.
fn put_coded(
    out: &mut Vec<u8>,
    exports: &[ExportedIndex],
    first: u32,
    new: NewFunction<'_>,
    whole: &[u8],
    id: u8,
    contents: &[u8],
) -> Result<(), BuildFault>
    ensures { Writes out.old.items out.new.items result (edited_section
        exports.now first (added_view new.entry) whole.now id contents.now) }
{
    match id {
        1 => put_longer_section(out, 1, contents, new.func_type),
        3 => put_functions(out, contents, new.type_index),
        7 => put_exports(out, new, whole, contents),
        10 => put_code_section(out, exports, first, new, contents),
        _ => put_bytes(out, whole),
    }
}

/// Writes a section.
fn put_section(
    out: &mut Vec<u8>,
    exports: &[ExportedIndex],
    first: u32,
    new: NewFunction<'_>,
    section: Section<'_>,
) -> Result<(), BuildFault>
    ensures { Writes out.old.items out.new.items result
        (edited exports.now first (added_view new.entry) (view section.entry)) }
{
    let Section { whole, content } = section;
    match content {
        Content::Custom { .. } => put_bytes(out, whole),
        Content::Coded { id, bytes } => put_coded(out, exports, first, new, whole, id, bytes),
    }
}

/// Writes sections.
fn put_sections(
    out: &mut Vec<u8>,
    exports: &[ExportedIndex],
    first: u32,
    new: NewFunction<'_>,
    sections: &[Section<'_>],
) -> Result<(), BuildFault>
    ensures { Writes out.old.items out.new.items result (each
        (edited exports.now first (added_view new.entry)) (map view sections.now)) }
{
    for section in sections {
        put_section(out, exports, first, new, *section)?;
    }
    Ok(())
}

/// Writes the module of these sections, whose exports are these, with a new function, which each
/// exported function calls before all that it does, unless it is imported; `first` is the index of
/// the first function that isn't.
///
/// It fails with [`BuildFault::TooMany`] only where a count or a size would exceed 2^32 - 1, and reports that one.
pub fn put_with_function(
    out: &mut Vec<u8>,
    exports: &[ExportedIndex],
    first: u32,
    new: NewFunction<'_>,
    sections: &[Section<'_>],
) -> Result<(), BuildFault>
    ensures { Writes out.old.items out.new.items result (with_function
        exports.now first (added_view new.entry) (map view sections.now)) }
{
    put_bytes(out, &[0x00, 0x61, 0x73, 0x6d, 0x01, 0x00, 0x00, 0x00])?;
    put_sections(out, exports, first, new, sections)?;
    Ok(())
}
