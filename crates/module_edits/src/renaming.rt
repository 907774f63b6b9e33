//! A module whose imports of one name have another one.
#![tactic(auto, using(byte_encoding::proofs::Pieces::writing))]

ghost use Rattle.std.specs.Prelude.{◌≡◌, ◌++◌, List, [], Some, map};
ghost use Rattle.byte_encoding.specs.Encoding.{raw, octet, number, quantity, each, named, sized};
ghost use Rattle.byte_encoding.specs.Encoding.{Encoding, ◌⊕◌};
ghost use Rattle.byte_encoding.specs.Written.{Writes};
ghost use Rattle.core_sections.specs.Sections.{view, body_view};
ghost use Rattle.core_parts.specs.Imports.{parts_view, parts_of};
ghost use Rattle.module_edits.specs.Additions.{with_id};
ghost use Rattle.module_edits.specs.Renaming.{renamed_view, is_renamed, field_of, import_of, imports_of};
ghost use Rattle.module_edits.specs.Renaming.{renamed_body, renamed, with_import_name};

use crate::entries::put_blob;
use byte_encoding::{BuildFault, put_bytes, put_count};
use core_parts::{ImportParts, import_parts};
use core_sections::{Content, Section};

/// A name of imports, and the field that they get in the place of theirs.
#[derive(Clone, Copy)]
pub struct ImportName<'a> {
    pub module: &'a [u8],
    pub field: &'a [u8],
    pub new_field: &'a [u8],
}

fn is_renamed(name: ImportName<'_>, import: ImportParts<'_>) -> bool
    ensures { result ≡ is_renamed (renamed_view name.entry) (parts_view import.entry) }
{
    import.module == name.module && import.field == name.field
}

/// Writes the field of an import.
fn put_field(
    out: &mut Vec<u8>,
    name: ImportName<'_>,
    import: ImportParts<'_>,
) -> Result<(), BuildFault>
    ensures { Writes out.old.items out.new.items result
        (named (field_of (renamed_view name.entry) (parts_view import.entry))) }
{
    if is_renamed(name, import) {
        put_blob(out, name.new_field)
    } else {
        put_blob(out, import.field)
    }
}

/// Writes an import.
fn put_import(
    out: &mut Vec<u8>,
    name: ImportName<'_>,
    import: ImportParts<'_>,
) -> Result<(), BuildFault>
    ensures { Writes out.old.items out.new.items result
        (import_of (renamed_view name.entry) (parts_view import.entry)) }
{
    put_blob(out, import.module)?;
    put_field(out, name, import)?;
    put_bytes(out, import.described)?;
    Ok(())
}

/// Writes imports.
fn put_all_imports(
    out: &mut Vec<u8>,
    name: ImportName<'_>,
    imports: &[ImportParts<'_>],
) -> Result<(), BuildFault>
    ensures { Writes out.old.items out.new.items result
        (each (import_of (renamed_view name.entry)) (map parts_view imports.now)) }
{
    for import in imports {
        put_import(out, name, *import)?;
    }
    Ok(())
}

/// Writes imports after their count.
#[tactic(auto, using(byte_encoding::proofs::Pieces::writing, crate::proofs::Bodies::parts_length))]
fn put_counted(
    out: &mut Vec<u8>,
    name: ImportName<'_>,
    imports: &[ImportParts<'_>],
) -> Result<(), BuildFault>
    ensures { Writes out.old.items out.new.items result
        (imports_of (renamed_view name.entry) [] (Some (map parts_view imports.now))) }
{
    put_count(out, imports.len())?;
    put_all_imports(out, name, imports)?;
    Ok(())
}

/// Writes the contents of the section of imports.
fn put_imports(out: &mut Vec<u8>, name: ImportName<'_>, contents: &[u8]) -> Result<(), BuildFault>
    ensures { Writes out.old.items out.new.items result
        (imports_of (renamed_view name.entry) contents.now (parts_of contents.now)) }
{
    match import_parts(*out.allocator(), contents)? {
        None => put_bytes(out, contents),
        Some(imports) => put_counted(out, name, &imports),
    }
}

/// Writes the section of imports.
fn put_import_section(
    out: &mut Vec<u8>,
    name: ImportName<'_>,
    contents: &[u8],
) -> Result<(), BuildFault>
    ensures { Writes out.old.items out.new.items result
        (with_id 2 (imports_of (renamed_view name.entry) contents.now (parts_of contents.now))) }
{
    let mut buffer = Vec::new(*out.allocator());
    put_imports(&mut buffer, name, contents)?;
    put_bytes(out, &[2])?;
    put_blob(out, buffer.as_slice())?;
    Ok(())
}

/// Writes a section.
fn put_renamed(
    out: &mut Vec<u8>,
    name: ImportName<'_>,
    section: Section<'_>,
) -> Result<(), BuildFault>
    ensures { Writes out.old.items out.new.items result
        (renamed (renamed_view name.entry) (view section.entry)) }
{
    let Section { whole, content } = section;
    match content {
        Content::Custom { .. } => put_bytes(out, whole),
        Content::Coded { id, bytes } => {
            if id == 2 {
                put_import_section(out, name, bytes)
            } else {
                put_bytes(out, whole)
            }
        }
    }
}

/// Writes sections.
fn put_all_renamed(
    out: &mut Vec<u8>,
    name: ImportName<'_>,
    sections: &[Section<'_>],
) -> Result<(), BuildFault>
    ensures { Writes out.old.items out.new.items result
        (each (renamed (renamed_view name.entry)) (map view sections.now)) }
{
    for section in sections {
        put_renamed(out, name, *section)?;
    }
    Ok(())
}

/// Writes the module of these sections, whose imports of that name have the new field; all else is
/// the old module's, but for the counts and sizes around the imports, which are written the
/// shortest way.
///
/// It fails with [`BuildFault::TooMany`] only where a count or a size would exceed 2^32 - 1, and reports that one.
pub fn put_with_import_name(
    out: &mut Vec<u8>,
    name: ImportName<'_>,
    sections: &[Section<'_>],
) -> Result<(), BuildFault>
    ensures { Writes out.old.items out.new.items result
        (with_import_name (renamed_view name.entry) (map view sections.now)) }
{
    put_bytes(out, &[0x00, 0x61, 0x73, 0x6d, 0x01, 0x00, 0x00, 0x00])?;
    put_all_renamed(out, name, sections)?;
    Ok(())
}
