//! The name of any core module, in its section of names.
//!
//! Core standard, appendix, custom sections: name section.
#![tactic(auto, using(byte_encoding::proofs::Pieces::writing))]

ghost use Rattle.std.specs.Prelude.{◌≡◌, ◌≤◌, ◌++◌, length, take, drop, map, IfOk, IfErr, OnOk, option_map};
ghost use Rattle.byte_encoding.specs.Encoding.{raw, octet, named, sized, Encoding, Fits, ◌⊕◌};
ghost use Rattle.byte_encoding.specs.Written.{Writes, Refused};
ghost use Rattle.core_sections.specs.Sections.{view, body_view};
ghost use Rattle.core_bytes.specs.Modules.{name_section, with_id};
ghost use Rattle.core_bytes.specs.Renaming.{part_view, others, own_index, with_own, names_with, has_names, names_index, bytes_in, parts_in_front, wholes, renamed, by_parts, with_module_name};

use crate::number::{put_blob, put_with_id};
use crate::part::{Part, read_parts};
use byte_encoding::{BuildFault, put_bytes};
use comp_lists::Text;
use core_sections::{Content, Section, SectionFault, sections_of};
use std::alloc::{AllocError, Global};

/// The name of the section of names.
const NAME: [u8; 4] = [0x6e, 0x61, 0x6d, 0x65];

/// The index of the first name of the module, or 0 where there is none.
fn own_index(parts: &[Part<'_>]) -> usize
    ensures value { result ≡ own_index (map part_view parts.now) }
    ensures within { result ≤ length parts.now }
{
    for index in 0..parts.len() {
        if parts[index].id == 0 {
            return index;
        }
    }
    0
}

/// Writes the parts that aren't the name of the module.
fn put_others(out: &mut Vec<u8>, parts: &[Part<'_>]) -> Result<(), AllocError>
    ensures { OnOk result (out.new.items ≡ out.old.items ++ others (map part_view parts.now)) }
{
    for part in parts {
        if part.id != 0 {
            out.extend_from_slice(part.whole)?;
        }
    }
    Ok(())
}

/// Writes these parts with another name of the module.
fn put_with_own(out: &mut Vec<u8>, name: &Text, parts: &[Part<'_>]) -> Result<(), BuildFault>
    ensures { Writes out.old.items out.new.items result
        (with_own name.now (map part_view parts.now)) }
{
    let (before, rest) = parts.split_at(own_index(parts));
    put_others(out, before)?;
    put_with_id(out, 0x00, name)?;
    put_others(out, rest)?;
    Ok(())
}

fn put_names(out: &mut Vec<u8>, name: &Text, parts: &[Part<'_>]) -> Result<(), BuildFault>
    ensures { Writes out.old.items out.new.items result
        (named name_section ⊕ with_own name.now (map part_view parts.now)) }
{
    put_blob(out, &NAME)?;
    put_with_own(out, name, parts)?;
    Ok(())
}

/// Writes a section of names.
fn put_section(out: &mut Vec<u8>, name: &Text, parts: &[Part<'_>]) -> Result<(), BuildFault>
    ensures { Writes out.old.items out.new.items result
        (names_with name.now (map part_view parts.now)) }
{
    let mut buffer = Vec::new(*out.allocator());
    put_names(&mut buffer, name, parts)?;
    put_bytes(out, &[0x00])?;
    put_blob(out, buffer.as_slice())?;
    Ok(())
}

fn has_names(content: Content<'_>) -> bool
    ensures { result ≡ has_names (body_view content.entry) }
{
    match content {
        Content::Custom { name, .. } => name.as_bytes() == NAME.as_slice(),
        Content::Coded { .. } => false,
    }
}

/// The index of the first section of names, or the end.
fn names_index(sections: &[Section<'_>]) -> usize
    ensures value { result ≡ names_index (map view sections.now) }
    ensures within { result ≤ length sections.now }
{
    for index in 0..sections.len() {
        if has_names(sections[index].content) {
            return index;
        }
    }
    sections.len()
}

fn bytes_in<'a>(content: Content<'a>) -> &'a [u8]
    ensures { result.now ≡ bytes_in (body_view content.entry) }
{
    match content {
        Content::Custom { bytes, .. } => bytes,
        Content::Coded { bytes, .. } => bytes,
    }
}

/// The parts of the section in front, where there is one and they can be read.
fn parts_in_front<'a>(
    alloc: Global,
    sections: &[Section<'a>],
) -> Result<Option<Vec<Part<'a>>>, AllocError>
    ensures { IfOk result
        (λ o. option_map (λ v. map part_view v.items) o ≡ parts_in_front (map view sections.now)) }
{
    match sections.first() {
        Some(section) => read_parts(alloc, bytes_in(section.content)),
        None => Ok(Some(Vec::new(alloc))),
    }
}

/// Writes sections unchanged.
fn put_wholes(out: &mut Vec<u8>, sections: &[Section<'_>]) -> Result<(), AllocError>
    ensures { OnOk result (out.new.items ≡ out.old.items ++ wholes (map view sections.now)) }
{
    for section in sections {
        out.extend_from_slice(section.whole)?;
    }
    Ok(())
}

/// The sections after the first.
fn without_first<'a, 'b>(sections: &'b [Section<'a>]) -> &'b [Section<'a>]
    ensures { result.now ≡ drop 1 sections.now }
{
    match sections {
        [] => sections,
        [_, rest @ ..] => rest,
    }
}

/// Writes the module of these sections, the first section of names with these parts and this name.
fn put_module(
    out: &mut Vec<u8>,
    name: &Text,
    sections: &[Section<'_>],
    parts: &[Part<'_>],
) -> Result<(), BuildFault>
    ensures { Writes out.old.items out.new.items result
        (renamed name.now (map view sections.now) (map part_view parts.now)) }
{
    let (before, rest) = sections.split_at(names_index(sections));
    put_bytes(out, &[0x00, 0x61, 0x73, 0x6d, 0x01, 0x00, 0x00, 0x00])?;
    put_wholes(out, before)?;
    put_section(out, name, parts)?;
    put_wholes(out, without_first(rest))?;
    Ok(())
}

/// The parts of the first section of names, where they can be read.
fn names_parts<'a>(
    alloc: Global,
    sections: &[Section<'a>],
) -> Result<Option<Vec<Part<'a>>>, AllocError>
    ensures { IfOk result (λ o. option_map (λ v. map part_view v.items) o
        ≡ parts_in_front (drop (names_index (map view sections.now)) (map view sections.now))) }
{
    let (_, front) = sections.split_at(names_index(sections));
    parts_in_front(alloc, front)
}

/// Writes the module of these sections with this name, or as it is where its names can't be read.
fn put_by_parts(
    out: &mut Vec<u8>,
    bytes: &[u8],
    name: &Text,
    sections: &[Section<'_>],
) -> Result<(), BuildFault>
    ensures { Writes out.old.items out.new.items result (by_parts bytes.now name.now
        (map view sections.now)
        (parts_in_front (drop (names_index (map view sections.now)) (map view sections.now)))) }
{
    match names_parts(*out.allocator(), sections)? {
        None => put_bytes(out, bytes),
        Some(parts) => put_module(out, name, sections, &parts),
    }
}

fn put_renamed(out: &mut Vec<u8>, bytes: &[u8], name: &Text) -> Result<(), BuildFault>
    ensures { Writes out.old.items out.new.items result (with_module_name bytes.now name.now) }
{
    match sections_of(*out.allocator(), bytes) {
        Ok(sections) => put_by_parts(out, bytes, name, &sections),
        Err(SectionFault::Memory) => Err(BuildFault::Memory),
        Err(_) => put_bytes(out, bytes),
    }
}

/// A core module with this name in its section of names, and otherwise as it is.
///
/// Only the first section of names is changed. The name replaces the first name of the module there, or comes before
/// all else, and further names of the module are removed; a module without such a section gets one at its end.
/// Every other section and every other part of that one is kept, byte for byte; the sizes of what is
/// changed are written the shortest way. A module whose sections, or the parts of whose section of
/// names, can't be read is returned unchanged.
///
/// It fails with [`BuildFault::TooMany`] only where a size would exceed 2^32 - 1, and reports that one.
pub fn set_module_name(alloc: Global, bytes: &[u8], name: &str) -> Result<Vec<u8>, BuildFault>
    ensures ok { IfOk result (λ v. v.items ≡ (with_module_name bytes.now name.now).bytes) }
    ensures fits { OnOk result (Fits (with_module_name bytes.now name.now).counts) }
    ensures refused { IfErr result (Refused (with_module_name bytes.now name.now).counts) }
{
    let name = Text::from_str(alloc, name)?;
    let mut out = Vec::new(alloc);
    put_renamed(&mut out, bytes, &name)?;
    Ok(out)
}
