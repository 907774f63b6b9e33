//! The sections of a package.
//!
//! Core standard, binary format: sections. Component model, binary format: `component`, `section`.

ghost use Rattle.std.specs.Prelude.{◌≡◌, List, ℕ, length, ◌+◌, ◌<◌, ◌^◌, IfOk, IfErr};
ghost use Rattle.part_readers.specs.Reading.{Gives as GivesPart, name_at};
ghost use Rattle.package_syntax.specs.declared.fault.Reason.TheVariants as reasons;
ghost use Rattle.package_syntax.specs.declared.fault.SyntaxFault.TheVariants as faults;
ghost use Rattle.package_syntax.specs.Syntax.{Spells};
ghost use Rattle.package_syntax.specs.Causes.{IsRefusal};
ghost use Rattle.package_syntax.specs.Placing.{Gives, ok_or, stop};
ghost use Rattle.package_syntax.specs.Sections.{GivesAt, refusal, whole, world_end_at, world_body_at, world_at, export_at, placed_from, custom_section_at, world_section_at, export_section_at, contents_at, header_at, section_at, sections_at, beginning_reason, package_at};

use crate::fault::{Reason, Refusal, StopFault, SyntaxFault};
use crate::placing::{list, stopped};
use crate::syntax::{Section, WorldType};
use comp_bytes::ExternName;
use comp_lists::{Bytes, Seq, Text};
use part_readers::{PartFault, byte, expect_byte, extern_name, name, sized};
use std::alloc::Global;

const PREAMBLE: [u8; 8] = [0x00, 0x61, 0x73, 0x6d, 0x0d, 0x00, 0x01, 0x00];

/// One type, which is a component type of two declarations; the first is a type, a component type again.
const WORLD_HEAD: [u8; 5] = [0x01, 0x41, 0x02, 0x01, 0x41];

fn refused(place: usize, reason: Reason) -> SyntaxFault
    ensures { result ≡ faults.Refused (refusal place reason) }
{
    SyntaxFault::Refused(Refusal { place, reason })
}

/// The export of a world, to the end.
fn world_end(alloc: Global, bytes: &[u8]) -> Result<ExternName, PartFault>
    ensures { GivesPart (λ x. x) result (whole world_end_at bytes.now) }
{
    let rest = expect_byte(0x04, bytes)?;
    let (id, rest) = extern_name(alloc, rest)?;
    let rest = expect_byte(0x04, rest)?;
    let rest = expect_byte(0x00, rest)?;
    if !rest.is_empty() {
        return Err(PartFault::Malformed);
    }
    Ok(id)
}

fn placed_end(alloc: Global, bytes: &[u8]) -> Result<ExternName, StopFault>
    ensures { Gives (λ x. x) result (ok_or (stop (length bytes.now) reasons.World)
        (whole world_end_at bytes.now)) }
{
    match world_end(alloc, bytes) {
        Ok(id) => Ok(id),
        Err(PartFault::Memory) => Err(StopFault::Memory),
        Err(PartFault::Malformed) => Err(stopped(bytes.len(), Reason::World)),
    }
}

#[tactic(auto, unfolding(crate::specs::Sections::world_body_at))]
fn world_body(alloc: Global, bytes: &[u8]) -> Result<WorldType, StopFault>
    ensures { Gives (λ x. x) result (world_body_at bytes.now) }
{
    let (declarations, rest) = list(alloc, bytes)?;
    let id = placed_end(alloc, rest)?;
    Ok(WorldType { declarations, id })
}

#[tactic(auto, unfolding(crate::specs::Sections::world_at))]
fn world(alloc: Global, bytes: &[u8]) -> Result<WorldType, StopFault>
    ensures { Gives (λ x. x) result (world_at bytes.now) }
{
    if !bytes.starts_with(&WORLD_HEAD) {
        return Err(stopped(bytes.len(), Reason::World));
    }
    let (_, body) = bytes.split_at(5);
    world_body(alloc, body)
}

#[tactic(auto, unfolding(crate::specs::Sections::export_at))]
fn export(alloc: Global, bytes: &[u8]) -> Result<ExternName, PartFault>
    ensures { GivesPart (λ x. x) result (export_at bytes.now) }
{
    let rest = expect_byte(0x01, bytes)?;
    let (name, rest) = extern_name(alloc, rest)?;
    let rest = expect_byte(0x03, rest)?;
    let rest = expect_byte(0x00, rest)?;
    let rest = expect_byte(0x00, rest)?;
    if !rest.is_empty() {
        return Err(PartFault::Malformed);
    }
    Ok(name)
}

fn custom_name(alloc: Global, start: usize, inner: &[u8]) -> Result<(Text, &[u8]), SyntaxFault>
    ensures { GivesAt (λ x. (x.0, x.1.now)) result (ok_or (refusal start reasons.CustomName)
        (name_at inner.now)) }
{
    match name(alloc, inner) {
        Ok(read) => Ok(read),
        Err(PartFault::Memory) => Err(SyntaxFault::Memory),
        Err(PartFault::Malformed) => Err(refused(start, Reason::CustomName)),
    }
}

fn custom_section(alloc: Global, start: usize, inner: &[u8]) -> Result<Section, SyntaxFault>
    ensures { GivesAt (λ x. x) result (custom_section_at start inner.now) }
{
    let (name, rest) = custom_name(alloc, start, inner)?;
    let contents = Bytes::from_vec(Vec::from_slice(alloc, rest)?);
    Ok(Section::Custom { name, contents })
}

fn world_section(alloc: Global, start: usize, inner: &[u8]) -> Result<Section, SyntaxFault>
    requires { start + length inner.now < 2 ^ 64 }
    ensures { GivesAt (λ x. x) result (world_section_at start inner.now) }
{
    match world(alloc, inner) {
        Ok(world) => Ok(Section::World(world)),
        Err(StopFault::Memory) => Err(SyntaxFault::Memory),
        Err(StopFault::Refused(stop)) => {
            let place = start + inner.len().saturating_sub(stop.left);
            Err(refused(place, stop.reason))
        }
    }
}

fn export_section(alloc: Global, start: usize, inner: &[u8]) -> Result<Section, SyntaxFault>
    ensures { GivesAt (λ x. x) result (export_section_at start inner.now) }
{
    match export(alloc, inner) {
        Ok(name) => Ok(Section::Export(name)),
        Err(PartFault::Memory) => Err(SyntaxFault::Memory),
        Err(PartFault::Malformed) => Err(refused(start, Reason::Export)),
    }
}

/// The contents of a section of this id at the offset `offset`. They are at the offset `start`.
#[tactic(auto, unfolding(crate::specs::Sections::contents_at))]
fn contents(
    alloc: Global,
    id: u8,
    offset: usize,
    start: usize,
    inner: &[u8],
) -> Result<Section, SyntaxFault>
    requires { start + length inner.now < 2 ^ 64 }
    ensures { GivesAt (λ x. x) result (contents_at id offset start inner.now) }
{
    match id {
        0 => custom_section(alloc, start, inner),
        7 => world_section(alloc, start, inner),
        11 => export_section(alloc, start, inner),
        _ => Err(refused(offset, Reason::SectionKind)),
    }
}

/// The id of the section at the front, its contents, and the rest of the bytes.
#[tactic(auto, unfolding(crate::specs::Sections::header_at))]
fn header(bytes: &[u8]) -> Result<(u8, &[u8], &[u8]), PartFault>
    ensures { GivesPart (λ x. (x.0, x.1.now, x.2.now)) result (header_at bytes.now) }
{
    let (id, rest) = byte(bytes)?;
    let (inner, rest) = sized(rest)?;
    Ok((id, inner, rest))
}

/// The section at the front, at the offset `offset`.
#[tactic(auto, unfolding(crate::specs::Sections::section_at))]
fn section(alloc: Global, offset: usize, bytes: &[u8]) -> Result<(Section, &[u8]), SyntaxFault>
    requires { offset + length bytes.now < 2 ^ 64 }
    ensures { GivesAt (λ x. (x.0, x.1.now)) result (section_at offset bytes.now) }
{
    if bytes.starts_with(&PREAMBLE) {
        return Err(refused(offset, Reason::Joined));
    }
    let (id, inner, rest) = match header(bytes) {
        Ok(read) => read,
        Err(PartFault::Memory) => return Err(SyntaxFault::Memory),
        Err(PartFault::Malformed) => return Err(refused(offset, Reason::Section)),
    };
    let start = offset + (bytes.len() - rest.len() - inner.len());
    let found = contents(alloc, id, offset, start, inner)?;
    Ok((found, rest))
}

/// Sections, which are all of the bytes, from the offset `start` on.
fn sections(alloc: Global, start: usize, bytes: &[u8]) -> Result<Seq<Section>, SyntaxFault>
    requires { start + length bytes.now < 2 ^ 64 }
    ensures { GivesAt (λ x. x) result (sections_at (length bytes.now) start bytes.now) }
{
    let mut found = Seq::new(alloc);
    let mut rest = bytes;
    while !rest.is_empty() {
        let offset = start + (bytes.len() - rest.len());
        let (section, after) = section(alloc, offset, rest)?;
        found.push(section)?;
        rest = after;
    }
    Ok(found)
}

/// Why bytes are no package, by the first of them.
fn beginning_reason(bytes: &[u8]) -> Reason
    ensures { result ≡ beginning_reason bytes.now }
{
    match bytes {
        [] => Reason::NotPackage,
        [first, _rest @ ..] => {
            if *first == 0x03 {
                Reason::OldForm
            } else {
                Reason::NotPackage
            }
        }
    }
}

/// The sections of a package, or the first place that can't be read.
#[tactic(auto, unfolding(crate::specs::Sections::package_at))]
fn package(alloc: Global, bytes: &[u8]) -> Result<Seq<Section>, SyntaxFault>
    ensures { GivesAt (λ x. x) result (package_at bytes.now) }
{
    if !bytes.starts_with(&PREAMBLE) {
        return Err(refused(0, beginning_reason(bytes)));
    }
    let (_, body) = bytes.split_at(8);
    sections(alloc, 8, body)
}

/// The sections of a package, read from its bytes.
///
/// The errors are out of memory, and a [`Refusal`] with the first place that can't be read and what is wrong there.
pub fn read_sections(alloc: Global, bytes: &[u8]) -> Result<Seq<Section>, SyntaxFault>
    ensures ok { IfOk result (λ ss. Spells bytes.now ss) }
    ensures cause { IfErr result (λ e. IsRefusal bytes.now e) }
    ensures exact { GivesAt (λ x. x) result (package_at bytes.now) }
{
    package(alloc, bytes)
}
