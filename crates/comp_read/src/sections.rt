//! Sections of any kind of definition, and a component as its sections.
//!
//! Core standard, binary format: sections. Component model, binary format: `component`.

ghost use Rattle.std.specs.Prelude.{◌≡◌, List, ℕ, length, ◌+◌, ◌<◌, ◌^◌};
ghost use Rattle.comp_bytes.specs.Sections.{shares};
ghost use Rattle.part_readers.specs.Reading.{Gives};
ghost use Rattle.comp_read.specs.SectionReaders.{Contents, GivesAt, header_at, section_at, sections_at, component_at};

use crate::fault::ReadFault;
use comp_lists::Seq;
use part_readers::{PartFault, byte, sized};
use std::alloc::Global;

const PREAMBLE: [u8; 8] = [0x00, 0x61, 0x73, 0x6d, 0x0d, 0x00, 0x01, 0x00];

/// What the sections of a component define.
pub(crate) trait SectionItem: Sized + Drop {
    ghost contents_at: { Contents Self };

    /// The definitions of a section of this id at the offset `offset`. Its contents are at the offset `start`.
    fn contents(
        alloc: Global,
        offset: usize,
        start: usize,
        id: u8,
        inner: &[u8],
    ) -> Result<Seq<Self>, ReadFault>
        requires { start + length inner.now < 2 ^ 64 }
        ensures { GivesAt (λ x. x) result (contents_at id offset start inner.now) };
}

fn is_shared(id: u8) -> bool
    ensures { result ≡ shares id }
{
    !(id == 0 || id == 1 || id == 4)
}

/// The id of the section at the front, which follows a section of the id `last`; its contents; and the rest
/// of the bytes.
#[tactic(auto, unfolding(crate::specs::SectionReaders::header_at))]
fn header(last: u8, bytes: &[u8]) -> Result<(u8, &[u8], &[u8]), PartFault>
    ensures { Gives (λ x. (x.0, x.1.now, x.2.now)) result (header_at last bytes.now) }
{
    let (id, rest) = byte(bytes)?;
    if last == id && is_shared(id) {
        return Err(PartFault::Malformed);
    }
    let (inner, rest) = sized(rest)?;
    Ok((id, inner, rest))
}

/// The section at the front, at the offset `offset`, after a section of the id `last`.
#[tactic(auto, unfolding(crate::specs::SectionReaders::section_at))]
fn section<D: SectionItem>(
    alloc: Global,
    offset: usize,
    last: u8,
    bytes: &[u8],
) -> Result<(u8, Seq<D>, &[u8]), ReadFault>
    requires { offset + length bytes.now < 2 ^ 64 }
    ensures { GivesAt (λ x. (x.0, x.1, x.2.now)) result
        (section_at D.contents_at offset last bytes.now) }
{
    let (id, inner, rest) = match header(last, bytes) {
        Ok(read) => read,
        Err(PartFault::Memory) => return Err(ReadFault::Memory),
        Err(PartFault::Malformed) => return Err(ReadFault::Grammar { place: offset }),
    };
    let start = offset + (bytes.len() - rest.len() - inner.len());
    let found = D::contents(alloc, offset, start, id, inner)?;
    Ok((id, found, rest))
}

/// Sections, which are all of the bytes, from the offset `start` on.
fn sections<D: SectionItem>(alloc: Global, start: usize, bytes: &[u8]) -> Result<Seq<D>, ReadFault>
    requires { start + length bytes.now < 2 ^ 64 }
    ensures { GivesAt (λ x. x) result (sections_at D.contents_at
        (length bytes.now) start 0 bytes.now) }
{
    let mut defs = Seq::new(alloc);
    let mut last = 0;
    let mut rest = bytes;
    while !rest.is_empty() {
        let offset = start + (bytes.len() - rest.len());
        let (id, found, after) = section::<D>(alloc, offset, last, rest)?;
        defs.append(found)?;
        last = id;
        rest = after;
    }
    Ok(defs)
}

/// A component at the offset `start`. A wrong preamble is reported at `offset`.
#[tactic(auto, unfolding(crate::specs::SectionReaders::component_at))]
pub(crate) fn component<D: SectionItem>(
    alloc: Global,
    offset: usize,
    start: usize,
    bytes: &[u8],
) -> Result<Seq<D>, ReadFault>
    requires { start + length bytes.now < 2 ^ 64 }
    ensures { GivesAt (λ x. x) result (component_at D.contents_at offset start bytes.now) }
{
    if !bytes.starts_with(&PREAMBLE) {
        return Err(ReadFault::Grammar { place: offset });
    }
    let (_, body) = bytes.split_at(8);
    sections::<D>(alloc, start + 8, body)
}
