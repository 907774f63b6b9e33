//! The sections of a module with their offsets, and their order.

ghost use Rattle.std.specs.Prelude.{◌≡◌, Ok, map, IfOk, option_map};
ghost use Rattle.core_sections.specs.Sections.{view, body_view, pieces_of};
ghost use Rattle.adapter_fitting.specs.Places.{placed_view, placed, bytes_in, has_id, first, rank};
ghost use Rattle.adapter_fitting.specs.Places.{next_rank, misplaced};

use core_sections::{Content, Section};
use std::alloc::{AllocError, Global};

/// A section, and its offset in the module.
#[derive(Clone, Copy)]
pub(crate) struct PlacedSection<'a> {
    pub(crate) place: usize,
    pub(crate) section: Section<'a>,
}

/// How many bytes the preamble has.
const PREAMBLE: usize = 8;

/// The sections of a module with their offsets.
#[tactic(auto, using(core_sections::proofs::Offsets::all_before))]
pub(crate) fn placed_sections<'a>(
    alloc: Global,
    bytes: &[u8],
    sections: &[Section<'a>],
) -> Result<Vec<PlacedSection<'a>>, AllocError>
    requires { pieces_of bytes.now ≡ Ok (map view sections.now) }
    ensures { IfOk result (λ v. map placed_view v.items ≡ placed 8 (map view sections.now)) }
{
    let mut all = Vec::new(alloc);
    let mut place = PREAMBLE;
    for section in sections {
        all.push(PlacedSection {
            place,
            section: *section,
        })?;
        place += section.whole.len();
    }
    Ok(all)
}

/// What a section holds: of a custom one what follows its name.
pub(crate) fn bytes_in<'a>(content: Content<'a>) -> &'a [u8]
    ensures { result.now ≡ bytes_in (body_view content.entry) }
{
    match content {
        Content::Custom { bytes, .. } => bytes,
        Content::Coded { bytes, .. } => bytes,
    }
}

/// Whether a section has this id.
pub(crate) fn has_id(id: u8, content: Content<'_>) -> bool
    ensures { result ≡ has_id id (body_view content.entry) }
{
    match content {
        Content::Custom { .. } => false,
        Content::Coded { id: own, .. } => own == id,
    }
}

/// The first section with this id.
pub(crate) fn first<'a>(id: u8, sections: &[PlacedSection<'a>]) -> Option<PlacedSection<'a>>
    ensures { option_map placed_view result ≡ first id (map placed_view sections.now) }
{
    for section in sections {
        if has_id(id, section.section.content) {
            return Some(*section);
        }
    }
    None
}

/// The place of a section in the order of sections, and 0 of an unknown one.
fn rank(id: u8) -> u8
    ensures { result ≡ rank id }
{
    if id < 6 {
        id
    } else if id == 13 {
        6
    } else if id < 10 {
        id + 1
    } else if id == 12 {
        11
    } else if id < 12 {
        id + 2
    } else {
        0
    }
}

/// The rank of the last section, after this one, where that is in order.
fn next_rank(last: u8, content: Content<'_>) -> Option<u8>
    ensures { result ≡ next_rank last (body_view content.entry) }
{
    match content {
        Content::Custom { .. } => Some(last),
        Content::Coded { id, .. } => {
            if last < rank(id) {
                Some(rank(id))
            } else {
                None
            }
        }
    }
}

/// The offset of the first section that is not in order.
pub(crate) fn misplaced(sections: &[PlacedSection<'_>]) -> Option<usize>
    ensures { result ≡ misplaced 0 (map placed_view sections.now) }
{
    let mut last = 0;
    for section in sections {
        match next_rank(last, section.section.content) {
            None => return Some(section.place),
            Some(rank) => last = rank,
        }
    }
    None
}
