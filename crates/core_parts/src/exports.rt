//! The indices of exports.

ghost use Rattle.std.specs.Prelude.{◌≡◌, IfOk, option_map};
ghost use Rattle.core_sections.specs.Reading.{items_at};
ghost use Rattle.core_parts.specs.Functions.{index_at, indices_of};

use crate::numbers::{read_byte, read_number};
use core_sections::read_bytes;
use std::alloc::{AllocError, Global};

/// What an export is of: a kind, by its byte (0 is a function), and the index among the items of this kind.
#[derive(Clone, Copy, PartialEq, Eq)]
pub struct ExportedIndex {
    pub kind: u8,
    pub index: u32,
}

#[tactic(auto, unfolding(crate::specs::Functions::index_at))]
fn read_index(bytes: &[u8]) -> Option<(ExportedIndex, &[u8])>
    ensures { option_map (λ x. (x.0, x.1.now)) result ≡ index_at bytes.now }
{
    let (_, rest) = read_bytes(bytes)?;
    let (kind, rest) = read_byte(rest)?;
    let (index, rest) = read_number(rest)?;
    Some((ExportedIndex { kind, index }, rest))
}

/// So many of them. No memory is reserved for them before they are read.
fn read_indices(
    alloc: Global,
    count: u32,
    bytes: &[u8],
) -> Result<Option<(Vec<ExportedIndex>, &[u8])>, AllocError>
    ensures { IfOk result (λ o. option_map (λ x. (x.0.items, x.1.now)) o
        ≡ items_at index_at count bytes.now) }
{
    let mut indices = Vec::new(alloc);
    let mut rest = bytes;
    for _ in 0..count {
        let Some((index, after)) = read_index(rest) else {
            return Ok(None);
        };
        indices.push(index)?;
        rest = after;
    }
    Ok(Some((indices, rest)))
}

/// The kinds and indices of the exports in a section with these contents, if it can be read.
#[tactic(auto, unfolding(core_sections::specs::Reading::all_of, core_sections::specs::Reading::vec_at))]
pub fn exported_indices(
    alloc: Global,
    contents: &[u8],
) -> Result<Option<Vec<ExportedIndex>>, AllocError>
    ensures { IfOk result (λ o. option_map (λ v. v.items) o ≡ indices_of contents.now) }
{
    let Some((count, rest)) = read_number(contents) else {
        return Ok(None);
    };
    let Some((indices, rest)) = read_indices(alloc, count, rest)? else {
        return Ok(None);
    };
    if rest.is_empty() {
        Ok(Some(indices))
    } else {
        Ok(None)
    }
}
