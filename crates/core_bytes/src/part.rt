//! The parts of a section of names, with their bytes unchanged.
//!
//! Core standard, appendix, custom sections: name section.

ghost use Rattle.std.specs.Prelude.{◌≡◌, ◌<◌, length, map, IfSome, IfOk, option_map};
ghost use Rattle.core_bytes.specs.Renaming.{part_view, part_at, parts_of};

use core_sections::read_bytes;
use std::alloc::{AllocError, Global};

/// A part of a section of names: its id, and all its bytes.
#[derive(Clone, Copy)]
pub(crate) struct Part<'a> {
    pub(crate) id: u8,
    pub(crate) whole: &'a [u8],
}

/// The part at the front, and what follows it.
#[tactic(auto, unfolding(crate::specs::Renaming::part_at))]
fn read_part(bytes: &[u8]) -> Option<(Part<'_>, &[u8])>
    ensures value { option_map (λ x. (part_view x.0, x.1.now)) result ≡ part_at bytes.now }
    ensures shorter { IfSome result (λ x. length x.1.now < length bytes.now) }
{
    let (id, rest) = bytes.split_first()?;
    let (_, rest) = read_bytes(rest)?;
    let whole = &bytes[..bytes.len() - rest.len()];
    Some((Part { id: *id, whole }, rest))
}

/// The parts of these bytes in order, if they are such.
pub(crate) fn read_parts(alloc: Global, bytes: &[u8]) -> Result<Option<Vec<Part<'_>>>, AllocError>
    ensures { IfOk result (λ o. option_map (λ v. map part_view v.items) o ≡ parts_of bytes.now) }
{
    let mut rest = bytes;
    let mut parts = Vec::new(alloc);
    while !rest.is_empty() {
        let Some((part, after)) = read_part(rest) else {
            return Ok(None);
        };
        parts.push(part)?;
        rest = after;
    }
    Ok(Some(parts))
}
