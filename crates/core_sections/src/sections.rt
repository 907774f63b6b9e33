//! The sections of a module.

ghost use Rattle.std.specs.Prelude.{◌≡◌, ◌<◌, length, map, IfSome, option_map};
ghost use Rattle.core_sections.specs.Sections.{Gives, view, section_at, pieces_of};

use crate::fault::SectionFault;
use crate::numbers::{read_bytes, read_name};
use std::alloc::Global;

pub(crate) const PREAMBLE: [u8; 8] = [0, 0x61, 0x73, 0x6d, 1, 0, 0, 0];

/// What a section holds.
#[derive(Clone, Copy)]
pub enum Content<'a> {
    Custom { name: &'a str, bytes: &'a [u8] },
    Coded { id: u8, bytes: &'a [u8] },
}

/// A section as it is encoded in a module.
#[derive(Clone, Copy)]
pub struct Section<'a> {
    /// All its bytes.
    pub whole: &'a [u8],
    pub content: Content<'a>,
}

/// The section at the front, and what follows it.
#[tactic(auto, unfolding(crate::specs::Sections::section_at))]
pub(crate) fn read_section(bytes: &[u8]) -> Option<(Section<'_>, &[u8])>
    ensures value { option_map (λ x. (view x.0, x.1.now)) result ≡ section_at bytes.now }
    ensures shorter { IfSome result (λ x. length x.1.now < length bytes.now) }
{
    let (id, rest) = bytes.split_first()?;
    let (contents, rest) = read_bytes(rest)?;
    let content = if *id == 0 {
        let (name, bytes) = read_name(contents)?;
        Content::Custom { name, bytes }
    } else {
        Content::Coded {
            id: *id,
            bytes: contents,
        }
    };
    let whole = &bytes[..bytes.len() - rest.len()];
    Some((Section { whole, content }, rest))
}

/// The sections of a module in order.
#[tactic(auto, unfolding(crate::specs::Sections::pieces_of, crate::specs::Sections::pieces_from))]
pub fn sections_of(alloc: Global, bytes: &[u8]) -> Result<Vec<Section<'_>>, SectionFault>
    ensures { Gives (λ v. map view v.items) result (pieces_of bytes.now) }
{
    if !bytes.starts_with(&PREAMBLE) {
        return Err(SectionFault::NotModule);
    }
    let mut rest = &bytes[PREAMBLE.len()..];
    let mut sections = Vec::new(alloc);
    while !rest.is_empty() {
        let offset = bytes.len() - rest.len();
        let Some((section, after)) = read_section(rest) else {
            return Err(SectionFault::Section { place: offset });
        };
        sections.push(section)?;
        rest = after;
    }
    Ok(sections)
}
