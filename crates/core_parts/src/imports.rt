//! Imports by their parts.

ghost use Rattle.std.specs.Prelude.{◌≡◌, ◌≤◌, ◌^◌, length, map, IfOk, IfSome, option_map};
ghost use Rattle.core_sections.specs.Reading.{items_at};
ghost use Rattle.core_parts.specs.Imports.{parts_view, after_number, after_bounds, after_limits, after_byte};
ghost use Rattle.core_parts.specs.Imports.{after_kind, after_described, parts_at, parts_of};

use crate::bodies::skip_type;
use crate::numbers::{read_below, read_byte, read_number};
use core_sections::read_bytes;
use std::alloc::{AllocError, Global};

/// An import: its two names, and what is imported, as it is encoded.
#[derive(Clone, Copy)]
pub struct ImportParts<'a> {
    pub module: &'a [u8],
    pub field: &'a [u8],
    pub described: &'a [u8],
}

/// What follows an index.
fn skip_index(bytes: &[u8]) -> Option<&[u8]>
    ensures value { option_map (λ x. x.now) result ≡ after_number (2 ^ 32) bytes.now }
    ensures shorter { IfSome result (λ x. length x.now ≤ length bytes.now) }
{
    let (_, rest) = read_number(bytes)?;
    Some(rest)
}

/// What follows a bound of limits.
fn skip_bound(bytes: &[u8]) -> Option<&[u8]>
    ensures value { option_map (λ x. x.now) result ≡ after_number (2 ^ 64) bytes.now }
    ensures shorter { IfSome result (λ x. length x.now ≤ length bytes.now) }
{
    let (_, rest) = read_below(1 << 64, bytes)?;
    Some(rest)
}

fn skip_byte(bytes: &[u8]) -> Option<&[u8]>
    ensures value { option_map (λ x. x.now) result ≡ after_byte bytes.now }
    ensures shorter { IfSome result (λ x. length x.now ≤ length bytes.now) }
{
    let (_, rest) = read_byte(bytes)?;
    Some(rest)
}

/// What follows bounds, of which there are two where the flags are odd.
fn skip_bounds(flags: u8, bytes: &[u8]) -> Option<&[u8]>
    ensures value { option_map (λ x. x.now) result ≡ after_bounds flags bytes.now }
    ensures shorter { IfSome result (λ x. length x.now ≤ length bytes.now) }
{
    if flags == 1 || flags == 3 || flags == 5 || flags == 7 {
        let rest = skip_bound(bytes)?;
        skip_bound(rest)
    } else {
        skip_bound(bytes)
    }
}

/// What follows limits.
#[tactic(auto, unfolding(crate::specs::Imports::after_limits))]
fn skip_limits(bytes: &[u8]) -> Option<&[u8]>
    ensures value { option_map (λ x. x.now) result ≡ after_limits bytes.now }
    ensures shorter { IfSome result (λ x. length x.now ≤ length bytes.now) }
{
    let (flags, rest) = read_byte(bytes)?;
    skip_bounds(flags, rest)
}

/// What follows what is imported, after the byte of its kind.
fn skip_kind(kind: u8, bytes: &[u8]) -> Option<&[u8]>
    ensures value { option_map (λ x. x.now) result ≡ after_kind kind bytes.now }
    ensures shorter { IfSome result (λ x. length x.now ≤ length bytes.now) }
{
    match kind {
        0 => skip_index(bytes),
        1 => skip_limits(skip_type(bytes)?),
        2 => skip_limits(bytes),
        3 => skip_byte(skip_type(bytes)?),
        4 => skip_index(skip_byte(bytes)?),
        _ => None,
    }
}

/// What follows what is imported.
#[tactic(auto, unfolding(crate::specs::Imports::after_described))]
fn skip_described(bytes: &[u8]) -> Option<&[u8]>
    ensures value { option_map (λ x. x.now) result ≡ after_described bytes.now }
    ensures shorter { IfSome result (λ x. length x.now ≤ length bytes.now) }
{
    let (kind, rest) = read_byte(bytes)?;
    skip_kind(kind, rest)
}

#[tactic(auto, unfolding(crate::specs::Imports::parts_at))]
fn read_parts(bytes: &[u8]) -> Option<(ImportParts<'_>, &[u8])>
    ensures { option_map (λ x. (parts_view x.0, x.1.now)) result ≡ parts_at bytes.now }
{
    let (module, rest) = read_bytes(bytes)?;
    let (field, rest) = read_bytes(rest)?;
    let after = skip_described(rest)?;
    let described = &rest[..rest.len() - after.len()];
    Some((
        ImportParts {
            module,
            field,
            described,
        },
        after,
    ))
}

/// So many of them. No memory is reserved for them before they are read.
fn read_all(
    alloc: Global,
    count: u32,
    bytes: &[u8],
) -> Result<Option<(Vec<ImportParts<'_>>, &[u8])>, AllocError>
    ensures { IfOk result (λ o. option_map (λ x. (map parts_view x.0.items, x.1.now)) o
        ≡ items_at parts_at count bytes.now) }
{
    let mut imports = Vec::new(alloc);
    let mut rest = bytes;
    for _ in 0..count {
        let Some((import, after)) = read_parts(rest) else {
            return Ok(None);
        };
        imports.push(import)?;
        rest = after;
    }
    Ok(Some((imports, rest)))
}

/// The imports in a section with these contents, by their parts, if it can be read.
///
/// Names are bytes here: whether they are UTF-8 is not looked at.
#[tactic(auto, unfolding(core_sections::specs::Reading::all_of, core_sections::specs::Reading::vec_at))]
pub fn import_parts(
    alloc: Global,
    contents: &[u8],
) -> Result<Option<Vec<ImportParts<'_>>>, AllocError>
    ensures { IfOk result (λ o. option_map (λ v. map parts_view v.items) o
        ≡ parts_of contents.now) }
{
    let Some((count, rest)) = read_number(contents) else {
        return Ok(None);
    };
    let Some((imports, rest)) = read_all(alloc, count, rest)? else {
        return Ok(None);
    };
    if rest.is_empty() {
        Ok(Some(imports))
    } else {
        Ok(None)
    }
}
