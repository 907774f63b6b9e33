//! The names of globals in a section of names.

ghost use Rattle.std.specs.Prelude.{◌≡◌, ◌<◌, length, map, IfSome, IfOk, option_map};
ghost use Rattle.core_sections.specs.Reading.{all_of, items_at};
ghost use Rattle.core_parts.specs.Names.{name_view, named_at, names_in, global_names_of};

use crate::numbers::read_number;
use core_sections::read_bytes;
use std::alloc::{AllocError, Global};

/// A name of the global with this index.
#[derive(Clone, Copy)]
pub struct GlobalName<'a> {
    pub index: u32,
    pub name: &'a [u8],
}

#[tactic(auto, unfolding(crate::specs::Names::named_at))]
fn read_name(bytes: &[u8]) -> Option<(GlobalName<'_>, &[u8])>
    ensures { option_map (λ x. (name_view x.0, x.1.now)) result ≡ named_at bytes.now }
{
    let (index, rest) = read_number(bytes)?;
    let (name, rest) = read_bytes(rest)?;
    Some((GlobalName { index, name }, rest))
}

/// So many names. No memory is reserved for them before they are read.
fn read_names(
    alloc: Global,
    count: u32,
    bytes: &[u8],
) -> Result<Option<(Vec<GlobalName<'_>>, &[u8])>, AllocError>
    ensures { IfOk result (λ o. option_map (λ x. (map name_view x.0.items, x.1.now)) o
        ≡ items_at named_at count bytes.now) }
{
    let mut names = Vec::new(alloc);
    let mut rest = bytes;
    for _ in 0..count {
        let Some((name, after)) = read_name(rest) else {
            return Ok(None);
        };
        names.push(name)?;
        rest = after;
    }
    Ok(Some((names, rest)))
}

/// A map of names, and nothing after it.
#[tactic(auto, unfolding(core_sections::specs::Reading::all_of, core_sections::specs::Reading::vec_at))]
fn read_map(alloc: Global, contents: &[u8]) -> Result<Option<Vec<GlobalName<'_>>>, AllocError>
    ensures { IfOk result (λ o. option_map (λ v. map name_view v.items) o
        ≡ all_of named_at contents.now) }
{
    let Some((count, rest)) = read_number(contents) else {
        return Ok(None);
    };
    let Some((names, rest)) = read_names(alloc, count, rest)? else {
        return Ok(None);
    };
    if rest.is_empty() {
        Ok(Some(names))
    } else {
        Ok(None)
    }
}

/// The names of globals that a part of this id holds.
fn names_in(
    alloc: Global,
    id: u8,
    contents: &[u8],
) -> Result<Option<Vec<GlobalName<'_>>>, AllocError>
    ensures { IfOk result (λ o. option_map (λ v. map name_view v.items) o
        ≡ names_in id contents.now) }
{
    if id == 7 {
        read_map(alloc, contents)
    } else {
        Ok(Some(Vec::new(alloc)))
    }
}

/// The names of globals in a section of names, if it can be read.
pub fn global_names(alloc: Global, bytes: &[u8]) -> Result<Option<Vec<GlobalName<'_>>>, AllocError>
    ensures { IfOk result (λ o. option_map (λ v. map name_view v.items) o
        ≡ global_names_of bytes.now) }
{
    let mut names = Vec::new(alloc);
    let mut rest = bytes;
    while let Some((id, after)) = rest.split_first() {
        let Some((contents, after)) = read_bytes(after) else {
            return Ok(None);
        };
        let Some(more) = names_in(alloc, *id, contents)? else {
            return Ok(None);
        };
        names.extend_from_slice(&more)?;
        rest = after;
    }
    Ok(Some(names))
}
