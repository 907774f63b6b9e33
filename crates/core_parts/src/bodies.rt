//! The bodies of functions, and where the instructions of a body begin.

ghost use Rattle.std.specs.Prelude.{◌≡◌, ◌≤◌, length, map, IfOk, IfSome, option_map};
ghost use Rattle.core_sections.specs.Numbers.{bytes_at};
ghost use Rattle.core_sections.specs.Reading.{items_at};
ghost use Rattle.core_parts.specs.Functions.{is_short_type, after_type, after_run, after_runs};
ghost use Rattle.core_parts.specs.Functions.{bodies_of, instructions_of};

use crate::numbers::{read_below, read_byte, read_number};
use core_sections::read_bytes;
use std::alloc::{AllocError, Global};

/// So many bodies. No memory is reserved for them before they are read.
fn read_bodies(
    alloc: Global,
    count: u32,
    bytes: &[u8],
) -> Result<Option<(Vec<&[u8]>, &[u8])>, AllocError>
    ensures { IfOk result (λ o. option_map (λ x. (map (λ b. b.now) x.0.items, x.1.now)) o
        ≡ items_at bytes_at count bytes.now) }
{
    let mut bodies = Vec::new(alloc);
    let mut rest = bytes;
    for _ in 0..count {
        let Some((body, after)) = read_bytes(rest) else {
            return Ok(None);
        };
        bodies.push(body)?;
        rest = after;
    }
    Ok(Some((bodies, rest)))
}

/// The bodies of the functions in a section of code with these contents, without their sizes, if it can be read.
#[tactic(auto, unfolding(core_sections::specs::Reading::all_of, core_sections::specs::Reading::vec_at))]
pub fn function_bodies(alloc: Global, contents: &[u8]) -> Result<Option<Vec<&[u8]>>, AllocError>
    ensures { IfOk result (λ o. option_map (λ v. map (λ b. b.now) v.items) o
        ≡ bodies_of contents.now) }
{
    let Some((count, rest)) = read_number(contents) else {
        return Ok(None);
    };
    let Some((bodies, rest)) = read_bodies(alloc, count, rest)? else {
        return Ok(None);
    };
    if rest.is_empty() {
        Ok(Some(bodies))
    } else {
        Ok(None)
    }
}

fn is_short_type(byte: u8) -> bool
    ensures { result ≡ is_short_type byte }
{
    (0x69 <= byte && byte <= 0x74) || (0x7b <= byte && byte <= 0x7f)
}

/// What follows a value type.
#[tactic(auto, unfolding(crate::specs::Functions::after_type))]
pub(crate) fn skip_type(bytes: &[u8]) -> Option<&[u8]>
    ensures value { option_map (λ x. x.now) result ≡ after_type bytes.now }
    ensures shorter { IfSome result (λ x. length x.now ≤ length bytes.now) }
{
    let (byte, rest) = read_byte(bytes)?;
    if byte == 0x63 || byte == 0x64 {
        return Some(read_below(1 << 35, rest)?.1);
    }
    if is_short_type(byte) {
        Some(rest)
    } else {
        None
    }
}

/// What follows an entry of locals.
#[tactic(auto, unfolding(crate::specs::Functions::after_run))]
fn skip_run(bytes: &[u8]) -> Option<&[u8]>
    ensures value { option_map (λ x. x.now) result ≡ after_run bytes.now }
    ensures shorter { IfSome result (λ x. length x.now ≤ length bytes.now) }
{
    let (_, rest) = read_number(bytes)?;
    skip_type(rest)
}

/// What follows so many entries of locals.
fn skip_runs(count: u32, bytes: &[u8]) -> Option<&[u8]>
    ensures value { option_map (λ x. x.now) result ≡ after_runs count bytes.now }
    ensures shorter { IfSome result (λ x. length x.now ≤ length bytes.now) }
{
    let mut rest = bytes;
    for _ in 0..count {
        rest = skip_run(rest)?;
    }
    Some(rest)
}

/// The instructions of a body, with their end, if its locals can be read.
#[tactic(auto, unfolding(crate::specs::Functions::instructions_of))]
pub fn instructions_of(body: &[u8]) -> Option<&[u8]>
    ensures value { option_map (λ x. x.now) result ≡ instructions_of body.now }
    ensures shorter { IfSome result (λ x. length x.now ≤ length body.now) }
{
    let (count, rest) = read_number(body)?;
    skip_runs(count, rest)
}
