//! Numbers, names, lists and options, each from the front of bytes.
//!
//! Core standard, binary format: values. Component model, binary format: `<T>?`.

ghost use Rattle.std.specs.Prelude.{◌≡◌, List, ℕ, length};
ghost use Rattle.part_readers.specs.Reading.{Gives, Read, byte_at, digits_at, number_at, type_index_at, expect, sized_at, name_at, list_at, items_at, option_at};

use crate::fault::PartFault;
use comp_lists::{Seq, Text};
use std::alloc::Global;

pub fn byte(bytes: &[u8]) -> Result<(u8, &[u8]), PartFault>
    ensures { Gives (λ x. (x.0, x.1.now)) result (byte_at bytes.now) }
{
    match bytes {
        [] => Err(PartFault::Malformed),
        [first, rest @ ..] => Ok((*first, rest)),
    }
}

#[tactic(auto, unfolding(crate::specs::Reading::expect))]
pub fn expect_byte(expected: u8, bytes: &[u8]) -> Result<&[u8], PartFault>
    ensures { Gives (λ x. x.now) result (expect expected bytes.now) }
{
    let (first, rest) = byte(bytes)?;
    if first != expected {
        return Err(PartFault::Malformed);
    }
    Ok(rest)
}

/// A number in at most `groups` groups of seven bits, as few as possible. The last is below `end`.
#[tactic(auto, unfolding(crate::specs::Reading::digits_at))]
fn digits(end: u8, groups: u8, bytes: &[u8]) -> Result<(u32, &[u8]), PartFault>
    ensures { Gives (λ x. (x.0, x.1.now)) result (digits_at end groups bytes.now) }
{
    if groups == 0 {
        return Err(PartFault::Malformed);
    }
    let (first, rest) = byte(bytes)?;
    if first < end {
        return Ok((u32::from(first), rest));
    }
    if first < 128 {
        return Err(PartFault::Malformed);
    }
    let (high, rest) = digits(end, groups - 1, rest)?;
    if high >= 0x200_0000 {
        return Err(PartFault::Malformed);
    }
    let number = u32::from(first - 128) + 128 * high;
    if number < u32::from(end) {
        return Err(PartFault::Malformed);
    }
    Ok((number, rest))
}

#[tactic(auto, unfolding(crate::specs::Reading::number_at))]
pub fn number(bytes: &[u8]) -> Result<(u32, &[u8]), PartFault>
    ensures { Gives (λ x. (x.0, x.1.now)) result (number_at bytes.now) }
{
    digits(128, 5, bytes)
}

/// A type index where a primitive type, which is a negative number, is possible too.
#[tactic(auto, unfolding(crate::specs::Reading::type_index_at))]
pub fn type_index(bytes: &[u8]) -> Result<(u32, &[u8]), PartFault>
    ensures { Gives (λ x. (x.0, x.1.now)) result (type_index_at bytes.now) }
{
    digits(64, 5, bytes)
}

/// Bytes with their size in front.
#[tactic(auto, unfolding(crate::specs::Reading::sized_at))]
pub fn sized(bytes: &[u8]) -> Result<(&[u8], &[u8]), PartFault>
    ensures { Gives (λ x. (x.0.now, x.1.now)) result (sized_at bytes.now) }
{
    let (size, rest) = number(bytes)?;
    let size = size as usize;
    if rest.len() < size {
        return Err(PartFault::Malformed);
    }
    Ok(rest.split_at(size))
}

#[tactic(auto, unfolding(crate::specs::Reading::name_at))]
pub fn name(alloc: Global, bytes: &[u8]) -> Result<(Text, &[u8]), PartFault>
    ensures { Gives (λ x. (x.0, x.1.now)) result (name_at bytes.now) }
{
    let (name, rest) = sized(bytes)?;
    let Ok(name) = str::from_utf8(name) else {
        return Err(PartFault::Malformed);
    };
    Ok((Text::from_str(alloc, name)?, rest))
}

/// A value that can be read from the front of bytes.
pub trait Decode: Sized {
    ghost at: { List ℕ → Read Self };

    fn decode(alloc: Global, bytes: &[u8]) -> Result<(Self, &[u8]), PartFault>
        ensures { Gives (λ x. (x.0, x.1.now)) result (at bytes.now) };
}

/// Items one after another. Nothing is allocated by their count.
#[tactic(auto, unfolding(crate::specs::Reading::items_at))]
fn items<T: Decode + Drop>(
    alloc: Global,
    count: u32,
    bytes: &[u8],
) -> Result<(Seq<T>, &[u8]), PartFault>
    ensures { Gives (λ x. (x.0, x.1.now)) result (items_at T.at count bytes.now) }
{
    let mut items = Seq::new(alloc);
    let mut rest = bytes;
    for _ in 0..count {
        let (item, after) = T::decode(alloc, rest)?;
        items.push(item)?;
        rest = after;
    }
    Ok((items, rest))
}

#[tactic(auto, unfolding(crate::specs::Reading::list_at))]
pub fn list<T: Decode + Drop>(alloc: Global, bytes: &[u8]) -> Result<(Seq<T>, &[u8]), PartFault>
    ensures { Gives (λ x. (x.0, x.1.now)) result (list_at T.at bytes.now) }
{
    let (count, rest) = number(bytes)?;
    items(alloc, count, rest)
}

#[tactic(auto, unfolding(crate::specs::Reading::option_at))]
pub fn option<T: Decode>(alloc: Global, bytes: &[u8]) -> Result<(Option<T>, &[u8]), PartFault>
    ensures { Gives (λ x. (x.0, x.1.now)) result (option_at T.at bytes.now) }
{
    let (tag, rest) = byte(bytes)?;
    match tag {
        0 => Ok((None, rest)),
        1 => {
            let (value, rest) = T::decode(alloc, rest)?;
            Ok((Some(value), rest))
        }
        _ => Err(PartFault::Malformed),
    }
}

impl Decode for u32 {
    ghost at = { number_at };

    fn decode(_alloc: Global, bytes: &[u8]) -> Result<(u32, &[u8]), PartFault> {
        number(bytes)
    }
}

impl Decode for Text {
    ghost at = { name_at };

    fn decode(alloc: Global, bytes: &[u8]) -> Result<(Text, &[u8]), PartFault> {
        name(alloc, bytes)
    }
}
