//! Signed numbers, and what has its size in front, at the end of a buffer.
#![tactic(auto, using(byte_encoding::proofs::Pieces::writing))]

ghost use Rattle.std.specs.Prelude.{◌≡◌, ◌<◌, ◌++◌, length, OnOk};
ghost use Rattle.byte_encoding.specs.Encoding.{raw, octet, named, sized, Encoding, ◌⊕◌};
ghost use Rattle.byte_encoding.specs.Written.{Writes};
ghost use Rattle.core_bytes.specs.Signed.{low_seven, signed_within, signed};
ghost use Rattle.core_bytes.specs.Modules.{with_id};

use byte_encoding::{BuildFault, Encode, encoded, put_bytes, put_count};
use std::alloc::AllocError;

/// The low seven bits of a number, or of -1 less it.
fn low_seven(negative: bool, number: u64) -> u8
    ensures value { result ≡ low_seven negative number }
    ensures small { result < 128 }
{
    let low = (number % 128) as u8;
    if negative { 127 - low } else { low }
}

/// Writes a number that is not negative, or -1 less it, in groups of seven bits.
#[tactic(auto, using(crate::proofs::Signs::start, crate::proofs::Signs::step, crate::proofs::Signs::end))]
fn put_signed_groups(out: &mut Vec<u8>, negative: bool, number: u64) -> Result<(), AllocError>
    ensures { OnOk result (out.new.items ≡ out.old.items ++ signed_within negative number) }
{
    let mut rest = number;
    while rest >= 64 {
        out.push(128 + low_seven(negative, rest))?;
        rest /= 128;
    }
    out.push(low_seven(negative, rest))?;
    Ok(())
}

/// Writes a signed number, the shortest way.
pub(crate) fn put_signed(out: &mut Vec<u8>, number: i64) -> Result<(), BuildFault>
    ensures { Writes out.old.items out.new.items result (raw (signed number)) }
{
    if number < 0 {
        put_signed_groups(out, true, (-1 - number) as u64)?;
    } else {
        put_signed_groups(out, false, number as u64)?;
    }
    Ok(())
}

/// Writes bytes after their count.
pub(crate) fn put_blob(out: &mut Vec<u8>, bytes: &[u8]) -> Result<(), BuildFault>
    ensures { Writes out.old.items out.new.items result (named bytes.now) }
{
    put_count(out, bytes.len())?;
    put_bytes(out, bytes)?;
    Ok(())
}

/// Writes a value after an id and its size.
pub(crate) fn put_with_id<T: Encode>(out: &mut Vec<u8>, id: u8, value: &T) -> Result<(), BuildFault>
    ensures { Writes out.old.items out.new.items result (with_id id (T.encoding value.now)) }
{
    let bytes = encoded(*out.allocator(), value)?;
    put_bytes(out, &[id])?;
    put_blob(out, bytes.as_slice())?;
    Ok(())
}
