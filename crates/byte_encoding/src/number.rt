//! Numbers, names and lists at the end of a buffer.

ghost use Rattle.std.specs.Prelude.{if◌then◌else◌, ◌≡◌, ◌+◌, ◌<◌, ◌≤◌, ◌^◌, ◌++◌, length, IfOk, IfErr, OnOk, List, ℕ};
ghost use Rattle.byte_encoding.specs.Encoding.{leb128, leb, signed_leb, raw, octet, number as a_number, quantity, each, listed, named, optional, Encoding, Fits, ◌⊕◌};
ghost use Rattle.byte_encoding.specs.Written.{Writes, Refused};

use crate::fault::{BuildFault, counted};
use comp_lists::{Seq, Text};
use std::alloc::{AllocError, Global};

/// Writes a number in groups of seven bits, the last of them below `end`.
fn put_groups(out: &mut Vec<u8>, number: u32, end: u32) -> Result<(), AllocError>
    requires { (64 ≤ end) × (end ≤ 128) }
    ensures { OnOk result (out.new.items ≡ out.old.items ++ leb128 end number) }
{
    let mut rest = number;
    while rest >= end {
        out.push((128 + rest % 128) as u8)?;
        rest /= 128;
    }
    out.push(rest as u8)?;
    Ok(())
}

/// Writes an index.
pub fn put_index(out: &mut Vec<u8>, index: u32) -> Result<(), BuildFault>
    ensures { Writes out.old.items out.new.items result (a_number index) }
{
    put_groups(out, index, 128)?;
    Ok(())
}

/// Writes a type index where a primitive type, which is a negative number, is possible.
pub fn put_type_index(out: &mut Vec<u8>, index: u32) -> Result<(), BuildFault>
    ensures { Writes out.old.items out.new.items result (raw (signed_leb index)) }
{
    put_groups(out, index, 64)?;
    Ok(())
}

/// Writes a count or a size.
pub fn put_count(out: &mut Vec<u8>, len: usize) -> Result<(), BuildFault>
    ensures { Writes out.old.items out.new.items result (quantity len) }
{
    let len = counted(len as u128)?;
    put_groups(out, len, 128)?;
    Ok(())
}

/// Writes bytes as they are.
pub fn put_bytes(out: &mut Vec<u8>, bytes: &[u8]) -> Result<(), BuildFault>
    ensures { Writes out.old.items out.new.items result (raw bytes.now) }
{
    out.extend_from_slice(bytes)?;
    Ok(())
}

fn put_name(out: &mut Vec<u8>, text: &str) -> Result<(), BuildFault>
    ensures { Writes out.old.items out.new.items result (named text.now) }
{
    put_count(out, text.len())?;
    put_bytes(out, text.as_bytes())?;
    Ok(())
}

/// The byte of a flag.
pub fn byte_of_flag(set: bool) -> u8
    ensures { result ≡ (if set then 0x01 else 0x00) }
{
    if set { 0x01 } else { 0x00 }
}

/// A value that is written one way: a part of a definition, in the binary format of components.
pub trait Encode {
    ghost encoding: { Self → Encoding };

    /// Writes the value after the contents of a buffer. It fails with [`BuildFault::TooMany`] only
    /// where a count or a size in its encoding exceeds 2^32 - 1, and reports that one. After a failure
    /// the buffer is of no use.
    fn put(&self, out: &mut Vec<u8>) -> Result<(), BuildFault>
        ensures { Writes out.old.items out.new.items result (encoding self.now) };
}

/// The bytes of a value, as they are in its section. It fails with [`BuildFault::TooMany`] only
/// where a count or a size among them would exceed 2^32 - 1, and reports that one.
pub fn encoded<T: Encode>(alloc: Global, value: &T) -> Result<Vec<u8>, BuildFault>
    ensures ok { IfOk result (λ v. v.items ≡ (T.encoding value.now).bytes) }
    ensures fits { OnOk result (Fits (T.encoding value.now).counts) }
    ensures refused { IfErr result (Refused (T.encoding value.now).counts) }
{
    let mut out = Vec::new(alloc);
    value.put(&mut out)?;
    Ok(out)
}

/// Writes values one after the other, without their count.
pub fn put_each<T: Encode>(out: &mut Vec<u8>, items: &[T]) -> Result<(), BuildFault>
    ensures { Writes out.old.items out.new.items result (each T.encoding items.now) }
{
    for item in items {
        item.put(out)?;
    }
    Ok(())
}

impl Encode for u32 {
    ghost encoding = { a_number };

    fn put(&self, out: &mut Vec<u8>) -> Result<(), BuildFault> {
        put_index(out, *self)
    }
}

#[tactic(auto, using(crate::proofs::Pieces::writing))]
impl<T: Encode> Encode for Seq<T> {
    ghost encoding = { listed T.encoding };

    fn put(&self, out: &mut Vec<u8>) -> Result<(), BuildFault> {
        put_count(out, self.len())?;
        put_each(out, self.as_slice())?;
        Ok(())
    }
}

/// Writes a byte that says what follows, and what follows.
#[tactic(auto, using(crate::proofs::Pieces::writing))]
pub fn put_tagged<T: Encode>(out: &mut Vec<u8>, tag: u8, x: &T) -> Result<(), BuildFault>
    ensures { Writes out.old.items out.new.items result (octet tag ⊕ T.encoding x.now) }
{
    put_bytes(out, &[tag])?;
    x.put(out)?;
    Ok(())
}

impl<T: Encode> Encode for Option<T> {
    ghost encoding = { optional T.encoding };

    fn put(&self, out: &mut Vec<u8>) -> Result<(), BuildFault> {
        match self {
            None => put_bytes(out, &[0]),
            Some(x) => put_tagged(out, 1, x),
        }
    }
}

impl Encode for Text {
    ghost encoding = { named };

    fn put(&self, out: &mut Vec<u8>) -> Result<(), BuildFault> {
        put_name(out, self.as_str())
    }
}
