//! Numbers, names and lists in an output.

ghost use Rattle.std.specs.Prelude.{if◌then◌else◌, ◌≡◌, ◌+◌, ◌<◌, ◌≤◌, ◌^◌, ◌++◌, length, List, ℕ};
ghost use Rattle.byte_encoding.specs.Encoding.{leb128, leb, signed_leb, raw, octet, number as a_number, quantity, each, listed, named, optional, sized, Encoding, Fits, ◌⊕◌};
ghost use Rattle.measured_bytes.specs.Outputs.{Puts, capped, nothing_put};

use crate::output::Output;
use byte_encoding::counted;
use comp_lists::{Seq, Text};

/// Writes bytes as they are.
pub fn put_bytes(out: &mut Output, bytes: &[u8])
    ensures { Puts out.old out.new (raw bytes.now) }
{
    out.put_bytes(bytes);
}

/// Writes a number in groups of seven bits, the last of them below `end`.
fn put_groups(out: &mut Output, number: u32, end: u32)
    requires { (64 ≤ end) × (end ≤ 128) }
    ensures { Puts out.old out.new (raw (leb128 end number)) }
{
    let mut rest = number;
    while rest >= end {
        put_bytes(out, &[(128 + rest % 128) as u8]);
        rest /= 128;
    }
    put_bytes(out, &[rest as u8]);
}

/// Writes an index.
pub fn put_index(out: &mut Output, index: u32)
    ensures { Puts out.old out.new (a_number index) }
{
    put_groups(out, index, 128);
}

/// Writes a type index where a primitive type, which is a negative number, is possible.
pub fn put_type_index(out: &mut Output, index: u32)
    ensures { Puts out.old out.new (raw (signed_leb index)) }
{
    put_groups(out, index, 64);
}

/// Writes a count or a size of 32 bits.
fn put_within(out: &mut Output, count: u32)
    ensures { (n : ℕ) → count ≡ capped n → Puts out.old out.new (quantity n) }
{
    put_index(out, count);
}

/// Writes a count or a size, given as 128 bits hold it.
fn put_quantity(out: &mut Output, count: u128)
    ensures { (n : ℕ) → count ≡ capped n → Puts out.old out.new (quantity n) }
{
    match counted(count) {
        Ok(count) => put_within(out, count),
        Err(excess) => out.put_excess(excess),
    }
}

/// Writes how many items a list has.
pub fn put_count<T>(out: &mut Output, items: &[T])
    ensures { Puts out.old out.new (quantity (length items.now)) }
{
    put_quantity(out, items.len() as u128);
}

/// Writes bytes after their count.
pub fn put_blob(out: &mut Output, bytes: &[u8])
    ensures { Puts out.old out.new (named bytes.now) }
{
    put_count(out, bytes);
    put_bytes(out, bytes);
}

/// A value that is written one way.
pub trait Emit {
    ghost encoding: { Self → Encoding };

    /// Writes the value.
    fn emit(&self, out: &mut Output)
        ensures { Puts out.old out.new (encoding self.now) };
}

/// Writes what was measured, where there is no room for it; else the value.
fn put_again<T: Emit>(out: &mut Output, measured: &Output, value: &T)
    requires { Puts (nothing_put 0) measured.now (T.encoding value.now) }
    ensures { Puts out.old out.new (T.encoding value.now) }
{
    if out.is_full() {
        out.put_measured(measured);
    } else {
        value.emit(out);
    }
}

/// Writes the size of a value, and the value. To learn the size, the value is measured; then an
/// output that only measures takes it from there, so that it passes over each value once, however
/// deep sizes are nested.
pub fn put_sized<T: Emit>(out: &mut Output, value: &T)
    ensures { Puts out.old out.new (sized (T.encoding value.now)) }
{
    let mut measured = Output::new(out.allocator());
    value.emit(&mut measured);
    put_quantity(out, measured.size());
    put_again(out, &measured, value);
}

/// Writes values one after the other, without their count.
pub fn put_each<T: Emit>(out: &mut Output, items: &[T])
    ensures { Puts out.old out.new (each T.encoding items.now) }
{
    for item in items {
        item.emit(out);
    }
}

/// Writes the count of values, and the values.
fn put_list<T: Emit>(out: &mut Output, items: &[T])
    ensures { Puts out.old out.new (listed T.encoding items.now) }
{
    put_count(out, items);
    put_each(out, items);
}

impl Emit for u32 {
    ghost encoding = { a_number };

    fn emit(&self, out: &mut Output) {
        put_index(out, *self);
    }
}

impl<T: Emit> Emit for Seq<T> {
    ghost encoding = { listed T.encoding };

    fn emit(&self, out: &mut Output) {
        put_list(out, self.as_slice());
    }
}

/// Writes a byte that says what follows, and what follows.
pub fn put_tagged<T: Emit>(out: &mut Output, tag: u8, x: &T)
    ensures { Puts out.old out.new (octet tag ⊕ T.encoding x.now) }
{
    put_bytes(out, &[tag]);
    x.emit(out);
}

impl<T: Emit> Emit for Option<T> {
    ghost encoding = { optional T.encoding };

    fn emit(&self, out: &mut Output) {
        match self {
            None => put_bytes(out, &[0]),
            Some(x) => put_tagged(out, 1, x),
        }
    }
}

impl Emit for Text {
    ghost encoding = { named };

    fn emit(&self, out: &mut Output) {
        put_blob(out, self.as_str().as_bytes());
    }
}
