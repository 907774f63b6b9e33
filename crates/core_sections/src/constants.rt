//! Constant expressions: where each ends.

ghost use Rattle.std.specs.Prelude.{◌≡◌};
ghost use Rattle.core_sections.specs.Constants.{after_count, is_signed, after_signed, after_vector, after_instruction, after_constant};
ghost use Rattle.core_sections.specs.Reading.{Gives};

use crate::contents::{read_byte, read_heap, read_index, span_of};
use crate::numbers::read_below;
use crate::reading::ReadFault;

/// The bytes after so many bytes.
fn skip(count: usize, bytes: &[u8]) -> Result<&[u8], ReadFault>
    ensures { Gives (λ x. x.now) result (after_count count bytes.now) }
{
    if bytes.len() < count {
        return Err(ReadFault::Malformed);
    }
    Ok(&bytes[count..])
}

/// Whether a signed number, by its bits and their span, is below this half of its range, and no less than
/// its negative.
fn is_signed(half: u128, bits: u128, span: u128) -> bool
    ensures { result ≡ is_signed half bits span }
{
    if bits < span / 2 {
        bits < half
    } else {
        span.saturating_sub(bits) <= half
    }
}

fn skip_signed(half: u128, limit: u128, bytes: &[u8]) -> Result<&[u8], ReadFault>
    ensures { Gives (λ x. x.now) result (after_signed half limit bytes.now) }
{
    let Some((bits, rest)) = read_below(limit, bytes) else {
        return Err(ReadFault::Malformed);
    };
    if !is_signed(half, bits, span_of(bytes.len() - rest.len())) {
        return Err(ReadFault::Malformed);
    }
    Ok(rest)
}

/// The bytes after a constant of 128 bits.
fn skip_vector(bytes: &[u8]) -> Result<&[u8], ReadFault>
    ensures { Gives (λ x. x.now) result (after_vector bytes.now) }
{
    let (number, rest) = read_index(bytes)?;
    if number != 12 {
        return Err(ReadFault::Malformed);
    }
    skip(16, rest)
}

/// The bytes after an instruction, whose first byte was read.
fn skip_instruction(byte: u8, bytes: &[u8]) -> Result<&[u8], ReadFault>
    ensures { Gives (λ x. x.now) result (after_instruction byte bytes.now) }
{
    match byte {
        0x41 => skip_signed(1 << 31, 1 << 35, bytes),
        0x42 => skip_signed(1 << 63, 1 << 70, bytes),
        0x43 => skip(4, bytes),
        0x44 => skip(8, bytes),
        0xfd => skip_vector(bytes),
        0xd0 => Ok(read_heap(bytes)?.1),
        0xd2 | 0x23 => Ok(read_index(bytes)?.1),
        0x6a..=0x6c | 0x7c..=0x7e => Ok(bytes),
        _ => Err(ReadFault::Malformed),
    }
}

/// The bytes after a constant expression.
pub(crate) fn skip_constant(bytes: &[u8]) -> Result<&[u8], ReadFault>
    ensures { Gives (λ x. x.now) result (after_constant bytes.now) }
{
    let mut rest = bytes;
    for _ in 0..bytes.len() {
        let (byte, after) = read_byte(rest)?;
        if byte == 0x0b {
            return Ok(after);
        }
        rest = skip_instruction(byte, after)?;
    }
    Err(ReadFault::Malformed)
}
