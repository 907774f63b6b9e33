//! Active data segments.

ghost use Rattle.std.specs.Prelude.{◌≡◌};
ghost use Rattle.core_parts.specs.Segments.{one_is_active, is_active};

use crate::numbers::read_number;
use core_sections::read_bytes;

/// Whether one of so many segments is active.
fn one_is_active(count: u32, bytes: &[u8]) -> Option<bool>
    ensures { result ≡ one_is_active count bytes.now }
{
    let mut rest = bytes;
    for _ in 0..count {
        let (flag, after) = read_number(rest)?;
        match flag {
            0 | 2 => return Some(true),
            1 => rest = read_bytes(after)?.1,
            _ => return None,
        }
    }
    if rest.is_empty() { Some(false) } else { None }
}

/// Whether a section of data with these contents has an active segment, if it can be read up to the first one.
#[tactic(auto, unfolding(crate::specs::Segments::is_active))]
pub fn is_active(contents: &[u8]) -> Option<bool>
    ensures { result ≡ is_active contents.now }
{
    let (count, rest) = read_number(contents)?;
    one_is_active(count, rest)
}
