//! Values that are read from the front of bytes, and lists of them.

ghost use Rattle.std.specs.Prelude.{◌≡◌};
ghost use Rattle.core_sections.specs.Reading.{Gives, vec_at, items_at, all_of};

use crate::numbers::read_u32;
use comp_lists::Seq;
use std::alloc::{AllocError, AllocFailed, Global};

/// Why contents can't be read.
#[derive(Clone, Copy, Debug, PartialEq, Eq)]
pub(crate) enum ReadFault {
    Memory,
    Malformed,
}

impl From<AllocError> for ReadFault {
    ghost use Rattle.std.specs.Prelude.{◌≡◌};
    ghost use Rattle.core_sections.specs.declared.reading.ReadFault.TheVariants.{Memory};

    ghost from_gives = { λ _ e. e ≡ Memory };

    fn from(_e: AllocError) -> ReadFault {
        ReadFault::Memory
    }
}

impl<T: Drop> From<AllocFailed<T>> for ReadFault {
    ghost use Rattle.std.specs.Prelude.{◌≡◌};
    ghost use Rattle.core_sections.specs.declared.reading.ReadFault.TheVariants.{Memory};

    ghost from_gives = { λ _ e. e ≡ Memory };

    fn from(_e: AllocFailed<T>) -> ReadFault {
        ReadFault::Memory
    }
}

/// A kind of values that are read from the front of bytes.
pub(crate) trait Read {
    ghost use Rattle.std.specs.Prelude.{ℕ, List, Option};

    type Value: Drop;

    ghost at: { List ℕ → Option (Self.Value × List ℕ) };

    fn read(alloc: Global, bytes: &[u8]) -> Result<(Self::Value, &[u8]), ReadFault>
        ensures { Gives (λ x. (x.0, x.1.now)) result (at bytes.now) };
}

/// So many values. No memory is reserved for them before they are read.
fn read_items<T: Read>(
    alloc: Global,
    count: u32,
    bytes: &[u8],
) -> Result<(Seq<T::Value>, &[u8]), ReadFault>
    ensures { Gives (λ x. (x.0, x.1.now)) result (items_at T.at count bytes.now) }
{
    let mut items = Seq::new(alloc);
    let mut rest = bytes;
    for _ in 0..count {
        let (item, after) = T::read(alloc, rest)?;
        items.push(item)?;
        rest = after;
    }
    Ok((items, rest))
}

/// A count, and so many values.
#[tactic(auto, unfolding(crate::specs::Reading::vec_at))]
pub(crate) fn read_vec<T: Read>(
    alloc: Global,
    bytes: &[u8],
) -> Result<(Seq<T::Value>, &[u8]), ReadFault>
    ensures { Gives (λ x. (x.0, x.1.now)) result (vec_at T.at bytes.now) }
{
    let Some((count, rest)) = read_u32(bytes) else {
        return Err(ReadFault::Malformed);
    };
    read_items::<T>(alloc, count, rest)
}

/// A count, so many values, and nothing after them.
#[tactic(auto, unfolding(crate::specs::Reading::all_of))]
pub(crate) fn read_all<T: Read>(alloc: Global, bytes: &[u8]) -> Result<Seq<T::Value>, ReadFault>
    ensures { Gives (λ x. x) result (all_of T.at bytes.now) }
{
    let (items, rest) = read_vec::<T>(alloc, bytes)?;
    if !rest.is_empty() {
        return Err(ReadFault::Malformed);
    }
    Ok(items)
}
