//! Lists whose items say where they stop.
//!
//! Core standard, binary format: vectors.

ghost use Rattle.std.specs.Prelude.{◌≡◌, List, ℕ, length};
ghost use Rattle.part_readers.specs.Reading.{number_at};
ghost use Rattle.package_syntax.specs.declared.fault.Reason.TheVariants as reasons;
ghost use Rattle.package_syntax.specs.declared.fault.StopFault.TheVariants as stops;
ghost use Rattle.package_syntax.specs.Placing.{Gives, Placed, stop, ok_or, items_at, list_at};

use crate::fault::{Reason, Stop, StopFault};
use comp_lists::Seq;
use part_readers::{PartFault, number};
use std::alloc::Global;

/// Where reading stops: before this many bytes.
pub(crate) fn stopped(left: usize, reason: Reason) -> StopFault
    ensures { result ≡ stops.Refused (stop left reason) }
{
    StopFault::Refused(Stop { left, reason })
}

/// A value that can be read from the front of bytes, or says where it can't.
pub(crate) trait Place: Sized {
    ghost at: { List ℕ → Placed Self };

    fn read(alloc: Global, bytes: &[u8]) -> Result<(Self, &[u8]), StopFault>
        ensures { Gives (λ x. (x.0, x.1.now)) result (at bytes.now) };
}

/// Items one after another. Nothing is allocated by their count.
#[tactic(auto, unfolding(crate::specs::Placing::items_at))]
fn items<T: Place + Drop>(
    alloc: Global,
    count: u32,
    bytes: &[u8],
) -> Result<(Seq<T>, &[u8]), StopFault>
    ensures { Gives (λ x. (x.0, x.1.now)) result (items_at T.at count bytes.now) }
{
    let mut items = Seq::new(alloc);
    let mut rest = bytes;
    for _ in 0..count {
        let (item, after) = T::read(alloc, rest)?;
        items.push(item)?;
        rest = after;
    }
    Ok((items, rest))
}

fn count(bytes: &[u8]) -> Result<(u32, &[u8]), StopFault>
    ensures { Gives (λ x. (x.0, x.1.now)) result (ok_or (stop
        (length bytes.now) reasons.Declaration) (number_at bytes.now)) }
{
    match number(bytes) {
        Ok(read) => Ok(read),
        Err(PartFault::Memory) => Err(StopFault::Memory),
        Err(PartFault::Malformed) => Err(stopped(bytes.len(), Reason::Declaration)),
    }
}

#[tactic(auto, unfolding(crate::specs::Placing::list_at))]
pub(crate) fn list<T: Place + Drop>(
    alloc: Global,
    bytes: &[u8],
) -> Result<(Seq<T>, &[u8]), StopFault>
    ensures { Gives (λ x. (x.0, x.1.now)) result (list_at T.at bytes.now) }
{
    let (count, rest) = count(bytes)?;
    items(alloc, count, rest)
}
