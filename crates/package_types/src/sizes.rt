//! Sizes of types, and the limits.

ghost use Rattle.std.specs.Prelude.{◌≡◌, ◌+◌, min};
ghost use Rattle.package_types.specs.Sizes.{nothing, absent, simple, combined, above};

use crate::fault::Cause;
use crate::scopes::Size;

pub(crate) fn nothing() -> Size
    ensures { result ≡ nothing }
{
    Size {
        levels: 0,
        nodes: 0,
    }
}

/// An absent part.
pub(crate) fn absent() -> Size
    ensures { result ≡ absent }
{
    Size {
        levels: 0,
        nodes: 1,
    }
}

/// A type without parts.
pub(crate) fn simple() -> Size
    ensures { result ≡ simple }
{
    Size {
        levels: 1,
        nodes: 1,
    }
}

/// A sum, up to 10,000.
#[tactic(auto, using(crate::proofs::Sums::least))]
fn bounded_sum(one: usize, other: usize) -> usize
    ensures { result ≡ min (one + other) 10000 }
{
    one.saturating_add(other).min(10_000)
}

/// Parts together.
pub(crate) fn combined(one: Size, other: Size) -> Size
    ensures { result ≡ combined one other }
{
    Size {
        levels: one.levels.max(other.levels),
        nodes: bounded_sum(one.nodes, other.nodes),
    }
}

/// A type with parts that have this size together. The refusals are the limits on types.
#[tactic(auto, unfolding(crate::specs::Sizes::above))]
pub(crate) fn above(parts: Size) -> Result<Size, Cause>
    ensures { result ≡ above parts }
{
    if parts.levels >= 100 {
        return Err(Cause::Depth);
    }
    if parts.nodes >= 10_000 {
        return Err(Cause::Nodes);
    }
    Ok(Size {
        levels: parts.levels + 1,
        nodes: parts.nodes + 1,
    })
}
