//! Counts of 32 bits, and why a component is not built.

ghost use Rattle.std.specs.Prelude.{◌≡◌, ◌+◌, ◌<◌, ◌≤◌, ◌^◌, length, MatchResult};
ghost use Rattle.byte_encoding.specs.declared.fault.BuildFault.TheVariants.{Memory, TooMany};

use std::alloc::{AllocError, AllocFailed};
use std::fmt;
use std::marker::Model;
use thiserror::Error;

/// A count or a size that passes 2^32 - 1. Only this crate's refusing calls make one.
#[derive(Clone, Copy, Debug)]
pub struct Excess {
    value: u128,
}

impl Model for Excess {
    ghost use Rattle.std.specs.Prelude.{ℕ, ◌≤◌, ◌^◌};

    ghost Value = { ℕ };

    ghost view = { λ e. e.value };

    ghost invariant = { λ e. 2 ^ 32 ≤ e.value };

    ghost inverse = { λ n. record { value = n } };
}

impl Excess {
    /// The count or the size.
    pub fn get(&self) -> u128
        ensures value { result ≡ self.now }
        ensures past { 2 ^ 32 ≤ result }
    {
        self.value
    }
}

impl fmt::Display for Excess {
    fn fmt<W: fmt::Write>(&self, f: &mut fmt::Formatter<W>) -> fmt::Result {
        write!(f, "{}", self.get())
    }
}

/// A count as a number of 32 bits, refused exactly where it is more than 2^32 - 1.
pub fn counted(count: u128) -> Result<u32, Excess>
    ensures { MatchResult result (λ n. n ≡ count) (λ e. (e ≡ count) × (2 ^ 32 ≤ e)) }
{
    if count <= u32::MAX as u128 {
        Ok(count as u32)
    } else {
        Err(Excess { value: count })
    }
}

/// The count that follows, refused exactly where it is more than 2^32 - 1.
pub fn next_count(count: u32) -> Result<u32, Excess>
    ensures { MatchResult result (λ n. n ≡ count + 1) (λ e. (e ≡ count + 1) × (2 ^ 32 ≤ e)) }
{
    counted(count as u128 + 1)
}

/// How many items both lists have together, refused exactly where these are more than 2^32 - 1.
pub fn count_of<T, U>(first: &[T], second: &[U]) -> Result<u32, Excess>
    ensures { MatchResult result (λ n. n ≡ length first.now + length second.now)
        (λ e. (e ≡ length first.now + length second.now) × (2 ^ 32 ≤ e)) }
{
    counted(first.len() as u128 + second.len() as u128)
}

/// Why a component is not built.
#[derive(Debug, Drop, Error)]
pub enum BuildFault {
    /// A growth was refused.
    #[error("B1 Memory")]
    Memory,
    /// A count or a size would pass 2^32 - 1: the greatest that the binary format can hold.
    #[error("B2 TooMany excess={excess}")]
    TooMany { excess: Excess },
}

impl From<AllocError> for BuildFault {
    ghost from_gives = { λ _ e. e ≡ Memory };

    fn from(_e: AllocError) -> BuildFault {
        BuildFault::Memory
    }
}

impl<T: Drop> From<AllocFailed<T>> for BuildFault {
    ghost from_gives = { λ _ e. e ≡ Memory };

    fn from(_e: AllocFailed<T>) -> BuildFault {
        BuildFault::Memory
    }
}

impl From<Excess> for BuildFault {
    ghost from_gives = { λ x e. e ≡ TooMany x };

    fn from(excess: Excess) -> BuildFault {
        BuildFault::TooMany { excess }
    }
}
