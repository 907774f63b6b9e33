//! The bytes of a value, and their size.

ghost use Rattle.std.specs.Prelude.{ℕ, ◌≡◌, ◌≤◌, ◌<◌, ◌^◌, length, IfOk, IfErr, OnOk, MatchResult, Contains};
ghost use Rattle.byte_encoding.specs.Encoding.{Encoding, Fits};
ghost use Rattle.byte_encoding.specs.Written.{Refused};
ghost use Rattle.measured_bytes.specs.Outputs.{capped, IsSize, IsExcess};

use crate::emitting::Emit;
use crate::output::Output;
use byte_encoding::{BuildFault, Excess, counted};
use std::alloc::Global;

/// The size of what a value is written as, or the first count or size in it that passes 2^32 - 1; capped at 2^128 - 1.
fn measured<T: Emit>(alloc: Global, value: &T) -> Result<u128, Excess>
    ensures { MatchResult result (λ n. Fits (T.encoding value.now).counts
        × (n ≡ capped (length (T.encoding value.now).bytes)))
        (IsExcess (T.encoding value.now).counts) }
{
    let mut out = Output::new(alloc);
    value.emit(&mut out);
    match out.excess() {
        None => Ok(out.size()),
        Some(excess) => Err(excess),
    }
}

/// The size of what a value is written as. It takes no memory, and is refused exactly where a count
/// or a size in it, or its own size, passes 2^32 - 1: with the first such count or size, or with
/// 2^128 - 1 where that is more.
pub fn encoded_size<T: Emit>(alloc: Global, value: &T) -> Result<u32, Excess>
    ensures { IsSize (T.encoding value.now) result }
{
    let size = measured(alloc, value)?;
    let size = counted(size)?;
    Ok(size)
}

/// The room for what a value is written as: all that can be asked for, where 2^128 - 1 stands for more.
fn room_for<T: Emit>(alloc: Global, value: &T) -> Result<usize, Excess>
    ensures ok { IfOk result (λ room. room < 2 ^ 63
        → Fits (T.encoding value.now).counts × (room ≡ length (T.encoding value.now).bytes)) }
    ensures err { IfErr result (λ e. (2 ^ 32 ≤ e) × Contains (T.encoding value.now).counts e) }
{
    match measured(alloc, value) {
        Ok(size) if size < usize::MAX as u128 => Ok(size as usize),
        Ok(_) => Ok(usize::MAX),
        Err(excess) if excess.get() < u128::MAX => Err(excess),
        Err(_) => Ok(usize::MAX),
    }
}

/// The bytes of a value: it is measured, one buffer of that size is reserved, and filled. It fails with
/// [`BuildFault::TooMany`] only where a count or a size among them would exceed 2^32 - 1, and reports that one.
pub fn encoded<T: Emit>(alloc: Global, value: &T) -> Result<Vec<u8>, BuildFault>
    ensures ok { IfOk result (λ v. v.items ≡ (T.encoding value.now).bytes) }
    ensures fits { OnOk result (Fits (T.encoding value.now).counts) }
    ensures refused { IfErr result (Refused (T.encoding value.now).counts) }
{
    let room = room_for(alloc, value)?;
    let mut out = Output::with_room(alloc, room)?;
    value.emit(&mut out);
    Ok(out.into_bytes())
}
