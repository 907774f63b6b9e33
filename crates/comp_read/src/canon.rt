//! Options of canonical functions and intrinsics, each from the front of bytes.
//!
//! Component model, binary format: `canonopt`, `canon`.

ghost use Rattle.std.specs.Prelude.{◌≡◌, List, ℕ, Bool};
ghost use Rattle.part_readers.specs.Reading.{Gives, Read};
ghost use Rattle.part_readers.specs.ArgumentReaders.{canonical_at};
ghost use Rattle.comp_read.specs.CanonReaders.{options_at, flag_at, context_at, index_and_options_at, index_and_flag_at, slot_at, memory_at, waiting_after, future_after, stream_after, task_after, intrinsic_after};

use comp_bytes::{CanonicalOption, ContextType, Intrinsic};
use comp_lists::Seq;
use part_readers::{PartFault, byte, expect_byte, list, number, result_of};
use std::alloc::Global;

#[tactic(auto, unfolding(crate::specs::CanonReaders::options_at))]
pub(crate) fn options(
    alloc: Global,
    bytes: &[u8],
) -> Result<(Seq<CanonicalOption>, &[u8]), PartFault>
    ensures { Gives (λ x. (x.0, x.1.now)) result (options_at bytes.now) }
{
    list(alloc, bytes)
}

#[tactic(auto, unfolding(crate::specs::CanonReaders::flag_at))]
fn flag(bytes: &[u8]) -> Result<(bool, &[u8]), PartFault>
    ensures { Gives (λ x. (x.0, x.1.now)) result (flag_at bytes.now) }
{
    let (tag, rest) = byte(bytes)?;
    match tag {
        0x00 => Ok((false, rest)),
        0x01 => Ok((true, rest)),
        _ => Err(PartFault::Malformed),
    }
}

#[tactic(auto, unfolding(crate::specs::CanonReaders::context_at))]
fn context(bytes: &[u8]) -> Result<(ContextType, &[u8]), PartFault>
    ensures { Gives (λ x. (x.0, x.1.now)) result (context_at bytes.now) }
{
    let (tag, rest) = byte(bytes)?;
    match tag {
        0x7f => Ok((ContextType::I32, rest)),
        0x7e => Ok((ContextType::I64, rest)),
        _ => Err(PartFault::Malformed),
    }
}

#[tactic(auto, unfolding(crate::specs::CanonReaders::index_and_options_at))]
pub(crate) fn index_and_options(
    alloc: Global,
    bytes: &[u8],
) -> Result<(u32, Seq<CanonicalOption>, &[u8]), PartFault>
    ensures { Gives (λ x. ((x.0, x.1), x.2.now)) result (index_and_options_at bytes.now) }
{
    let (index, rest) = number(bytes)?;
    let (options, rest) = options(alloc, rest)?;
    Ok((index, options, rest))
}

#[tactic(auto, unfolding(crate::specs::CanonReaders::index_and_flag_at))]
fn index_and_flag(bytes: &[u8]) -> Result<(u32, bool, &[u8]), PartFault>
    ensures { Gives (λ x. ((x.0, x.1), x.2.now)) result (index_and_flag_at bytes.now) }
{
    let (index, rest) = number(bytes)?;
    let (flag, rest) = flag(rest)?;
    Ok((index, flag, rest))
}

#[tactic(auto, unfolding(crate::specs::CanonReaders::slot_at))]
fn slot_of(bytes: &[u8]) -> Result<(ContextType, u32, &[u8]), PartFault>
    ensures { Gives (λ x. ((x.0, x.1), x.2.now)) result (slot_at bytes.now) }
{
    let (ty, rest) = context(bytes)?;
    let (slot, rest) = number(rest)?;
    Ok((ty, slot, rest))
}

/// The memory of a wait.
#[tactic(auto, unfolding(crate::specs::CanonReaders::memory_at))]
fn memory_of(bytes: &[u8]) -> Result<(u32, &[u8]), PartFault>
    ensures { Gives (λ x. (x.0, x.1.now)) result (memory_at bytes.now) }
{
    let rest = expect_byte(0x00, bytes)?;
    number(rest)
}

/// An intrinsic of errors, waiting or back pressure, after its first byte.
#[tactic(auto, unfolding(crate::specs::CanonReaders::waiting_after))]
fn waiting(alloc: Global, tag: u8, bytes: &[u8]) -> Result<(Intrinsic, &[u8]), PartFault>
    ensures { Gives (λ x. (x.0, x.1.now)) result (waiting_after tag bytes.now) }
{
    match tag {
        0x1c => {
            let (options, rest) = options(alloc, bytes)?;
            Ok((Intrinsic::ErrorContextNew { options }, rest))
        }
        0x1d => {
            let (options, rest) = options(alloc, bytes)?;
            Ok((Intrinsic::ErrorContextDebugMessage { options }, rest))
        }
        0x1e => Ok((Intrinsic::ErrorContextDrop, bytes)),
        0x1f => Ok((Intrinsic::WaitableSetNew, bytes)),
        0x20 => {
            let (memory, rest) = memory_of(bytes)?;
            Ok((Intrinsic::WaitableSetWait { memory }, rest))
        }
        0x21 => {
            let (memory, rest) = memory_of(bytes)?;
            Ok((Intrinsic::WaitableSetPoll { memory }, rest))
        }
        0x22 => Ok((Intrinsic::WaitableSetDrop, bytes)),
        0x23 => Ok((Intrinsic::WaitableJoin, bytes)),
        0x24 => Ok((Intrinsic::BackpressureInc, bytes)),
        0x25 => Ok((Intrinsic::BackpressureDec, bytes)),
        _ => Err(PartFault::Malformed),
    }
}

/// An intrinsic of futures or of a later group, after its first byte.
#[tactic(auto, unfolding(crate::specs::CanonReaders::future_after))]
fn future(alloc: Global, tag: u8, bytes: &[u8]) -> Result<(Intrinsic, &[u8]), PartFault>
    ensures { Gives (λ x. (x.0, x.1.now)) result (future_after tag bytes.now) }
{
    match tag {
        0x15 => {
            let (ty, rest) = number(bytes)?;
            Ok((Intrinsic::FutureNew(ty), rest))
        }
        0x16 => {
            let (ty, options, rest) = index_and_options(alloc, bytes)?;
            Ok((Intrinsic::FutureRead { ty, options }, rest))
        }
        0x17 => {
            let (ty, options, rest) = index_and_options(alloc, bytes)?;
            Ok((Intrinsic::FutureWrite { ty, options }, rest))
        }
        0x18 => {
            let (ty, async_, rest) = index_and_flag(bytes)?;
            Ok((Intrinsic::FutureCancelRead { ty, async_ }, rest))
        }
        0x19 => {
            let (ty, async_, rest) = index_and_flag(bytes)?;
            Ok((Intrinsic::FutureCancelWrite { ty, async_ }, rest))
        }
        0x1a => {
            let (ty, rest) = number(bytes)?;
            Ok((Intrinsic::FutureDropReadable(ty), rest))
        }
        0x1b => {
            let (ty, rest) = number(bytes)?;
            Ok((Intrinsic::FutureDropWritable(ty), rest))
        }
        _ => waiting(alloc, tag, bytes),
    }
}

/// An intrinsic of streams or of a later group, after its first byte.
#[tactic(auto, unfolding(crate::specs::CanonReaders::stream_after))]
fn stream(alloc: Global, tag: u8, bytes: &[u8]) -> Result<(Intrinsic, &[u8]), PartFault>
    ensures { Gives (λ x. (x.0, x.1.now)) result (stream_after tag bytes.now) }
{
    match tag {
        0x0e => {
            let (ty, rest) = number(bytes)?;
            Ok((Intrinsic::StreamNew(ty), rest))
        }
        0x0f => {
            let (ty, options, rest) = index_and_options(alloc, bytes)?;
            Ok((Intrinsic::StreamRead { ty, options }, rest))
        }
        0x10 => {
            let (ty, options, rest) = index_and_options(alloc, bytes)?;
            Ok((Intrinsic::StreamWrite { ty, options }, rest))
        }
        0x11 => {
            let (ty, async_, rest) = index_and_flag(bytes)?;
            Ok((Intrinsic::StreamCancelRead { ty, async_ }, rest))
        }
        0x12 => {
            let (ty, async_, rest) = index_and_flag(bytes)?;
            Ok((Intrinsic::StreamCancelWrite { ty, async_ }, rest))
        }
        0x13 => {
            let (ty, rest) = number(bytes)?;
            Ok((Intrinsic::StreamDropReadable(ty), rest))
        }
        0x14 => {
            let (ty, rest) = number(bytes)?;
            Ok((Intrinsic::StreamDropWritable(ty), rest))
        }
        _ => future(alloc, tag, bytes),
    }
}

/// An intrinsic of tasks or of a later group, after its first byte.
#[tactic(auto, unfolding(crate::specs::CanonReaders::task_after))]
fn task(alloc: Global, tag: u8, bytes: &[u8]) -> Result<(Intrinsic, &[u8]), PartFault>
    ensures { Gives (λ x. (x.0, x.1.now)) result (task_after tag bytes.now) }
{
    match tag {
        0x05 => Ok((Intrinsic::TaskCancel, bytes)),
        0x06 => {
            let (async_, rest) = flag(bytes)?;
            Ok((Intrinsic::SubtaskCancel { async_ }, rest))
        }
        0x09 => {
            let (result, rest) = result_of(alloc, bytes)?;
            let (options, rest) = options(alloc, rest)?;
            Ok((Intrinsic::TaskReturn { result, options }, rest))
        }
        0x0a => {
            let (ty, slot, rest) = slot_of(bytes)?;
            Ok((Intrinsic::ContextGet { ty, slot }, rest))
        }
        0x0b => {
            let (ty, slot, rest) = slot_of(bytes)?;
            Ok((Intrinsic::ContextSet { ty, slot }, rest))
        }
        0x0d => Ok((Intrinsic::SubtaskDrop, bytes)),
        _ => stream(alloc, tag, bytes),
    }
}

/// An intrinsic, after its first byte.
#[tactic(auto, unfolding(crate::specs::CanonReaders::intrinsic_after))]
pub(crate) fn intrinsic(
    alloc: Global,
    tag: u8,
    bytes: &[u8],
) -> Result<(Intrinsic, &[u8]), PartFault>
    ensures { Gives (λ x. (x.0, x.1.now)) result (intrinsic_after tag bytes.now) }
{
    match tag {
        0x02 => {
            let (ty, rest) = number(bytes)?;
            Ok((Intrinsic::ResourceNew(ty), rest))
        }
        0x03 => {
            let (ty, rest) = number(bytes)?;
            Ok((Intrinsic::ResourceDrop(ty), rest))
        }
        0x04 => {
            let (ty, rest) = number(bytes)?;
            Ok((Intrinsic::ResourceRep(ty), rest))
        }
        _ => task(alloc, tag, bytes),
    }
}
