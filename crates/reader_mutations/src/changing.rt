//! Changed bytes, read each in turn.

use crate::counting::Count;
use std::alloc::{AllocError, Global};

const PREAMBLE: [u8; 8] = [0x00, 0x61, 0x73, 0x6d, 0x0d, 0x00, 0x01, 0x00];

/// All strings of two bytes after these bytes, of which the first is given.
fn pairs(alloc: Global, count: &mut Count, front: &[u8], first: u8) -> Result<(), AllocError> {
    let mut bytes = Vec::from_slice(alloc, front)?;
    bytes.push(first)?;
    count.add(alloc, &bytes)?;
    for second in 0..=255u8 {
        bytes.push(second)?;
        count.add(alloc, &bytes)?;
        let _ = bytes.pop();
    }
    Ok(())
}

/// All strings of at most two bytes after the preamble.
pub(crate) fn tails(alloc: Global) -> Result<Count, AllocError> {
    let mut count = Count::new();
    count.add(alloc, &PREAMBLE)?;
    for first in 0..=255u8 {
        pairs(alloc, &mut count, &PREAMBLE, first)?;
    }
    Ok(count)
}

/// All proper prefixes of these bytes.
pub(crate) fn cuts(alloc: Global, bytes: &[u8]) -> Result<Count, AllocError> {
    let mut count = Count::new();
    for len in 0..bytes.len() {
        count.add(alloc, &bytes[..len])?;
    }
    Ok(count)
}

/// All bytes that differ from these at this offset alone.
fn changes_at(
    alloc: Global,
    count: &mut Count,
    bytes: &mut [u8],
    offset: usize,
) -> Result<(), AllocError> {
    let Some(kept) = bytes.get(offset).copied() else {
        return Ok(());
    };
    for change in 1..=255u8 {
        if let Some(byte) = bytes.get_mut(offset) {
            *byte = kept.wrapping_add(change);
        }
        count.add(alloc, bytes)?;
    }
    if let Some(byte) = bytes.get_mut(offset) {
        *byte = kept;
    }
    Ok(())
}

/// All bytes that differ from these at one offset.
pub(crate) fn changes(alloc: Global, bytes: &mut [u8]) -> Result<Count, AllocError> {
    let mut count = Count::new();
    for offset in 0..bytes.len() {
        changes_at(alloc, &mut count, bytes, offset)?;
    }
    Ok(count)
}
