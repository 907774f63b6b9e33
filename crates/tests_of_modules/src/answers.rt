//! Bytes and faults as texts.

use byte_encoding::{BuildFault, Encode, encoded};
use core_sections::SectionFault;
use std::alloc::{AllocError, Global};

/// The text of a fault, where it isn't that memory was refused.
pub(crate) fn not_written(alloc: Global, fault: BuildFault) -> Result<String, AllocError> {
    match fault {
        BuildFault::Memory => Err(AllocError),
        _ => format!(in alloc; "{fault}"),
    }
}

/// The hexadecimal digits of bytes that were written, or the fault.
pub(crate) fn written(
    alloc: Global,
    bytes: Result<Vec<u8>, BuildFault>,
) -> Result<String, AllocError> {
    match bytes {
        Ok(bytes) => hex::encode(alloc, &bytes),
        Err(fault) => not_written(alloc, fault),
    }
}

/// The hexadecimal digits of the bytes of a value that was made.
pub(crate) fn encoding<T: Encode + Drop>(
    alloc: Global,
    made: Result<T, AllocError>,
) -> Result<String, AllocError> {
    let value = made?;
    let bytes = encoded(alloc, &value);
    drop(value);
    written(alloc, bytes)
}

/// The text of a fault, where it isn't that memory was refused.
pub(crate) fn section_fault(alloc: Global, fault: SectionFault) -> Result<String, AllocError> {
    match fault {
        SectionFault::Memory => Err(AllocError),
        _ => format!(in alloc; "{fault:?}"),
    }
}
