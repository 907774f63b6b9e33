//! Why bytes are not read.

ghost use Rattle.std.specs.Prelude.{◌≡◌};
ghost use Rattle.comp_read.specs.declared.fault.ReadFault.TheVariants as reads;

use std::alloc::{AllocError, AllocFailed};
use thiserror::Error;

/// Why bytes are not read as a component.
#[derive(Debug, Drop, Error)]
pub enum ReadFault {
    /// An allocation failed.
    #[error("C1 Memory")]
    Memory,
    /// The offset, in bytes in the whole input, of the first section that cannot be read, of the innermost
    /// component. It is 0 where the input does not begin with the preamble of a component.
    #[error("C2 Grammar place={place}")]
    Grammar { place: usize },
}

impl From<AllocError> for ReadFault {
    ghost from_gives = { λ _ e. e ≡ reads.Memory };

    fn from(_fault: AllocError) -> ReadFault {
        ReadFault::Memory
    }
}

impl<T: Drop> From<AllocFailed<T>> for ReadFault {
    ghost from_gives = { λ _ e. e ≡ reads.Memory };

    fn from(_fault: AllocFailed<T>) -> ReadFault {
        ReadFault::Memory
    }
}
