//! Why there is no record.

ghost use Rattle.std.specs.Prelude.{◌≡◌};
ghost use Rattle.record_texts.specs.declared.fault.RecordTextFault.TheVariants.{Memory};

use std::alloc::{AllocError, AllocFailed};
use thiserror::Error;

/// Why what a module says can't be written as one record.
#[derive(Clone, Copy, Debug, PartialEq, Eq, Error)]
pub enum RecordTextFault {
    #[error("Memory")]
    Memory,
    /// Its functions have several string encodings, and a record has one.
    #[error("SeveralEncodings")]
    SeveralEncodings,
}

impl From<AllocError> for RecordTextFault {
    ghost from_gives = { λ _ e. e ≡ Memory };

    fn from(_: AllocError) -> RecordTextFault {
        RecordTextFault::Memory
    }
}

impl<T: Drop> From<AllocFailed<T>> for RecordTextFault {
    ghost from_gives = { λ _ e. e ≡ Memory };

    fn from(_: AllocFailed<T>) -> RecordTextFault {
        RecordTextFault::Memory
    }
}
