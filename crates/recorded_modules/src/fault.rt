//! Why a module's record is not written.

ghost use Rattle.std.specs.Prelude.{◌≡◌};
ghost use Rattle.recorded_modules.specs.declared.fault.RecordingFault.TheVariants.{Memory};

use byte_encoding::Excess;
use package_lower::LowerFault;
use std::alloc::{AllocError, AllocFailed};
use thiserror::Error;

/// Why a module's record is not written.
#[derive(Debug, Drop, Error)]
pub enum RecordingFault {
    #[error("E1 Memory")]
    Memory,
    /// What describes the module's component can't be read.
    #[error("E3 Lower: {0}")]
    Decode(LowerFault),
    /// The module's functions have several string encodings, and a record has one.
    #[error("R1 SeveralEncodings")]
    SeveralEncodings,
    /// The record's size passes 2^32 - 1.
    #[error("E16 TooMany excess={excess}")]
    TooMany { excess: Excess },
}

impl From<AllocError> for RecordingFault {
    ghost from_gives = { λ _ e. e ≡ Memory };

    fn from(_error: AllocError) -> RecordingFault {
        RecordingFault::Memory
    }
}

impl<T: Drop> From<AllocFailed<T>> for RecordingFault {
    ghost from_gives = { λ _ e. e ≡ Memory };

    fn from(_error: AllocFailed<T>) -> RecordingFault {
        RecordingFault::Memory
    }
}
