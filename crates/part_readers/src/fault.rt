//! Why bytes are not read.

ghost use Rattle.std.specs.Prelude.{◌≡◌};
ghost use Rattle.part_readers.specs.declared.fault.PartFault.TheVariants as parts;

use std::alloc::{AllocError, AllocFailed};

/// Why a value is not read from the front of bytes: an allocation failed, or they don't encode one.
#[derive(Clone, Copy, Debug, PartialEq, Eq)]
pub enum PartFault {
    Memory,
    Malformed,
}

impl From<AllocError> for PartFault {
    ghost from_gives = { λ _ e. e ≡ parts.Memory };

    fn from(_fault: AllocError) -> PartFault {
        PartFault::Memory
    }
}

impl<T: Drop> From<AllocFailed<T>> for PartFault {
    ghost from_gives = { λ _ e. e ≡ parts.Memory };

    fn from(_fault: AllocFailed<T>) -> PartFault {
        PartFault::Memory
    }
}
