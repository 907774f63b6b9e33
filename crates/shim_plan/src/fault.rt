//! Why shims can't be planned.

ghost use Rattle.std.specs.Prelude.{◌≡◌};
ghost use Rattle.shim_plan.specs.declared.fault.ShimFault.TheVariants.{Memory};

use comp_lists::Text;
use std::alloc::{AllocError, AllocFailed};
use thiserror::Error;

/// Why the shims of a module can't be planned.
#[derive(Debug, Drop, Error)]
pub enum ShimFault {
    /// An allocation failed.
    #[error("S1 Memory")]
    Memory,
    /// The world has no string encoding for a function that is called through a shim. `place` is
    /// `module::field` of the core import.
    #[error("S5 NoEncoding place={place}")]
    NoEncoding { place: Text },
}

impl From<AllocError> for ShimFault {
    ghost from_gives = { λ _ e. e ≡ Memory };

    fn from(_fault: AllocError) -> ShimFault {
        ShimFault::Memory
    }
}

impl<T: Drop> From<AllocFailed<T>> for ShimFault {
    ghost from_gives = { λ _ e. e ≡ Memory };

    fn from(_fault: AllocFailed<T>) -> ShimFault {
        ShimFault::Memory
    }
}
