//! Why the warnings of a module are not known.

ghost use Rattle.std.specs.Prelude.{◌≡◌};
ghost use Rattle.module_warnings.specs.declared.fault.LintFault.TheVariants.{Memory};

use package_lower::LowerFault;
use record_faults::PlainFault;
use std::alloc::{AllocError, AllocFailed};
use thiserror::Error;

/// Why the warnings of a module are not known.
#[derive(Debug, Drop, Error)]
pub enum LintFault {
    #[error("E1 Memory")]
    Memory,
    /// What describes the module's component can't be read.
    #[error("E3 Lower: {0}")]
    Decode(LowerFault),
    /// The core imports and core exports of the module can't be read.
    #[error("E3 Lower: {0}")]
    Core(PlainFault),
}

impl From<AllocError> for LintFault {
    ghost from_gives = { λ _ e. e ≡ Memory };

    fn from(_error: AllocError) -> LintFault {
        LintFault::Memory
    }
}

impl<T: Drop> From<AllocFailed<T>> for LintFault {
    ghost from_gives = { λ _ e. e ≡ Memory };

    fn from(_error: AllocFailed<T>) -> LintFault {
        LintFault::Memory
    }
}
