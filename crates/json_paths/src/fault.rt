//! Why a value of JSON isn't the one that is required.

use comp_lists::Text;
use std::alloc::{AllocError, AllocFailed};

/// A refusal other than out of memory.
#[derive(Debug, Drop)]
pub enum Refusal {
    /// The text is no JSON (RFC 8259).
    Json,
    /// The value at this JSON pointer (RFC 6901) is missing, unknown, of a wrong kind, or breaks a rule.
    Record { path: Text },
    /// Something that isn't supported, or that passes a limit, by its name.
    LeftOut { what: Text },
    /// What is said of this name at two positions contradicts itself.
    MergeConflict { name: Text },
}

/// Why a reading step ended early.
#[derive(Debug, Drop)]
pub enum Failure {
    Memory,
    Refused(Refusal),
}

impl From<AllocError> for Failure {
    ghost use Rattle.std.specs.Prelude.{◌≡◌};
    ghost use Rattle.json_paths.specs.declared.fault.Failure.TheVariants.{Memory};

    ghost from_gives = { λ _ e. e ≡ Memory };

    fn from(_e: AllocError) -> Failure {
        Failure::Memory
    }
}

impl<T: Drop> From<AllocFailed<T>> for Failure {
    ghost use Rattle.std.specs.Prelude.{◌≡◌};
    ghost use Rattle.json_paths.specs.declared.fault.Failure.TheVariants.{Memory};

    ghost from_gives = { λ _ e. e ≡ Memory };

    fn from(_e: AllocFailed<T>) -> Failure {
        Failure::Memory
    }
}
