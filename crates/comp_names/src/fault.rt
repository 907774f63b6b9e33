//! What is wrong with the names of a component.

ghost use Rattle.std.specs.Prelude.{◌≡◌};
ghost use Rattle.comp_names.specs.declared.fault.NameFault.TheVariants as faults;

use comp_lists::Text;
use std::alloc::{AllocError, AllocFailed};
use thiserror::Error;

/// What is wrong with the names of a component.
#[derive(Debug, Drop, Error)]
pub enum NameFault {
    /// An allocation failed.
    #[error("C1 Memory")]
    Memory,
    /// The name occurs twice in its list.
    #[error("C4 NameTwice name={name}")]
    Twice { name: Text },
    /// The name of an import or an export is not well formed.
    #[error("C5 NameForm name={name}")]
    Form { name: Text },
}

impl From<AllocError> for NameFault {
    ghost from_gives = { λ _ e. e ≡ faults.Memory };

    fn from(_fault: AllocError) -> NameFault {
        NameFault::Memory
    }
}

impl<T: Drop> From<AllocFailed<T>> for NameFault {
    ghost from_gives = { λ _ e. e ≡ faults.Memory };

    fn from(_fault: AllocFailed<T>) -> NameFault {
        NameFault::Memory
    }
}
