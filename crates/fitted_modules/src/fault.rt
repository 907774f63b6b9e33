//! Why modules aren't fitted.

ghost use Rattle.std.specs.Prelude.{◌≡◌};
ghost use Rattle.fitted_modules.specs.declared.fault.ModulesFault.TheVariants as faults;
ghost use Rattle.fitted_modules.specs.Modules.{main_fault, adapter_fault};

use adapter_fitting::{FitFault, Refusal};
use byte_encoding::Excess;
use comp_lists::Text;
use std::alloc::{AllocError, AllocFailed};
use thiserror::Error;

/// Why a main module and its adapters can't be made ready.
#[derive(Debug, Drop, Error)]
pub enum ModulesFault {
    /// A growth was refused.
    #[error("F1 Memory")]
    Memory,
    /// A count, a size or an index would pass 2^32 - 1.
    #[error("F2 TooMany excess={excess}")]
    TooMany { excess: Excess },
    /// What the main module is refused for.
    #[error("{0}")]
    Main(Refusal),
    /// What the adapter of this name is refused for.
    #[error("{refusal} adapter={name}")]
    Adapter { name: Text, refusal: Refusal },
}

impl From<AllocError> for ModulesFault {
    ghost from_gives = { λ _ e. e ≡ faults.Memory };

    fn from(_e: AllocError) -> ModulesFault {
        ModulesFault::Memory
    }
}

impl<T: Drop> From<AllocFailed<T>> for ModulesFault {
    ghost from_gives = { λ _ e. e ≡ faults.Memory };

    fn from(_e: AllocFailed<T>) -> ModulesFault {
        ModulesFault::Memory
    }
}

/// What the main module is refused for.
pub(crate) fn of_main(fault: FitFault) -> ModulesFault
    ensures { result ≡ main_fault fault }
{
    match fault {
        FitFault::Memory => ModulesFault::Memory,
        FitFault::TooMany { excess } => ModulesFault::TooMany { excess },
        FitFault::Refused(refusal) => ModulesFault::Main(refusal),
    }
}

/// What an adapter is refused for.
pub(crate) fn of_adapter(name: Text, fault: FitFault) -> ModulesFault
    ensures { result ≡ adapter_fault name fault }
{
    match fault {
        FitFault::Memory => ModulesFault::Memory,
        FitFault::TooMany { excess } => ModulesFault::TooMany { excess },
        FitFault::Refused(refusal) => ModulesFault::Adapter { name, refusal },
    }
}
