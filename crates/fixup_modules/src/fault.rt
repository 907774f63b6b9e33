//! Why a call of a fixup module is refused.

ghost use Rattle.std.specs.Prelude.{◌≡◌};
ghost use Rattle.byte_encoding.specs.declared.fault.BuildFault.TheVariants as build;
ghost use Rattle.fixup_modules.specs.Faults.{of_build};
ghost use Rattle.fixup_modules.specs.declared.fault.ShimFault.TheVariants as faults;

use byte_encoding::{BuildFault, Excess};
use comp_lists::Text;
use std::alloc::{AllocError, AllocFailed};
use thiserror::Error;

/// Why a call of a fixup module is refused.
#[derive(Debug, Drop, Error)]
pub enum ShimFault {
    /// A growth was refused.
    #[error("S1 Memory")]
    Memory,
    /// A count would pass 2^32 - 1: the greatest that the binary format can hold.
    #[error("S2 TooMany excess={excess}")]
    TooMany { excess: Excess },
    /// The name of the instance is already that of another instance from which is imported.
    #[error("S3 InstanceKind name={name}")]
    InstanceKind { name: Text },
    /// The item of the instance is already imported, with another type.
    #[error("S4 ImportType instance={instance} name={name}")]
    ImportType { instance: Text, name: Text },
}

impl From<AllocError> for ShimFault {
    ghost from_gives = { λ _ e. e ≡ faults.Memory };

    fn from(_e: AllocError) -> ShimFault {
        ShimFault::Memory
    }
}

impl<T: Drop> From<AllocFailed<T>> for ShimFault {
    ghost from_gives = { λ _ e. e ≡ faults.Memory };

    fn from(_e: AllocFailed<T>) -> ShimFault {
        ShimFault::Memory
    }
}

impl From<Excess> for ShimFault {
    ghost from_gives = { λ x e. e ≡ faults.TooMany x };

    fn from(excess: Excess) -> ShimFault {
        ShimFault::TooMany { excess }
    }
}

impl From<BuildFault> for ShimFault {
    ghost from_gives = { λ f e. e ≡ of_build f };

    fn from(fault: BuildFault) -> ShimFault {
        match fault {
            BuildFault::Memory => ShimFault::Memory,
            BuildFault::TooMany { excess } => ShimFault::TooMany { excess },
        }
    }
}
