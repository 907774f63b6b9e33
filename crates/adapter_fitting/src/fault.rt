//! Why a module isn't fitted.

ghost use Rattle.std.specs.Prelude.{◌≡◌};
ghost use Rattle.core_sections.specs.declared.fault.SectionFault.TheVariants as sections;
ghost use Rattle.byte_encoding.specs.declared.fault.BuildFault.TheVariants as builds;
ghost use Rattle.adapter_fitting.specs.declared.fault.Refusal.TheVariants as refusals;
ghost use Rattle.adapter_fitting.specs.declared.fault.Stop.TheVariants as stops;
ghost use Rattle.adapter_fitting.specs.declared.fault.FitFault.TheVariants as faults;
ghost use Rattle.adapter_fitting.specs.Faults.{of_stop, of_build, of_section};

use byte_encoding::{BuildFault, Excess};
use core_sections::SectionFault;
use std::alloc::{AllocError, AllocFailed};
use thiserror::Error;

/// What a module is refused for. Places are offsets in bytes of the module.
#[derive(Clone, Copy, Debug, PartialEq, Eq, Error)]
pub enum Refusal {
    /// The bytes don't begin with the preamble of a core module.
    #[error("F3 NotModule")]
    NotModule,
    /// The section at this offset is cut short or malformed.
    #[error("F4 Section place={place}")]
    Section { place: usize },
    /// The section at this offset occurs a second time, or is behind one that it has to precede, or has an unknown id.
    #[error("F5 Order place={place}")]
    Order { place: usize },
    /// The section of names at this offset is malformed.
    #[error("F6 Names place={place}")]
    Names { place: usize },
    /// Several globals of an adapter are named `__stack_pointer`, or `allocation_state`.
    #[error("F7 ManyGlobals")]
    ManyGlobals,
    /// An adapter that needs a stack doesn't import main's `cabi_realloc`.
    #[error("F8 NoRealloc")]
    NoRealloc,
    /// The import of main's `cabi_realloc` has another type than a realloc.
    #[error("F9 ReallocType")]
    ReallocType,
    /// The section of code at this offset is malformed, or hasn't one body for each function that
    /// isn't imported; or it isn't there, and this is where the module ends.
    #[error("F10 Code place={place}")]
    Code { place: usize },
    /// The section of data at this offset is malformed.
    #[error("F11 Data place={place}")]
    Data { place: usize },
    /// A main module without a memory.
    #[error("F12 NoMemory")]
    NoMemory,
    /// A main module that has no function of its own, or no exports.
    #[error("F13 NoFunctions")]
    NoFunctions,
    /// An adapter has `__stack_pointer`, and no `allocation_state`: nothing says when its stack is there.
    #[error("F14 NoState")]
    NoState,
    /// An adapter has an active data segment, which would be copied over what is in main's memory.
    #[error("F15 ActiveData")]
    ActiveData,
}

/// Why reading a module ends early.
#[derive(Clone, Copy, PartialEq, Eq)]
pub(crate) enum Stop {
    Memory,
    Refused(Refusal),
}

/// Why a module isn't fitted.
#[derive(Debug, Drop, Error)]
pub enum FitFault {
    /// A growth was refused.
    #[error("F1 Memory")]
    Memory,
    /// A count, a size or an index would pass 2^32 - 1.
    #[error("F2 TooMany excess={excess}")]
    TooMany { excess: Excess },
    #[error("{0}")]
    Refused(Refusal),
}

impl From<AllocError> for Stop {
    ghost from_gives = { λ _ e. e ≡ stops.Memory };

    fn from(_e: AllocError) -> Stop {
        Stop::Memory
    }
}

impl<T: Drop> From<AllocFailed<T>> for Stop {
    ghost from_gives = { λ _ e. e ≡ stops.Memory };

    fn from(_e: AllocFailed<T>) -> Stop {
        Stop::Memory
    }
}

impl From<SectionFault> for Stop {
    ghost from_gives = { λ s e. e ≡ of_section s };

    fn from(fault: SectionFault) -> Stop {
        match fault {
            SectionFault::Memory => Stop::Memory,
            SectionFault::Section { place } => Stop::Refused(Refusal::Section { place }),
            _ => Stop::Refused(Refusal::NotModule),
        }
    }
}

impl From<AllocError> for FitFault {
    ghost from_gives = { λ _ e. e ≡ faults.Memory };

    fn from(_e: AllocError) -> FitFault {
        FitFault::Memory
    }
}

impl From<SectionFault> for FitFault {
    ghost from_gives = { λ s e. e ≡ of_stop (of_section s) };

    fn from(fault: SectionFault) -> FitFault {
        FitFault::from(Stop::from(fault))
    }
}

impl From<Stop> for FitFault {
    ghost from_gives = { λ s e. e ≡ of_stop s };

    fn from(stop: Stop) -> FitFault {
        match stop {
            Stop::Memory => FitFault::Memory,
            Stop::Refused(refusal) => FitFault::Refused(refusal),
        }
    }
}

impl From<BuildFault> for FitFault {
    ghost from_gives = { λ b e. e ≡ of_build b };

    fn from(fault: BuildFault) -> FitFault {
        match fault {
            BuildFault::Memory => FitFault::Memory,
            BuildFault::TooMany { excess } => FitFault::TooMany { excess },
        }
    }
}
