//! Why the sections of a module can't be read.

ghost use Rattle.std.specs.Prelude.{◌≡◌};
ghost use Rattle.core_sections.specs.declared.fault.SectionFault.TheVariants.{Memory};

use std::alloc::{AllocError, AllocFailed};

/// What is wrong with the bytes: the first fault from left to right.
#[derive(Clone, Copy, Debug, PartialEq, Eq)]
pub enum SectionFault {
    Memory,
    /// The bytes don't begin with the preamble of a core module.
    NotModule,
    /// The section whose id is at this offset, in bytes of the module, is cut short or malformed.
    Section { place: usize },
    /// A section of component types holds a binary package.
    PackageBinary,
}

impl From<AllocError> for SectionFault {
    ghost from_gives = { λ _ e. e ≡ Memory };

    fn from(_e: AllocError) -> SectionFault {
        SectionFault::Memory
    }
}

impl<T: Drop> From<AllocFailed<T>> for SectionFault {
    ghost from_gives = { λ _ e. e ≡ Memory };

    fn from(_e: AllocFailed<T>) -> SectionFault {
        SectionFault::Memory
    }
}
