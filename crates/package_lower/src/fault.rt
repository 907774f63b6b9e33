//! Faults of this layer, and those of its steps.

ghost use Rattle.std.specs.Prelude.{◌≡◌};
ghost use Rattle.package_lower.specs.declared.fault.Failure.TheVariants as failures;
ghost use Rattle.package_lower.specs.Faults.{of_plain, flat};

use comp_lists::Text;
use core_sections::SectionFault;
use json_paths::Failure as RecordFailure;
use record_faults::{Failure as PlainFailure, PlainFault, Refusal as PlainRefusal};
use std::alloc::{AllocError, AllocFailed};
use thiserror::Error;
use wit_packages::PackageFault;

/// Why a module, its metadata, a merge or a world is refused.
#[derive(Debug, Drop, Error)]
pub enum LowerFault {
    /// What the lower layer by records can refuse, too.
    #[error("{0}")]
    Plain(PlainFault),
    /// The section that describes a component at this position among those of the module, from 0,
    /// holds no package that can be read.
    #[error("P4 PackageBinary section={section} {fault}")]
    Package { section: usize, fault: PackageFault },
    /// The name of a core import or a core export can be read in two ways.
    #[error("P14 SeveralMeanings name={name}")]
    SeveralMeanings { name: Text },
}

/// A refusal other than out of memory.
#[derive(Debug, Drop)]
pub(crate) enum Refusal {
    Plain(PlainRefusal),
    Package { section: usize, fault: PackageFault },
    SeveralMeanings { name: Text },
}

/// Why a step ended early. The [`LowerFault`] is made of it once, at the top.
#[derive(Debug, Drop)]
pub(crate) enum Failure {
    Memory,
    Refused(Refusal),
}

impl From<AllocError> for Failure {
    ghost from_gives = { λ _ e. e ≡ failures.Memory };

    fn from(_fault: AllocError) -> Failure {
        Failure::Memory
    }
}

impl<T: Drop> From<AllocFailed<T>> for Failure {
    ghost from_gives = { λ _ e. e ≡ failures.Memory };

    fn from(_fault: AllocFailed<T>) -> Failure {
        Failure::Memory
    }
}

impl From<PlainFailure> for Failure {
    ghost from_gives = { λ f e. e ≡ of_plain f };

    fn from(failure: PlainFailure) -> Failure {
        match failure {
            PlainFailure::Memory => Failure::Memory,
            PlainFailure::Refused(refusal) => Failure::Refused(Refusal::Plain(refusal)),
        }
    }
}

impl From<SectionFault> for Failure {
    ghost use Rattle.record_faults.specs.Faults.{of_section};

    ghost from_gives = { λ f e. e ≡ of_plain (of_section f) };

    fn from(fault: SectionFault) -> Failure {
        Failure::from(PlainFailure::from(fault))
    }
}

impl From<RecordFailure> for Failure {
    ghost use Rattle.record_faults.specs.Faults.{of_record};

    ghost from_gives = { λ f e. e ≡ of_plain (of_record f) };

    fn from(failure: RecordFailure) -> Failure {
        Failure::from(PlainFailure::from(failure))
    }
}

impl From<Failure> for LowerFault {
    ghost from_gives = { λ f e. e ≡ flat f };

    fn from(failure: Failure) -> LowerFault {
        match failure {
            Failure::Memory => LowerFault::Plain(PlainFault::Memory),
            Failure::Refused(Refusal::Plain(refusal)) => LowerFault::Plain(PlainFault::from(
                refusal,
            )),
            Failure::Refused(Refusal::Package { section, fault }) => {
                LowerFault::Package { section, fault }
            }
            Failure::Refused(Refusal::SeveralMeanings { name }) => {
                LowerFault::SeveralMeanings { name }
            }
        }
    }
}

impl From<PlainFailure> for LowerFault {
    ghost use Rattle.record_faults.specs.Faults.{flat as flat_plain};
    ghost use Rattle.package_lower.specs.declared.fault.LowerFault.TheVariants as faults;

    ghost from_gives = { λ f e. e ≡ faults.Plain (flat_plain f) };

    fn from(failure: PlainFailure) -> LowerFault {
        LowerFault::Plain(PlainFault::from(failure))
    }
}
