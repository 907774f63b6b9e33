//! Faults of the lower layer, and those of its steps.

use comp_lists::Text;
use core_sections::SectionFault;
use json_paths::{Failure as RecordFailure, Refusal as RecordRefusal};
use std::alloc::{AllocError, AllocFailed};
use thiserror::Error;

/// Why a module, a record, a merge or a world is refused.
#[derive(Debug, Drop, Error)]
pub enum PlainFault {
    /// Out of memory.
    #[error("P1 Memory")]
    Memory,
    /// The bytes don't begin with the preamble of a core module.
    #[error("P2 NotModule")]
    NotModule,
    /// The section whose id byte is at this offset (in bytes from the start of the module) is cut short
    /// or malformed.
    #[error("P3 Section place={place}")]
    Section { place: usize },
    /// A section that describes a component holds a binary package instead of a record.
    #[error("P4 PackageBinary")]
    PackageBinary,
    /// A record is not JSON.
    #[error("P5 Json")]
    Json,
    /// The value at this JSON pointer of a record is missing, unknown, of a wrong kind, refers to
    /// nothing, or breaks a rule of records.
    #[error("P6 Record path={path}")]
    Record { path: Text },
    /// What two records say of this name contradicts itself.
    #[error("P7 MergeConflict name={name}")]
    MergeConflict { name: Text },
    /// A member of a record, or a kind of role, that isn't supported yet.
    #[error("P8 LeftOut what={what}")]
    LeftOut { what: Text },
    /// A core import has no role.
    #[error("P9 RoleMissing module={module} field={field}")]
    RoleMissing { module: Text, field: Text },
    /// The module must export a function, and no core export has it.
    #[error("P10 ExportMissing function={function}")]
    ExportMissing { function: Text },
    /// The core import or export of this name has a type that doesn't fit its role.
    #[error("P11 CoreType name={name}")]
    CoreType { name: Text },
    /// A core module imports this field of this module twice.
    #[error("P12 ImportTwice module={module} field={field}")]
    ImportTwice { module: Text, field: Text },
    /// `realloc_via_memory_grow` with an adapter that is not a library.
    #[error("P13 MemoryGrow")]
    MemoryGrow,
}

/// A refusal other than out of memory.
#[derive(Debug, Drop)]
pub enum Refusal {
    NotModule,
    Section { place: usize },
    PackageBinary,
    Json,
    Record { path: Text },
    MergeConflict { name: Text },
    LeftOut { what: Text },
    RoleMissing { module: Text, field: Text },
    ExportMissing { function: Text },
    CoreType { name: Text },
    ImportTwice { module: Text, field: Text },
    MemoryGrow,
}

/// Why a step ended early. The flat [`PlainFault`] is made of it once, at the top.
#[derive(Debug, Drop)]
pub enum Failure {
    Memory,
    Refused(Refusal),
}

impl From<AllocError> for Failure {
    ghost use Rattle.std.specs.Prelude.{◌≡◌};
    ghost use Rattle.record_faults.specs.declared.fault.Failure.TheVariants.{Memory};

    ghost from_gives = { λ _ e. e ≡ Memory };

    fn from(_e: AllocError) -> Failure {
        Failure::Memory
    }
}

impl<T: Drop> From<AllocFailed<T>> for Failure {
    ghost use Rattle.std.specs.Prelude.{◌≡◌};
    ghost use Rattle.record_faults.specs.declared.fault.Failure.TheVariants.{Memory};

    ghost from_gives = { λ _ e. e ≡ Memory };

    fn from(_e: AllocFailed<T>) -> Failure {
        Failure::Memory
    }
}

impl From<SectionFault> for Failure {
    ghost use Rattle.std.specs.Prelude.{◌≡◌};
    ghost use Rattle.record_faults.specs.Faults.{of_section};

    ghost from_gives = { λ f e. e ≡ of_section f };

    fn from(fault: SectionFault) -> Failure {
        match fault {
            SectionFault::Memory => Failure::Memory,
            SectionFault::NotModule => Failure::Refused(Refusal::NotModule),
            SectionFault::Section { place } => Failure::Refused(Refusal::Section { place }),
            SectionFault::PackageBinary => Failure::Refused(Refusal::PackageBinary),
        }
    }
}

impl From<RecordFailure> for Failure {
    ghost use Rattle.std.specs.Prelude.{◌≡◌};
    ghost use Rattle.record_faults.specs.Faults.{of_record};

    ghost from_gives = { λ f e. e ≡ of_record f };

    fn from(failure: RecordFailure) -> Failure {
        match failure {
            RecordFailure::Memory => Failure::Memory,
            RecordFailure::Refused(RecordRefusal::Json) => Failure::Refused(Refusal::Json),
            RecordFailure::Refused(RecordRefusal::Record { path }) => {
                Failure::Refused(Refusal::Record { path })
            }
            RecordFailure::Refused(RecordRefusal::LeftOut { what }) => {
                Failure::Refused(Refusal::LeftOut { what })
            }
            RecordFailure::Refused(RecordRefusal::MergeConflict { name }) => {
                Failure::Refused(Refusal::MergeConflict { name })
            }
        }
    }
}

impl From<Refusal> for PlainFault {
    ghost use Rattle.std.specs.Prelude.{◌≡◌};
    ghost use Rattle.record_faults.specs.Faults.{flat_refusal};

    ghost from_gives = { λ f e. e ≡ flat_refusal f };

    fn from(refusal: Refusal) -> PlainFault {
        match refusal {
            Refusal::NotModule => PlainFault::NotModule,
            Refusal::Section { place } => PlainFault::Section { place },
            Refusal::PackageBinary => PlainFault::PackageBinary,
            Refusal::Json => PlainFault::Json,
            Refusal::Record { path } => PlainFault::Record { path },
            Refusal::MergeConflict { name } => PlainFault::MergeConflict { name },
            Refusal::LeftOut { what } => PlainFault::LeftOut { what },
            Refusal::RoleMissing { module, field } => PlainFault::RoleMissing { module, field },
            Refusal::ExportMissing { function } => PlainFault::ExportMissing { function },
            Refusal::CoreType { name } => PlainFault::CoreType { name },
            Refusal::ImportTwice { module, field } => PlainFault::ImportTwice { module, field },
            Refusal::MemoryGrow => PlainFault::MemoryGrow,
        }
    }
}

impl From<Failure> for PlainFault {
    ghost use Rattle.std.specs.Prelude.{◌≡◌};
    ghost use Rattle.record_faults.specs.Faults.{flat};

    ghost from_gives = { λ f e. e ≡ flat f };

    fn from(failure: Failure) -> PlainFault {
        match failure {
            Failure::Memory => PlainFault::Memory,
            Failure::Refused(refusal) => PlainFault::from(refusal),
        }
    }
}
