//! Why a package is refused.

ghost use Rattle.std.specs.Prelude.{◌≡◌};
ghost use Rattle.wit_packages.specs.declared.fault.PackageFault.TheVariants as faults;
ghost use Rattle.wit_packages.specs.declared.fault.StepFault.TheVariants as steps;
ghost use Rattle.wit_packages.specs.declared.fault.Wrong.TheVariants as wrongs;
ghost use Rattle.package_types.specs.declared.fault.TypeFault.TheVariants as types;
ghost use Rattle.package_types.specs.declared.instances.MemberFault.TheVariants as members;

use package_syntax::{Refusal, SyntaxFault};
use package_types::{Cause, MemberFault, TypeFault};
use std::alloc::{AllocError, AllocFailed};
use std::fmt;

/// What is wrong with a declaration of a world.
#[derive(Clone, Copy, Debug, PartialEq, Eq)]
pub enum Wrong {
    /// The declaration itself.
    Cause(Cause),
    /// The declaration of the instance type at this position.
    Member { member: usize, cause: Cause },
    /// The world exports a type.
    ExportedType,
    /// An interface is imported and exported, and its two types differ.
    Different,
    /// What the package says up to here, with each use of an unnamed type as a copy of it, is more
    /// than is allowed for its length (`package_copies`).
    Copies,
}

impl fmt::Display for Wrong {
    fn fmt<W: fmt::Write>(&self, f: &mut fmt::Formatter<W>) -> fmt::Result {
        match self {
            Wrong::Cause(cause) => write!(f, "reason={cause:?}"),
            Wrong::Member { member, cause } => write!(f, "member={member} reason={cause:?}"),
            Wrong::ExportedType => write!(f, "reason=ExportedType"),
            Wrong::Different => write!(f, "reason=Different"),
            Wrong::Copies => write!(f, "reason=Copies"),
        }
    }
}

/// Why a declaration of a world is refused.
#[derive(Clone, Copy, Debug, PartialEq, Eq)]
pub(crate) enum StepFault {
    Memory,
    Refused(Wrong),
}

impl From<AllocError> for StepFault {
    ghost from_gives = { λ _ e. e ≡ steps.Memory };

    fn from(_fault: AllocError) -> StepFault {
        StepFault::Memory
    }
}

impl<T: Drop> From<AllocFailed<T>> for StepFault {
    ghost from_gives = { λ _ e. e ≡ steps.Memory };

    fn from(_fault: AllocFailed<T>) -> StepFault {
        StepFault::Memory
    }
}

/// What is wrong with the sections of a package.
#[derive(Clone, Copy, Debug, PartialEq, Eq)]
pub enum Lack {
    /// No custom section `wit-component-encoding`, or two.
    Encoding,
    /// The section `wit-component-encoding` has another version than 4, or no string encoding.
    EncodingForm,
    /// Beside custom sections there is not just a world and, after it, its export.
    World,
    /// The name of the world, or its id, has a version suffix.
    Name,
}

/// Why a package is refused.
#[derive(Clone, Copy, Debug, PartialEq, Eq)]
pub enum PackageFault {
    Memory,
    /// The bytes spell no package.
    Syntax(Refusal),
    Sections(Lack),
    /// The declaration of the world at this position has no meaning.
    Declaration { declaration: usize, wrong: Wrong },
}

impl From<AllocError> for PackageFault {
    ghost from_gives = { λ _ e. e ≡ faults.Memory };

    fn from(_fault: AllocError) -> PackageFault {
        PackageFault::Memory
    }
}

impl<T: Drop> From<AllocFailed<T>> for PackageFault {
    ghost from_gives = { λ _ e. e ≡ faults.Memory };

    fn from(_fault: AllocFailed<T>) -> PackageFault {
        PackageFault::Memory
    }
}

impl fmt::Display for PackageFault {
    fn fmt<W: fmt::Write>(&self, f: &mut fmt::Formatter<W>) -> fmt::Result {
        match self {
            PackageFault::Memory => write!(f, "reason=Memory"),
            PackageFault::Syntax(refusal) => {
                write!(f, "place={} reason={:?}", refusal.place, refusal.reason)
            }
            PackageFault::Sections(lack) => write!(f, "reason={lack:?}"),
            PackageFault::Declaration { declaration, wrong } => {
                write!(f, "declaration={declaration} {wrong}")
            }
        }
    }
}
