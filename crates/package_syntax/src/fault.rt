//! Why bytes are not read as a package.

ghost use Rattle.std.specs.Prelude.{◌≡◌};
ghost use Rattle.package_syntax.specs.declared.fault.StopFault.TheVariants as stops;
ghost use Rattle.package_syntax.specs.declared.fault.SyntaxFault.TheVariants as faults;

use std::alloc::{AllocError, AllocFailed};

/// What is wrong at the place of a refusal.
#[derive(Clone, Copy, Debug, PartialEq, Eq)]
pub enum Reason {
    /// The bytes don't begin with the preamble of a component.
    NotPackage,
    /// The bytes begin as packages did before they were components: with `03`, an encoding and a name.
    OldForm,
    /// A second package follows the first, as where a linker joins sections of the same name.
    Joined,
    /// A section is cut short.
    Section,
    /// A section that no package has: it is no custom section, and defines and exports no type.
    SectionKind,
    /// A custom section whose name can't be read.
    CustomName,
    /// The section of types isn't one component type with a world in it.
    World,
    /// The section of exports isn't one export of that type.
    Export,
    /// A declaration is malformed.
    Declaration,
    /// A core type, of whatever form.
    CoreType,
    /// A list of a fixed length.
    FixedLengthList,
    Map,
    /// A component type within the world.
    ComponentType,
    /// An instance type within an instance type.
    NestedInstanceType,
    /// An import or an export of a core module, or of another core item.
    CoreModule,
    /// An import or an export of a component.
    Component,
    /// An import, an export or an alias of a value.
    Value,
}

/// Where reading stops in a part of a section: so many bytes before the section's end.
#[derive(Clone, Copy, Debug, PartialEq, Eq)]
pub(crate) struct Stop {
    pub left: usize,
    pub reason: Reason,
}

/// Why a part of a section is not read.
#[derive(Clone, Copy, Debug, PartialEq, Eq)]
pub(crate) enum StopFault {
    Memory,
    Refused(Stop),
}

impl From<AllocError> for StopFault {
    ghost from_gives = { λ _ e. e ≡ stops.Memory };

    fn from(_fault: AllocError) -> StopFault {
        StopFault::Memory
    }
}

impl<T: Drop> From<AllocFailed<T>> for StopFault {
    ghost from_gives = { λ _ e. e ≡ stops.Memory };

    fn from(_fault: AllocFailed<T>) -> StopFault {
        StopFault::Memory
    }
}

/// A refusal: the offset of what can't be read, in bytes from the start of the package, and what is wrong there.
///
/// It is the offset of a section, of the contents of a section, or of a declaration of the world or
/// of an instance type.
#[derive(Clone, Copy, Debug, PartialEq, Eq)]
pub struct Refusal {
    pub place: usize,
    pub reason: Reason,
}

/// Why bytes are not read as a package.
#[derive(Clone, Copy, Debug, PartialEq, Eq)]
pub enum SyntaxFault {
    /// An allocation failed.
    Memory,
    Refused(Refusal),
}

impl From<AllocError> for SyntaxFault {
    ghost from_gives = { λ _ e. e ≡ faults.Memory };

    fn from(_fault: AllocError) -> SyntaxFault {
        SyntaxFault::Memory
    }
}

impl<T: Drop> From<AllocFailed<T>> for SyntaxFault {
    ghost from_gives = { λ _ e. e ≡ faults.Memory };

    fn from(_fault: AllocFailed<T>) -> SyntaxFault {
        SyntaxFault::Memory
    }
}
