//! Why a declaration of a package has no meaning.

ghost use Rattle.std.specs.Prelude.{◌≡◌};
ghost use Rattle.package_types.specs.declared.fault.TypeFault.TheVariants as faults;

use std::alloc::{AllocError, AllocFailed};

/// What is wrong with a declaration.
#[derive(Clone, Copy, Debug, PartialEq, Eq)]
pub enum Cause {
    /// An index that names nothing of the kind that is required there.
    Index,
    /// A handle of what is no resource.
    Handle,
    /// A record, variant, tuple, enum or flags type of no members.
    Empty,
    /// A flags type of more than 32 flags.
    Flags,
    /// A type of more than 100 levels.
    Depth,
    /// A type of more than 10,000 nodes.
    Nodes,
    /// A name that another type, function or item has.
    NameTwice,
    /// A name whose version is in two parts.
    VersionSuffix,
    /// The definition of a resource, which only a component has.
    ResourceType,
    /// An alias of what a declaration here can't name.
    Alias,
    /// A constructor that is asynchronous.
    AsyncConstructor,
    /// An instance type that exports an instance.
    NestedInstance,
}

/// Why a type has no meaning.
#[derive(Clone, Copy, Debug, PartialEq, Eq)]
pub enum TypeFault {
    Memory,
    Refused(Cause),
}

impl From<AllocError> for TypeFault {
    ghost from_gives = { λ _ e. e ≡ faults.Memory };

    fn from(_fault: AllocError) -> TypeFault {
        TypeFault::Memory
    }
}

impl<T: Drop> From<AllocFailed<T>> for TypeFault {
    ghost from_gives = { λ _ e. e ≡ faults.Memory };

    fn from(_fault: AllocFailed<T>) -> TypeFault {
        TypeFault::Memory
    }
}

impl From<Cause> for TypeFault {
    ghost from_gives = { λ c e. e ≡ faults.Refused c };

    fn from(cause: Cause) -> TypeFault {
        TypeFault::Refused(cause)
    }
}
