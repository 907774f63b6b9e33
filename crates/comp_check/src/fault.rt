//! Why a component is not accepted.

ghost use Rattle.std.specs.Prelude.{◌≡◌};
ghost use Rattle.comp_check.specs.Faults.{of_read, of_index, of_name};

use comp_bytes::Space;
use comp_lists::Text;
use comp_names::NameFault;
use comp_read::ReadFault;
use thiserror::Error;

/// An index that names no item before the definition that names it.
///
/// `definition` is that definition's number, from 0, where a nested component counts one and then one
/// for each of its items, before what follows it; a member of an instance type counts as the definition
/// of that type. Where an outer alias counts more scopes outward than there are, `space` is that of
/// components and `index` the number of scopes.
#[derive(Clone, Copy, Debug, PartialEq, Eq)]
pub struct IndexFault {
    pub definition: u128,
    pub space: Space,
    pub index: u32,
}

/// Why a component is not accepted.
#[derive(Debug, Drop, Error)]
pub enum CheckFault {
    /// An allocation failed.
    #[error("C1 Memory")]
    Memory,
    /// The offset, in bytes in the whole input, of the first section that cannot be read, of the innermost
    /// component. It is 0 where the input does not begin with the preamble of a component.
    #[error("C2 Grammar place={place}")]
    Grammar {
        place: usize,
    },
    /// An index names no earlier item: see [`IndexFault`].
    #[error("C3 Index definition={definition} space={space} index={index}")]
    Index {
        definition: u128,
        space: Space,
        index: u32,
    },
    /// A name occurs twice in a list of names that have to be distinct.
    #[error("C4 NameTwice name={name}")]
    NameTwice {
        name: Text,
    },
    /// A name of an import or an export is not well formed.
    #[error("C5 NameForm name={name}")]
    NameForm {
        name: Text,
    },
}

impl From<ReadFault> for CheckFault {
    ghost from_gives = { λ f e. e ≡ of_read f };

    fn from(fault: ReadFault) -> CheckFault {
        match fault {
            ReadFault::Memory => CheckFault::Memory,
            ReadFault::Grammar { place } => CheckFault::Grammar { place },
        }
    }
}

impl From<IndexFault> for CheckFault {
    ghost from_gives = { λ f e. e ≡ of_index f };

    fn from(fault: IndexFault) -> CheckFault {
        CheckFault::Index {
            definition: fault.definition,
            space: fault.space,
            index: fault.index,
        }
    }
}

impl From<NameFault> for CheckFault {
    ghost from_gives = { λ f e. e ≡ of_name f };

    fn from(fault: NameFault) -> CheckFault {
        match fault {
            NameFault::Memory => CheckFault::Memory,
            NameFault::Twice { name } => CheckFault::NameTwice { name },
            NameFault::Form { name } => CheckFault::NameForm { name },
        }
    }
}
