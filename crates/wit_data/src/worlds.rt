//! Worlds, and the keys of what they import and export.

use crate::functions::Function;
use crate::ids::{InterfaceId, TypeId};
use comp_lists::{Keyed, Text, TryClone};
use std::alloc::{AllocError, Global};
use std::hash::{Hash, Hasher};

/// The key of an import or an export of a world.
#[derive(Debug, Drop)]
pub enum WorldKey {
    /// A plain name.
    Name(Text),
    /// An interface with a name of its own.
    Interface(InterfaceId),
}

impl TryClone for WorldKey {
    fn try_clone(&self, alloc: Global) -> Result<WorldKey, AllocError> {
        match self {
            WorldKey::Name(text) => Ok(WorldKey::Name(text.clone(alloc)?)),
            WorldKey::Interface(id) => Ok(WorldKey::Interface(*id)),
        }
    }
}

impl PartialEq for WorldKey {
    ghost use Rattle.std.proofs.Common.{rules};
    ghost use Rattle.std.specs.Cmp.Rules.{comparing};
    ghost use Rattle.wit_data.specs.Keys.{is_same_key};

    ghost eq = { is_same_key };

    ghost laws = { Prim.search (comparing, rules) };

    fn eq(&self, other: &Self) -> bool {
        match (self, other) {
            (WorldKey::Name(text), WorldKey::Name(other)) => text == other,
            (WorldKey::Interface(id), WorldKey::Interface(other)) => id.index == other.index,
            _ => false,
        }
    }
}

impl Eq for WorldKey {
    ghost use Rattle.std.proofs.Common.{rules};
    ghost use Rattle.std.specs.Cmp.Rules.{comparing};

    ghost laws = { Prim.search (comparing, rules) };
}

impl Hash for WorldKey {
    ghost use Rattle.std.proofs.Common.{rules};
    ghost use Rattle.std.specs.Prelude.{◌++◌};
    ghost use Rattle.std.specs.Cmp.Rules.{hashing};
    ghost use Rattle.wit_data.specs.Keys.{name_of_key, interface_index};
    ghost use Rattle.std.specs.Hash as fed;

    ghost hash_input = { λ key. fed.str (name_of_key key) ++ fed.usize (interface_index key) };

    ghost respects_eq = { Prim.search (hashing, rules) };

    fn hash<H: Hasher>(&self, state: &mut H) {
        match self {
            WorldKey::Name(text) => {
                text.hash(state);
                0usize.hash(state);
            }
            WorldKey::Interface(id) => {
                "".hash(state);
                id.index.hash(state);
            }
        }
    }
}

/// The item at a key of a world.
#[derive(Debug, Drop, PartialEq, Eq)]
pub enum WorldItem {
    Interface(InterfaceId),
    Function(Function),
    /// A type that the world names.
    NamedType(TypeId),
}

/// A world: its imports and its exports by key, in order.
#[derive(Drop)]
pub struct World {
    pub imports: Keyed<WorldKey, WorldItem>,
    pub exports: Keyed<WorldKey, WorldItem>,
}
