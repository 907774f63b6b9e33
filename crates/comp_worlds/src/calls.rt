//! Calls of imported functions, and what core imports use of what the world imports.

ghost use Rattle.comp_worlds.specs.Uses.{is_same_call};

use crate::lowerings::LoweringKey;
use comp_lists::Keyed;
use std::hash::{Hash, Hasher};
use wit_data::WorldKey;

/// A call of an imported function: the key of the world's import that has it, its name there and
/// the form of the call.
#[derive(Debug, Drop)]
pub struct Call {
    pub key: WorldKey,
    pub lowering: LoweringKey,
}

impl PartialEq for Call {
    ghost use Rattle.std.proofs.Common.{rules};
    ghost use Rattle.std.specs.Cmp.Rules.{comparing};
    ghost use Rattle.comp_worlds.specs.Uses.{is_same_call};

    ghost eq = { is_same_call };

    ghost laws = { Prim.search (comparing, rules) depth 12 };

    fn eq(&self, other: &Self) -> bool {
        self.key == other.key && self.lowering == other.lowering
    }
}

impl Eq for Call {
    ghost use Rattle.std.proofs.Common.{rules};
    ghost use Rattle.std.specs.Cmp.Rules.{comparing};

    ghost laws = { Prim.search (comparing, rules) depth 12 };
}

impl Hash for Call {
    ghost use Rattle.std.proofs.Common.{rules};
    ghost use Rattle.std.specs.Prelude.{◌++◌};
    ghost use Rattle.std.specs.Cmp.Rules.{hashing};
    ghost use Rattle.wit_data.specs.Keys.{name_of_key, interface_index};
    ghost use Rattle.comp_worlds.specs.Lowerings.{abi_number};
    ghost use Rattle.std.specs.Hash as fed;

    ghost hash_input = { λ c. (fed.str (name_of_key c.key) ++ fed.usize (interface_index c.key)) ++ (fed.str c.lowering.name ++ fed.u8 (abi_number c.lowering.abi)) };

    ghost respects_eq = { Prim.search (hashing, rules) };

    fn hash<H: Hasher>(&self, state: &mut H) {
        self.key.hash(state);
        self.lowering.hash(state);
    }
}

/// What core imports use of what the world imports, and whether main imports its memory.
#[derive(Drop)]
pub struct Uses {
    pub calls: Keyed<Call, ()>,
    pub drops: Keyed<usize, ()>,
    pub shares_memory: bool,
}
