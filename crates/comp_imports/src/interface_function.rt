//! By what a function of an interface is found.

use comp_lists::Text;
use std::hash::{Hash, Hasher};
use wit_data::InterfaceId;

/// A function of an interface, by its name there.
#[derive(Debug, Drop)]
pub struct InterfaceFunction {
    pub interface: InterfaceId,
    pub name: Text,
}

impl PartialEq for InterfaceFunction {
    ghost use Rattle.std.proofs.Common.{rules};
    ghost use Rattle.std.specs.Cmp.Rules.{comparing};
    ghost use Rattle.comp_imports.specs.Interfaces.{is_same_function};

    ghost eq = { is_same_function };

    ghost laws = { Prim.search (comparing, rules) };

    fn eq(&self, other: &Self) -> bool {
        self.interface.index == other.interface.index && self.name == other.name
    }
}

impl Eq for InterfaceFunction {
    ghost use Rattle.std.proofs.Common.{rules};
    ghost use Rattle.std.specs.Cmp.Rules.{comparing};

    ghost laws = { Prim.search (comparing, rules) };
}

impl Hash for InterfaceFunction {
    ghost use Rattle.std.proofs.Common.{rules};
    ghost use Rattle.std.specs.Prelude.{◌++◌};
    ghost use Rattle.std.specs.Cmp.Rules.{hashing};
    ghost use Rattle.std.specs.Hash as fed;

    ghost hash_input = { λ k. fed.usize k.interface.index ++ fed.str k.name };

    ghost respects_eq = { Prim.search (hashing, rules) };

    fn hash<H: Hasher>(&self, state: &mut H) {
        self.interface.index.hash(state);
        self.name.hash(state);
    }
}
