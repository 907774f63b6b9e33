//! What is known of a core module apart from its bytes.

use comp_lists::{Keyed, Text};
use standard_kinds::StringEncoding;
use std::hash::{Hash, Hasher};
use wit_data::WorldKey;

/// A function as a module names it: the key of a world's item, and the function's name there.
#[derive(Debug, Drop)]
pub struct FunctionKey {
    pub key: WorldKey,
    pub function: Text,
}

impl PartialEq for FunctionKey {
    ghost use Rattle.std.proofs.Common.{rules};
    ghost use Rattle.std.specs.Cmp.Rules.{comparing};
    ghost use Rattle.comp_roles.specs.Functions.{is_same_function};

    ghost eq = { is_same_function };

    ghost laws = { Prim.search (comparing, rules) };

    fn eq(&self, other: &Self) -> bool {
        self.key == other.key && self.function == other.function
    }
}

impl Eq for FunctionKey {
    ghost use Rattle.std.proofs.Common.{rules};
    ghost use Rattle.std.specs.Cmp.Rules.{comparing};

    ghost laws = { Prim.search (comparing, rules) };
}

impl Hash for FunctionKey {
    ghost use Rattle.std.proofs.Common.{rules};
    ghost use Rattle.std.specs.Prelude.{◌++◌};
    ghost use Rattle.std.specs.Cmp.Rules.{hashing};
    ghost use Rattle.wit_data.specs.Keys.{name_of_key, interface_index};
    ghost use Rattle.std.specs.Hash as fed;

    ghost hash_input = { λ f. (fed.str (name_of_key f.key) ++ fed.usize (interface_index f.key)) ++ fed.str f.function };

    ghost respects_eq = { Prim.search (hashing, rules) };

    fn hash<H: Hasher>(&self, state: &mut H) {
        self.key.hash(state);
        self.function.hash(state);
    }
}

/// The string encodings with which a module calls and is called.
#[derive(Drop)]
pub struct ModuleMetadata {
    pub import_encodings: Keyed<FunctionKey, StringEncoding>,
    pub export_encodings: Keyed<FunctionKey, StringEncoding>,
}
