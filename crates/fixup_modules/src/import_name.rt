//! By what an import is found.

use comp_lists::Text;
use std::hash::{Hash, Hasher};

/// The two parts of the name of an import: of the instance, and of the item in it.
#[derive(Drop)]
pub(crate) struct ImportName {
    pub(crate) instance: Text,
    pub(crate) field: Text,
}

impl PartialEq for ImportName {
    ghost use Rattle.std.proofs.Common.{rules};
    ghost use Rattle.std.specs.Cmp.Rules.{comparing};
    ghost use Rattle.fixup_modules.specs.ImportNames.{is_same_name};

    ghost eq = { is_same_name };

    ghost laws = { Prim.search (comparing, rules) };

    fn eq(&self, other: &Self) -> bool {
        self.instance == other.instance && self.field == other.field
    }
}

impl Eq for ImportName {
    ghost use Rattle.std.proofs.Common.{rules};
    ghost use Rattle.std.specs.Cmp.Rules.{comparing};

    ghost laws = { Prim.search (comparing, rules) };
}

impl Hash for ImportName {
    ghost use Rattle.std.proofs.Common.{rules};
    ghost use Rattle.std.specs.Prelude.{◌++◌};
    ghost use Rattle.std.specs.Cmp.Rules.{hashing};
    ghost use Rattle.std.specs.Hash as fed;

    ghost hash_input = { λ n. fed.str n.instance ++ fed.str n.field };

    ghost respects_eq = { Prim.search (hashing, rules) };

    fn hash<H: Hasher>(&self, state: &mut H) {
        self.instance.hash(state);
        self.field.hash(state);
    }
}
