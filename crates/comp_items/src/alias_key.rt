//! By what an alias of a core export is found.

ghost use Rattle.std.specs.Prelude.{◌≡◌};
ghost use Rattle.comp_items.specs.AliasKeys.{kind_number};

use comp_lists::Text;
use standard_kinds::ExportKind;
use std::hash::{Hash, Hasher};

/// What a core instance exports: the instance, and the kind and the name of the export.
#[derive(Debug, Drop)]
pub struct AliasKey {
    pub instance: u32,
    pub kind: ExportKind,
    pub name: Text,
}

/// The number of a kind: each has one of its own.
fn kind_number(kind: ExportKind) -> u8
    ensures { result ≡ kind_number kind }
{
    match kind {
        ExportKind::Func => 0,
        ExportKind::Table => 1,
        ExportKind::Memory => 2,
        ExportKind::Global => 3,
    }
}

impl PartialEq for AliasKey {
    ghost use Rattle.std.proofs.Common.{rules};
    ghost use Rattle.std.specs.Cmp.Rules.{comparing};
    ghost use Rattle.comp_items.specs.AliasKeys.{is_same_alias};

    ghost eq = { is_same_alias };

    ghost laws = { Prim.search (comparing, rules) };

    fn eq(&self, other: &Self) -> bool {
        self.instance == other.instance
            && kind_number(self.kind) == kind_number(other.kind)
            && self.name == other.name
    }
}

impl Eq for AliasKey {
    ghost use Rattle.std.proofs.Common.{rules};
    ghost use Rattle.std.specs.Cmp.Rules.{comparing};

    ghost laws = { Prim.search (comparing, rules) };
}

impl Hash for AliasKey {
    ghost use Rattle.std.proofs.Common.{rules};
    ghost use Rattle.std.specs.Prelude.{◌++◌};
    ghost use Rattle.std.specs.Cmp.Rules.{hashing};
    ghost use Rattle.std.specs.Hash as fed;

    ghost hash_input = { λ k. (fed.u32 k.instance ++ fed.u8 (kind_number k.kind)) ++ fed.str k.name };

    ghost respects_eq = { Prim.search (hashing, rules) };

    fn hash<H: Hasher>(&self, state: &mut H) {
        self.instance.hash(state);
        kind_number(self.kind).hash(state);
        self.name.hash(state);
    }
}
