//! What one record says of its module.

ghost use Rattle.std.specs.Prelude.{◌≡◌};

use crate::roles::{ExportRole, ImportRole};
use crate::world::Wit;
use comp_lists::{Seq, Text};
use standard_kinds::StringEncoding;
use std::hash::{Hash, Hasher};

/// A core import: its module and its field.
#[derive(Debug, Drop)]
pub struct ImportName {
    pub module: Text,
    pub field: Text,
}

/// A core import or export, by its name, and its role.
#[derive(Debug, Drop)]
pub struct Assigned<K, R> {
    pub key: K,
    pub role: R,
}

/// What one record says: the world, the roles of core imports and exports in their order, how all
/// functions of the world encode texts, and whether the task's second slot of storage is free.
pub struct Record {
    pub wit: Wit,
    pub encoding: StringEncoding,
    pub context_slot_1: bool,
    pub import_roles: Seq<Assigned<ImportName, ImportRole>>,
    pub export_roles: Seq<Assigned<Text, ExportRole>>,
}

impl Drop for Record {
    fn drop(self) {
        let Record {
            wit: _,
            encoding: _,
            context_slot_1: _,
            import_roles: _,
            export_roles: _,
        } = self;
    }
}

impl Record {
    /// The roles of core imports and of core exports.
    pub fn into_roles(
        self,
    ) -> (
        Seq<Assigned<ImportName, ImportRole>>,
        Seq<Assigned<Text, ExportRole>>,
    )
        ensures { result ≡ (self.import_roles, self.export_roles) }
    {
        let Record {
            wit: _,
            encoding: _,
            context_slot_1: _,
            import_roles,
            export_roles,
        } = self;
        (import_roles, export_roles)
    }
}

impl PartialEq for ImportName {
    ghost use Rattle.std.proofs.Common.{rules};
    ghost use Rattle.std.specs.Cmp.Rules.{comparing};
    ghost use Rattle.record_values.specs.Names.{is_same_import};

    ghost eq = { is_same_import };

    ghost laws = { Prim.search (comparing, rules) };

    fn eq(&self, other: &Self) -> bool {
        self.module == other.module && self.field == other.field
    }
}

impl Eq for ImportName {
    ghost use Rattle.std.proofs.Common.{rules};
    ghost use Rattle.std.specs.Cmp.Rules.{comparing};

    ghost laws = { Prim.search (comparing, rules) };
}

impl Hash for ImportName {
    ghost use Rattle.std.proofs.Common.{rules};
    ghost use Rattle.std.specs.Prelude.{◌++◌};
    ghost use Rattle.std.specs.Cmp.Rules.{hashing};
    ghost use Rattle.std.specs.Hash as fed;

    ghost hash_input = { λ n. fed.str n.«module» ++ fed.str n.field };

    ghost respects_eq = { Prim.search (hashing, rules) };

    fn hash<H: Hasher>(&self, state: &mut H) {
        self.module.hash(state);
        self.field.hash(state);
    }
}
