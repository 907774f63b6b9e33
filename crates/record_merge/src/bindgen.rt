//! What the records of a module say, or several modules of their world.

ghost use Rattle.std.specs.Prelude.{◌≡◌};
ghost use Rattle.record_merge.specs.Said.{no_wit, no_roles, nothing_said};

use comp_lists::{Keyed, Text};
use record_values::{ExportRole, ImportName, ImportRole, ItemKey, Wit};
use standard_kinds::StringEncoding;
use std::alloc::Global;
use std::hash::{Hash, Hasher};

/// A function: by the key of the import or export that it is, or that has it, and by its own name.
#[derive(Debug, Drop)]
pub struct FunctionOf {
    pub key: ItemKey,
    pub function: Text,
}

/// The roles of a module's core imports and exports, the string encodings of its functions, and whether
/// the task's second slot of storage is free. The value for several modules has none of these.
pub struct Roles {
    pub import_roles: Keyed<ImportName, ImportRole>,
    /// By field.
    pub export_roles: Keyed<Text, ExportRole>,
    pub import_encodings: Keyed<FunctionOf, StringEncoding>,
    pub export_encodings: Keyed<FunctionOf, StringEncoding>,
    pub context_slot_1: bool,
}

impl Drop for Roles {
    fn drop(self) {
        let Roles {
            import_roles: _,
            export_roles: _,
            import_encodings: _,
            export_encodings: _,
            context_slot_1: _,
        } = self;
    }
}

/// What the records of one module say, or what several modules say of their world together.
pub struct Bindgen {
    pub wit: Wit,
    pub roles: Roles,
}

impl Drop for Bindgen {
    fn drop(self) {
        let Bindgen { wit: _, roles: _ } = self;
    }
}

impl PartialEq for FunctionOf {
    ghost use Rattle.std.proofs.Common.{rules};
    ghost use Rattle.std.specs.Cmp.Rules.{comparing};
    ghost use Rattle.record_merge.specs.Said.{is_same_function};

    ghost eq = { is_same_function };

    ghost laws = { Prim.search (comparing, rules) };

    fn eq(&self, other: &Self) -> bool {
        self.key == other.key && self.function == other.function
    }
}

impl Eq for FunctionOf {
    ghost use Rattle.std.proofs.Common.{rules};
    ghost use Rattle.std.specs.Cmp.Rules.{comparing};

    ghost laws = { Prim.search (comparing, rules) };
}

impl Hash for FunctionOf {
    ghost use Rattle.std.proofs.Common.{rules};
    ghost use Rattle.std.specs.Prelude.{◌++◌};
    ghost use Rattle.std.specs.Cmp.Rules.{hashing};
    ghost use Rattle.record_values.specs.Names.{key_kind, key_text};
    ghost use Rattle.std.specs.Hash as fed;

    ghost hash_input = { λ f. (fed.str (key_text f.key) ++ fed.u64 (key_kind f.key)) ++ fed.str f.function };

    ghost respects_eq = { Prim.search (hashing, rules) };

    fn hash<H: Hasher>(&self, state: &mut H) {
        self.key.hash(state);
        self.function.hash(state);
    }
}

/// An empty world.
pub(crate) fn empty_wit(alloc: Global) -> Wit
    ensures { result ≡ no_wit }
{
    Wit {
        interfaces: Keyed::new(alloc),
        imports: Keyed::new(alloc),
        exports: Keyed::new(alloc),
    }
}

/// No roles, and no encodings.
pub(crate) fn empty_roles(alloc: Global) -> Roles
    ensures { result ≡ no_roles }
{
    Roles {
        import_roles: Keyed::new(alloc),
        export_roles: Keyed::new(alloc),
        import_encodings: Keyed::new(alloc),
        export_encodings: Keyed::new(alloc),
        context_slot_1: false,
    }
}

/// A value that says nothing.
pub fn no_bindgen(alloc: Global) -> Bindgen
    ensures { result ≡ nothing_said }
{
    Bindgen {
        wit: empty_wit(alloc),
        roles: empty_roles(alloc),
    }
}
