//! The instances from which a fixup module imports.

ghost use Rattle.std.specs.Prelude.{◌≡◌};
ghost use Rattle.fixup_modules.specs.Instances.{instance_kind, instance_name};

use comp_lists::{Text, TryClone};
use std::alloc::{AllocError, Global};
use std::hash::{Hash, Hasher};

/// An instance from which a fixup module imports.
#[derive(Drop)]
pub enum ImportedInstance {
    /// The instance of the module of shims.
    Shim,
    /// The instance of main.
    Main,
    /// The functions that the shims are to forward to, each under the name of its shim.
    Actual,
    /// The instance of an adapter, by the adapter's name.
    Adapter(Text),
}

impl ImportedInstance {
    /// The name of the instance among the arguments of the fixup module.
    pub fn name(&self) -> &str
        ensures { result.now ≡ instance_name self.now }
    {
        match self {
            ImportedInstance::Shim => "shim",
            ImportedInstance::Main => "main",
            ImportedInstance::Actual => "actual",
            ImportedInstance::Adapter(name) => name.as_str(),
        }
    }

    /// The number of the variant.
    fn kind(&self) -> u8
        ensures { result ≡ instance_kind self.now }
    {
        match self {
            ImportedInstance::Shim => 0,
            ImportedInstance::Main => 1,
            ImportedInstance::Actual => 2,
            ImportedInstance::Adapter(_) => 3,
        }
    }
}

impl TryClone for ImportedInstance {
    fn try_clone(&self, alloc: Global) -> Result<ImportedInstance, AllocError> {
        match self {
            ImportedInstance::Shim => Ok(ImportedInstance::Shim),
            ImportedInstance::Main => Ok(ImportedInstance::Main),
            ImportedInstance::Actual => Ok(ImportedInstance::Actual),
            ImportedInstance::Adapter(name) => Ok(ImportedInstance::Adapter(name.clone(alloc)?)),
        }
    }
}

impl PartialEq for ImportedInstance {
    ghost use Rattle.std.proofs.Common.{rules};
    ghost use Rattle.std.specs.Cmp.Rules.{comparing};
    ghost use Rattle.fixup_modules.specs.Instances.{is_same_instance};

    ghost eq = { is_same_instance };

    ghost laws = { Prim.search (comparing, rules) };

    fn eq(&self, other: &Self) -> bool {
        self.kind() == other.kind() && self.name() == other.name()
    }
}

impl Eq for ImportedInstance {
    ghost use Rattle.std.proofs.Common.{rules};
    ghost use Rattle.std.specs.Cmp.Rules.{comparing};

    ghost laws = { Prim.search (comparing, rules) };
}

impl Hash for ImportedInstance {
    ghost use Rattle.std.proofs.Common.{rules};
    ghost use Rattle.std.specs.Prelude.{◌++◌};
    ghost use Rattle.std.specs.Cmp.Rules.{hashing};
    ghost use Rattle.std.specs.Hash as fed;
    ghost use Rattle.fixup_modules.specs.Instances.{instance_kind, instance_name};

    ghost hash_input = { λ i. fed.u8 (instance_kind i) ++ fed.str (instance_name i) };

    ghost respects_eq = { Prim.search (hashing, rules) };

    fn hash<H: Hasher>(&self, state: &mut H) {
        self.kind().hash(state);
        self.name().hash(state);
    }
}
