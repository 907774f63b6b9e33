//! How the functions of imported interfaces are lowered (Canonical ABI: `canon lower`, `resource.drop`).

ghost use Rattle.std.specs.Prelude.{◌≡◌};
ghost use Rattle.comp_worlds.specs.Lowerings.{abi_number};

use comp_lists::{Keyed, Text};
use comp_options::RequiredOptions;
use std::hash::{Hash, Hasher};
use wit_data::{AbiVariant, InterfaceId, TypeId, WasmSignature};

/// How an imported function is lowered.
#[derive(Debug, Drop)]
pub enum Lowering {
    /// Lowered before the module that calls it is instantiated, with options that need none of its items.
    Direct {
        options: RequiredOptions,
    },
    /// Called through a table, since its options need items of the module that calls it: the core
    /// signature of the call, and the options.
    Indirect {
        sig: WasmSignature,
        options: RequiredOptions,
    },
    /// `resource.drop` of a resource.
    ResourceDrop(TypeId),
}

/// A function of an imported interface: its name, and how it is called.
#[derive(Debug, Drop)]
pub struct LoweringKey {
    pub name: Text,
    pub abi: AbiVariant,
}

/// The number of a form: each has one of its own.
fn abi_number(abi: AbiVariant) -> u8
    ensures { result ≡ abi_number abi }
{
    match abi {
        AbiVariant::GuestImport => 0,
        AbiVariant::GuestExport => 1,
        AbiVariant::GuestImportAsync => 2,
        AbiVariant::GuestExportAsync => 3,
        AbiVariant::GuestExportAsyncStackful => 4,
    }
}

impl PartialEq for LoweringKey {
    ghost use Rattle.std.proofs.Common.{rules};
    ghost use Rattle.std.specs.Cmp.Rules.{comparing};
    ghost use Rattle.comp_worlds.specs.Lowerings.{is_same_lowering};

    ghost eq = { is_same_lowering };

    ghost laws = { Prim.search (comparing, rules) };

    fn eq(&self, other: &Self) -> bool {
        self.name == other.name && abi_number(self.abi) == abi_number(other.abi)
    }
}

impl Eq for LoweringKey {
    ghost use Rattle.std.proofs.Common.{rules};
    ghost use Rattle.std.specs.Cmp.Rules.{comparing};

    ghost laws = { Prim.search (comparing, rules) };
}

impl Hash for LoweringKey {
    ghost use Rattle.std.proofs.Common.{rules};
    ghost use Rattle.std.specs.Prelude.{◌++◌};
    ghost use Rattle.std.specs.Cmp.Rules.{hashing};
    ghost use Rattle.std.specs.Hash as fed;

    ghost hash_input = { λ k. fed.str k.name ++ fed.u8 (abi_number k.abi) };

    ghost respects_eq = { Prim.search (hashing, rules) };

    fn hash<H: Hasher>(&self, state: &mut H) {
        self.name.hash(state);
        abi_number(self.abi).hash(state);
    }
}

/// What is imported of one interface, or of the root where there is none: each function that is called,
/// in the order of first mention, and its lowering.
#[derive(Drop)]
pub struct ImportedInterface {
    pub lowerings: Keyed<LoweringKey, Lowering>,
    pub interface: Option<InterfaceId>,
}
