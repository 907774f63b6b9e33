//! What is known of the functions of core exports.

ghost use Rattle.std.specs.Prelude.{◌≡◌, IfOk};
ghost use Rattle.record_exports.specs.Functions.{known_by, IsOf};

use comp_lists::{Keyed, Text};
use comp_roles::{Export, FunctionKey};
use std::alloc::{AllocError, Global};
use wit_data::AbiVariant;
use world_values::{callbacks, lifted_functions};

/// The functions of core exports, each with the form in which it is called, and the callbacks of
/// those that have one.
#[derive(Drop)]
pub(crate) struct Functions {
    abis: Keyed<FunctionKey, AbiVariant>,
    callbacks: Keyed<FunctionKey, Text>,
}

impl Functions {
    /// The functions of these exports. Of several exports of one function the first counts.
    #[tactic(auto, using(crate::proofs::Knowing::tables_are))]
    pub(crate) fn of(alloc: Global, exports: &Keyed<Text, Export>) -> Result<Functions, AllocError>
        ensures { IfOk result (λ f. IsOf f exports.now) }
    {
        let abis = lifted_functions(alloc, exports)?;
        let callbacks = callbacks(alloc, exports)?;
        Ok(Functions { abis, callbacks })
    }

    /// How a function is called, if some export has it.
    pub(crate) fn abi(&self, function: &FunctionKey) -> Option<AbiVariant>
        ensures { result ≡ (known_by self.now).abi function.now }
    {
        self.abis.get(function).copied()
    }

    pub(crate) fn has_callback(&self, function: &FunctionKey) -> bool
        ensures { result ≡ (known_by self.now).called_back function.now }
    {
        self.callbacks.contains_key(function)
    }
}
