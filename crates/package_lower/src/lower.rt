//! The lower layer.

ghost use Rattle.std.specs.Prelude.{◌≡◌, false};

use crate::decoding::decode;
use crate::fault::LowerFault;
use comp_lists::SharedBytes;
use comp_worlds::{ComponentWorld, Lower};
use gathered_worlds::{merge, prepare};
use record_faults::PlainFault;
use record_merge::{Bindgen, no_bindgen};
use std::alloc::Global;
use world_values::{Gathered, Merged};

/// A lower layer by WIT packages and by records: the component of a module is described by the custom sections whose
/// name begins `component-type`, each a package in binary form or a record in JSON. Where there is a package, or no
/// such section, the names of core imports and core exports say their roles (component model, build targets).
#[derive(Clone, Copy, Debug, PartialEq, Eq)]
pub struct PackageLower {
    /// Whether names of the older form, with words in square brackets, have no role.
    pub reject_legacy_names: bool,
}

impl PackageLower {
    /// The layer that takes both forms of names.
    pub fn new() -> PackageLower
        ensures { result ≡ record { reject_legacy_names = false } }
    {
        PackageLower {
            reject_legacy_names: false,
        }
    }
}

impl Lower for PackageLower {
    ghost use Rattle.record_merge.specs.Said.{nothing_said};
    ghost use Rattle.gathered_worlds.specs.Layer.{merged, prepared};
    ghost use Rattle.package_lower.specs.Causes.{DecodeCause};
    ghost use Rattle.package_lower.specs.Layer.{is_memory, decoded, MergeCause, PrepareCause};

    type Bindgen = Bindgen;

    type Fault = LowerFault;

    ghost empty_is = { λ _. nothing_said };

    ghost decoded = { λ l bytes. decoded l.reject_legacy_names bytes };

    ghost merged = { λ _ first second. merged first second };

    ghost prepared = { λ _ gathered. prepared gathered };

    ghost decode_cause = { λ l bytes fault. DecodeCause l.reject_legacy_names bytes fault };

    ghost merge_cause = { λ _ first second fault. MergeCause first second fault };

    ghost prepare_cause = { λ _ gathered fault. PrepareCause gathered fault };

    ghost memory_fault = { λ _ fault. is_memory fault };

    fn empty(&self, alloc: Global) -> Bindgen {
        no_bindgen(alloc)
    }

    fn decode(&self, alloc: Global, bytes: Vec<u8>) -> Result<(SharedBytes, Bindgen), LowerFault> {
        Ok(decode(alloc, self.reject_legacy_names, bytes)?)
    }

    fn merge(
        &self,
        alloc: Global,
        first: &Bindgen,
        second: &Bindgen,
    ) -> Result<Merged<Bindgen>, LowerFault> {
        Ok(merge(alloc, first, second)?)
    }

    fn prepare(
        &self,
        alloc: Global,
        gathered: &Gathered<Bindgen>,
    ) -> Result<ComponentWorld, LowerFault> {
        Ok(prepare(alloc, gathered)?)
    }

    fn is_memory(&self, fault: &LowerFault) -> bool {
        matches!(fault, LowerFault::Plain(PlainFault::Memory))
    }
}
