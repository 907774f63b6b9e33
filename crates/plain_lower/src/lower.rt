//! The lower layer.

ghost use Rattle.std.specs.Prelude.{◌≡◌};

use crate::decoding::decode;
use comp_lists::SharedBytes;
use comp_worlds::{ComponentWorld, Lower};
use gathered_worlds::{merge, prepare};
use record_faults::PlainFault;
use record_merge::{Bindgen, no_bindgen};
use std::alloc::Global;
use world_values::{Gathered, Merged};

/// A lower layer by records: the component of a module is described as JSON in the custom sections
/// whose name begins `component-type`.
#[derive(Clone, Copy, Debug, PartialEq, Eq)]
pub struct PlainLower {}

impl PlainLower {
    pub fn new() -> PlainLower {
        PlainLower {}
    }
}

impl Lower for PlainLower {
    ghost use Rattle.record_merge.specs.Said.{nothing_said};
    ghost use Rattle.plain_lower.specs.Causes.{DecodeCause};
    ghost use Rattle.plain_lower.specs.Layer.{decoded};
    ghost use Rattle.gathered_worlds.specs.Causes.{MergeCause, PrepareCause};
    ghost use Rattle.gathered_worlds.specs.Layer.{is_memory, merged, prepared};

    type Bindgen = Bindgen;

    type Fault = PlainFault;

    ghost empty_is = { λ _. nothing_said };

    ghost decoded = { λ _ bytes. decoded bytes };

    ghost merged = { λ _ first second. merged first second };

    ghost prepared = { λ _ gathered. prepared gathered };

    ghost decode_cause = { λ _ bytes fault. DecodeCause bytes fault };

    ghost merge_cause = { λ _ first second fault. MergeCause first second fault };

    ghost prepare_cause = { λ _ gathered fault. PrepareCause gathered fault };

    ghost memory_fault = { λ _ fault. is_memory fault };

    fn empty(&self, alloc: Global) -> Bindgen {
        no_bindgen(alloc)
    }

    fn decode(&self, alloc: Global, bytes: Vec<u8>) -> Result<(SharedBytes, Bindgen), PlainFault> {
        Ok(decode(alloc, bytes)?)
    }

    fn merge(
        &self,
        alloc: Global,
        first: &Bindgen,
        second: &Bindgen,
    ) -> Result<Merged<Bindgen>, PlainFault> {
        Ok(merge(alloc, first, second)?)
    }

    fn prepare(
        &self,
        alloc: Global,
        gathered: &Gathered<Bindgen>,
    ) -> Result<ComponentWorld, PlainFault> {
        Ok(prepare(alloc, gathered)?)
    }

    fn is_memory(&self, fault: &PlainFault) -> bool {
        matches!(fault, PlainFault::Memory)
    }
}
