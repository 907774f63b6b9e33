//! The lower layer: it reads a module's metadata from the module's bytes, merges the metadata of several
//! modules, and prepares the validated world.

ghost use Rattle.std.specs.Prelude.{◌≡◌, ℕ, List, Bool, false, IfOk, IfErr, IsSome, IsOk};
ghost use Rattle.comp_worlds.specs.Encodable.{IsEncodable};
ghost use Rattle.comp_worlds.specs.WorldTables.{HasTables};
ghost use Rattle.comp_worlds.specs.Gathering.{HasModules};
ghost use Rattle.comp_worlds.specs.declared.world.ComponentWorld.{ComponentWorld};
ghost use Rattle.world_values.specs.declared.gathered.Gathered.{Gathered};
ghost use Rattle.world_values.specs.declared.gathered.Merged.{Merged};

use crate::world::ComponentWorld;
use comp_lists::SharedBytes;
use std::alloc::Global;
use std::error::Error;
use world_values::{Gathered, Merged};

/// A lower layer. The ghost members specify it: `decoded`, `merged` and `prepared` are its own
/// definitions, the causes say when a fault is right. A fault of memory needs no cause; a call does not
/// return `Ok` where a cause holds.
pub trait Lower {
    /// The metadata of modules, in a form of the layer's own.
    type Bindgen: Drop;

    type Fault: Error;

    /// Empty metadata.
    ghost empty_is: { Self → Self.Bindgen };

    /// The bytes of a module without the custom sections that the layer read, and the metadata in those.
    ghost decoded: { Self → List ℕ → List ℕ × Self.Bindgen };

    /// The merged metadata of two modules, and the keys that the second exports.
    ghost merged: { Self → Self.Bindgen → Self.Bindgen → Merged Self.Bindgen };

    /// The world of what was gathered.
    ghost prepared: { Self → Gathered Self.Bindgen → ComponentWorld };

    ghost decode_cause: { Self → List ℕ → Self.Fault → Type 0 };

    ghost merge_cause: { Self → Self.Bindgen → Self.Bindgen → Self.Fault → Type 0 };

    ghost prepare_cause: { Self → Gathered Self.Bindgen → Self.Fault → Type 0 };

    /// The faults that are out of memory.
    ghost memory_fault: { Self → Self.Fault → Bool };

    fn empty(&self, alloc: Global) -> Self::Bindgen
        ensures { result ≡ empty_is self.now };

    /// Reads a module's metadata from its bytes, which it takes over: the bytes that it returns can
    /// stay in their buffer.
    fn decode(
        &self,
        alloc: Global,
        bytes: Vec<u8>,
    ) -> Result<(SharedBytes, Self::Bindgen), Self::Fault>
        ensures ok { IfOk result (λ p. p ≡ decoded self.now bytes.items) }
        ensures refused { IsOk result → (f : Self.Fault) → ¬ decode_cause self.now bytes.items f }
        ensures cause { IfErr result
            (λ f. memory_fault self.now f ≡ false → decode_cause self.now bytes.items f) };

    /// Merges the metadata so far with that of a further module.
    fn merge(
        &self,
        alloc: Global,
        first: &Self::Bindgen,
        second: &Self::Bindgen,
    ) -> Result<Merged<Self::Bindgen>, Self::Fault>
        ensures ok { IfOk result (λ m. m ≡ merged self.now first.now second.now) }
        ensures refused { IsOk result → (f : Self.Fault) → ¬ merge_cause self.now first.now second.now f }
        ensures cause { IfErr result
            (λ f. memory_fault self.now f ≡ false → merge_cause self.now first.now second.now f) };

    /// The validated world of what was gathered: its modules are the gathered ones, byte for byte, and its tables are
    /// those that follow from its parts.
    fn prepare(
        &self,
        alloc: Global,
        gathered: &Gathered<Self::Bindgen>,
    ) -> Result<ComponentWorld, Self::Fault>
        requires { IsSome gathered.now.main }
        ensures ok { IfOk result (λ w. w ≡ prepared self.now gathered.now) }
        ensures valid { IfOk result IsEncodable }
        ensures tables { IfOk result HasTables }
        ensures modules { IfOk result (HasModules gathered.now) }
        ensures refused { IsOk result → (f : Self.Fault) → ¬ prepare_cause self.now gathered.now f }
        ensures cause { IfErr result
            (λ f. memory_fault self.now f ≡ false → prepare_cause self.now gathered.now f) };

    /// Whether a fault is out of memory.
    fn is_memory(&self, fault: &Self::Fault) -> bool
        ensures { result ≡ memory_fault self.now fault.now };
}
