//! What the layers do.

ghost use Rattle.std.specs.Prelude.{◌≡◌, ◌≢◌, ◌⊎◌, [], IfOk, IfErr, IsOk, MatchBool, take};
ghost use Rattle.core_types.specs.Core.{core_preamble};
ghost use Rattle.comp_worlds.specs.Encodable.{IsEncodable};
ghost use Rattle.comp_worlds.specs.WorldTables.{HasTables};
ghost use Rattle.tests_of_encoder.specs.Stub.{stub_world, decoded_of};
ghost use Rattle.tests_of_encoder.specs.declared.layers.StubFault.TheVariants.{Memory, Refused};

use crate::layers::{StubFault, StubLower};
use crate::worlds::world;
use comp_lists::{Keyed, Seq, SharedBytes, Text};
use comp_worlds::{ComponentWorld, Lower};
use std::alloc::{AllocError, Global};
use world_values::{Gathered, GatheredAdapter, Merged};

impl From<AllocError> for StubFault {
    ghost from_gives = { λ _ e. e ≡ Memory };

    fn from(_error: AllocError) -> StubFault {
        StubFault::Memory
    }
}

/// Whether these bytes begin with the preamble of a core module.
fn is_core_module(bytes: &[u8]) -> bool
    ensures { MatchBool result (take 8 bytes.now ≡ core_preamble)
        (take 8 bytes.now ≢ core_preamble) }
{
    bytes.starts_with(b"\0asm\x01\0\0\0")
}

/// Whether there is an adapter.
fn has_adapters(adapters: &Keyed<Text, GatheredAdapter<()>>) -> bool
    ensures { MatchBool result (adapters.now ≢ []) (adapters.now ≡ []) }
{
    let mut entries = adapters.iter();
    entries.next().is_some()
}

/// The world of a core module.
fn world_of_core(alloc: Global, bytes: &[u8]) -> Result<ComponentWorld, StubFault>
    ensures ok { IfOk result (λ w. w ≡ stub_world bytes.now) }
    ensures valid { IfOk result IsEncodable }
    ensures tables { IfOk result HasTables }
    ensures refused { IsOk result → take 8 bytes.now ≡ core_preamble }
    ensures cause { IfErr result
        (λ f. (f ≡ Memory) ⊎ (f ≡ Refused) × (take 8 bytes.now ≢ core_preamble)) }
{
    if is_core_module(bytes) {
        Ok(world(alloc, bytes)?)
    } else {
        Err(StubFault::Refused)
    }
}

/// The world of a core module, where it has no adapters.
fn world_alone(
    alloc: Global,
    bytes: &[u8],
    adapters: &Keyed<Text, GatheredAdapter<()>>,
) -> Result<ComponentWorld, StubFault>
    ensures ok { IfOk result (λ w. w ≡ stub_world bytes.now) }
    ensures valid { IfOk result IsEncodable }
    ensures tables { IfOk result HasTables }
    ensures refused { IsOk result → (take 8 bytes.now ≡ core_preamble) × (adapters.now ≡ []) }
    ensures cause { IfErr result (λ f. (f ≡ Memory)
        ⊎ (f ≡ Refused)
        × ((take 8 bytes.now ≢ core_preamble) ⊎ (adapters.now ≢ []))) }
{
    if has_adapters(adapters) {
        return Err(StubFault::Refused);
    }
    world_of_core(alloc, bytes)
}

/// A module's bytes as they are, with no metadata.
fn decoded(bytes: Vec<u8>) -> Result<(SharedBytes, ()), AllocError>
    ensures { IfOk result (λ p. p ≡ decoded_of bytes.items) }
{
    Ok((SharedBytes::from_vec(bytes)?, ()))
}

/// The same of a core module.
fn decoded_core(bytes: Vec<u8>) -> Result<(SharedBytes, ()), StubFault>
    ensures ok { IfOk result (λ p. p ≡ decoded_of bytes.items) }
    ensures refused { IsOk result → take 8 bytes.items ≡ core_preamble }
    ensures cause { IfErr result
        (λ f. (f ≡ Memory) ⊎ (f ≡ Refused) × (take 8 bytes.items ≢ core_preamble)) }
{
    if is_core_module(&bytes) {
        Ok(decoded(bytes)?)
    } else {
        Err(StubFault::Refused)
    }
}

/// An adapter as a text: its name and the number of its bytes, and of a library that of its arguments.
fn listed(alloc: Global, name: &str, adapter: &GatheredAdapter<()>) -> Result<String, AllocError> {
    let bytes = adapter.part.bytes.len();
    match &adapter.library_info {
        None => format!(in alloc; "{name}={bytes}"),
        Some(info) => format!(in alloc; "{name}={bytes}+{}", info.arguments.len()),
    }
}

/// The adapters as a text, in order.
fn listing(alloc: Global, adapters: &Keyed<Text, GatheredAdapter<()>>) -> Result<Text, AllocError> {
    let mut text = String::new(alloc);
    for (name, adapter) in adapters.iter() {
        if !text.is_empty() {
            text.push_str(" ")?;
        }
        text.push_str(&listed(alloc, name.as_str(), adapter)?)?;
    }
    Ok(Text::from_string(text))
}

/// The refusal that reports the adapters.
fn gathered_fault(alloc: Global, adapters: &Keyed<Text, GatheredAdapter<()>>) -> StubFault
    ensures { result ≢ Refused }
{
    match listing(alloc, adapters) {
        Ok(adapters) => StubFault::Gathered { adapters },
        Err(_) => StubFault::Memory,
    }
}

impl Lower for StubLower {
    type Bindgen = ();

    type Fault = StubFault;

    ghost use Rattle.tests_of_encoder.specs.Stub.{decoded_of, merged_of, world_of, DecodeCause, PrepareCause, is_memory};

    ghost empty_is = { λ _. tt };

    ghost decoded = { λ _. decoded_of };

    ghost merged = { λ _. merged_of };

    ghost prepared = { λ _. world_of };

    ghost decode_cause = { DecodeCause };

    ghost merge_cause = { λ _ first second f. ⊥ };

    ghost prepare_cause = { PrepareCause };

    ghost memory_fault = { λ _. is_memory };

    fn empty(&self, _alloc: Global) {}

    fn decode(&self, _alloc: Global, bytes: Vec<u8>) -> Result<(SharedBytes, ()), StubFault> {
        match self {
            StubLower::Listing => decoded_core(bytes),
            _ => Ok(decoded(bytes)?),
        }
    }

    fn merge(&self, alloc: Global, _first: &(), _second: &()) -> Result<Merged<()>, StubFault> {
        Ok(Merged {
            combined: (),
            exports: Seq::new(alloc),
        })
    }

    #[tactic(auto, using(crate::proofs::Stubs::no_cause, crate::proofs::Stubs::with_modules))]
    fn prepare(&self, alloc: Global, gathered: &Gathered<()>) -> Result<ComponentWorld, StubFault> {
        match self {
            StubLower::Refusing => Err(StubFault::Refused),
            StubLower::Listing => Err(gathered_fault(alloc, &gathered.adapters)),
            StubLower::NoEncoding => match &gathered.main {
                Some(part) => world_alone(alloc, part.bytes.as_slice(), &gathered.adapters),
                None => unreachable!(),
            },
        }
    }

    fn is_memory(&self, fault: &StubFault) -> bool {
        *fault == StubFault::Memory
    }
}
