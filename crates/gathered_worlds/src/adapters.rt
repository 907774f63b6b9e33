//! The adapters of a world.

ghost use Rattle.std.specs.Prelude.{◌≡◌, ◌≢◌, [], IfErr, IfOk, IsOk, Err, Ok, None, OnOk};
ghost use Rattle.std.specs.List.{list_any, AllByRecursion};
ghost use Rattle.std.specs.Map.{lookup};
ghost use Rattle.std.specs.Str.{bytes_eq};
ghost use Rattle.record_faults.specs.Faults.{Gives};
ghost use Rattle.record_faults.specs.declared.fault.Failure.TheVariants as failures;
ghost use Rattle.record_faults.specs.declared.fault.Refusal.{Refusal as RefusalValue};
ghost use Rattle.supported_worlds.specs.Modules.{module_of};
ghost use Rattle.gathered_worlds.specs.Preparing.{is_plain, adapters_pass, adapter_parts, adapters_after};
ghost use Rattle.gathered_worlds.specs.Guarantees.{IsUsable, user_module, IsSoundPart};
ghost use Rattle.gathered_worlds.specs.Causes.{AdapterCause, AdaptersCause};
ghost use Rattle.gathered_worlds.specs.Adding.{IsAdapterOf, IsAdded};

use crate::arguments::arguments_of;
use crate::modules::{ModuleParts, module_parts};
use crate::reach::{Reach, others_for};
use comp_lists::{Keyed, Text};
use comp_roles::LibraryInfo;
use comp_worlds::WorldAdapter;
use record_faults::{Failure, Refusal};
use record_merge::Bindgen;
use record_resolve::Resolved;
use std::alloc::{AllocError, Global};
use world_values::GatheredAdapter;

// ---- which may be there

/// Whether there is an adapter that is not a library.
fn is_any_plain(adapters: &Keyed<Text, GatheredAdapter<Bindgen>>) -> bool
    ensures { result ≡ list_any is_plain adapters.now }
{
    for (_, adapter) in adapters.iter() {
        if adapter.library_info.is_none() {
            return true;
        }
    }
    false
}

/// Refuses adapters that would grow main's memory.
pub(crate) fn refuse_adapters(
    grows: bool,
    adapters: &Keyed<Text, GatheredAdapter<Bindgen>>,
) -> Result<(), Failure>
    ensures { Gives (λ _. tt) result (adapters_pass grows adapters.now) }
{
    if grows && is_any_plain(adapters) {
        Err(Failure::Refused(Refusal::MemoryGrow))
    } else {
        Ok(())
    }
}

// ---- the adapters

/// The same information on a library, if the adapter is one.
fn copied_info(alloc: Global, info: &Option<LibraryInfo>) -> Result<Option<LibraryInfo>, AllocError>
    ensures { IfOk result (λ o. o ≡ info.now) }
{
    match info {
        Some(info) => {
            let info = info.clone(alloc)?;
            Ok(Some(info))
        }
        None => Ok(None),
    }
}

/// The adapter of a module.
fn put_together(parts: ModuleParts, library_info: Option<LibraryInfo>) -> WorldAdapter
    ensures { result
        ≡ record
        { info = parts.info; required_exports = parts.required; library_info = library_info } }
{
    let ModuleParts { info, required } = parts;
    WorldAdapter {
        info,
        required_exports: required,
        library_info,
    }
}

/// The module of an adapter.
#[tactic(auto, unfolding(crate::specs::Preparing::adapter_parts))]
fn adapter_parts(
    alloc: Global,
    resolved: &Resolved,
    reach: &Reach,
    adapter: &GatheredAdapter<Bindgen>,
) -> Result<ModuleParts, Failure>
    requires { IsUsable resolved.now }
    ensures exact { Gives (λ p. p) result (adapter_parts resolved.now reach.now adapter.now) }
    ensures sound { IfOk result (λ p. IsSoundPart resolved.now (user_module p)) }
    ensures cause { IfErr result (λ e. (f : RefusalValue)
        → e ≡ failures.Refused f
        → AdapterCause resolved.now reach.now adapter.now f) }
    ensures refused { IsOk result → (f : RefusalValue) → ¬ AdapterCause resolved.now reach.now adapter.now f }
{
    let others = others_for(reach, &adapter.library_info);
    let arguments = arguments_of(alloc, &adapter.library_info)?;
    let parts = module_parts(alloc, resolved, others, &arguments, &adapter.part)?;
    Ok(parts)
}

/// The adapter of a gathered one.
fn adapter_of(
    alloc: Global,
    resolved: &Resolved,
    reach: &Reach,
    adapter: &GatheredAdapter<Bindgen>,
) -> Result<WorldAdapter, Failure>
    requires { IsUsable resolved.now }
    ensures ok { IfOk result (IsAdapterOf resolved.now reach.now adapter.now) }
    ensures err { IfErr result
        (λ e. e ≢ failures.Memory → adapter_parts resolved.now reach.now adapter.now ≡ Err e) }
    ensures cause { IfErr result (λ e. (f : RefusalValue)
        → e ≡ failures.Refused f
        → AdapterCause resolved.now reach.now adapter.now f) }
{
    let library_info = copied_info(alloc, &adapter.library_info)?;
    match adapter_parts(alloc, resolved, reach, adapter) {
        Ok(parts) => Ok(put_together(parts, library_info)),
        Err(failure) => {
            drop(library_info);
            Err(failure)
        }
    }
}

/// Adds the adapter of a gathered one, under its name.
#[tactic(auto, using(crate::proofs::Adding::is_added))]
fn add_adapter(
    alloc: Global,
    resolved: &Resolved,
    reach: &Reach,
    made: &mut Keyed<Text, WorldAdapter>,
    name: &Text,
    adapter: &GatheredAdapter<Bindgen>,
) -> Result<(), Failure>
    requires usable { IsUsable resolved.now }
    requires absent { lookup (bytes_eq name.now) made.old ≡ None }
    ensures ok { OnOk result
        (IsAdded resolved.now reach.now (name.now, adapter.now) made.old made.new) }
    ensures err { IfErr result
        (λ e. e ≢ failures.Memory → adapter_parts resolved.now reach.now adapter.now ≡ Err e) }
    ensures cause { IfErr result (λ e. (f : RefusalValue)
        → e ≡ failures.Refused f
        → AdapterCause resolved.now reach.now adapter.now f) }
{
    let name = name.clone(alloc)?;
    match adapter_of(alloc, resolved, reach, adapter) {
        Ok(adapter) => {
            made.insert(name, adapter)?;
            Ok(())
        }
        Err(failure) => {
            drop(name);
            Err(failure)
        }
    }
}

/// The adapters of gathered ones, in order.
#[tactic(auto, using(crate::proofs::Adding::adapters_start, crate::proofs::Adding::adapters_end, crate::proofs::Adding::adapters_sound))]
pub(crate) fn prepare_adapters(
    alloc: Global,
    resolved: &Resolved,
    reach: &Reach,
    adapters: &Keyed<Text, GatheredAdapter<Bindgen>>,
) -> Result<Keyed<Text, WorldAdapter>, Failure>
    requires { IsUsable resolved.now }
    ensures exact { Gives (λ made. made) result
        (adapters_after resolved.now reach.now [] adapters.now) }
    ensures sound { IfOk result (AllByRecursion (λ a. IsSoundPart resolved.now (module_of a))) }
    ensures cause { IfErr result (λ e. (f : RefusalValue)
        → e ≡ failures.Refused f
        → AdaptersCause resolved.now reach.now adapters.now f) }
    ensures refused { IsOk result → (f : RefusalValue) → ¬ AdaptersCause resolved.now reach.now adapters.now f }
{
    let mut made = Keyed::new(alloc);
    for (name, adapter) in adapters.iter() {
        add_adapter(alloc, resolved, reach, &mut made, name, adapter)?;
    }
    Ok(made)
}
