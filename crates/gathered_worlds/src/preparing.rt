//! The validated world.

ghost use Rattle.std.specs.Prelude.{◌≡◌, ◌≢◌, [], IfOk, IfErr, IsOk, IsSome, Ok, Some};
ghost use Rattle.comp_worlds.specs.Encodable.{IsEncodable};
ghost use Rattle.comp_worlds.specs.WorldTables.{HasTables};
ghost use Rattle.record_faults.specs.Faults.{Gives, flat};
ghost use Rattle.record_faults.specs.declared.fault.Failure.TheVariants as failures;
ghost use Rattle.record_faults.specs.declared.fault.PlainFault.{PlainFault};
ghost use Rattle.record_faults.specs.declared.fault.Refusal.{Refusal as RefusalRecord};
ghost use Rattle.supported_worlds.specs.Guarantees.{HasSoundParts};
ghost use Rattle.gathered_worlds.specs.Preparing.{module_parts, world_with, parts_within, world_parts, linked_world, preparing_modules, preparing_if, preparing};
ghost use Rattle.gathered_worlds.specs.Guarantees.{IsUsable, user_module, IsSoundPart};
ghost use Rattle.gathered_worlds.specs.Reach.{reach_of};
ghost use Rattle.gathered_worlds.specs.Causes.{ModuleCause, PartsCause, WholeCause, WorldCause, PrepareCause};
ghost use Rattle.gathered_worlds.specs.Adding.{AreModulesOf};

use crate::adapters::{prepare_adapters, refuse_adapters};
use crate::combined::resolve_combined;
use crate::modules::{ModuleParts, module_parts};
use crate::reach::{Reach, reach_of};
use comp_lists::{Keyed, Text};
use comp_worlds::{ComponentWorld, WorldAdapter, WorldParts};
use linked_modules::check_links;
use record_faults::{Failure, Refusal};
use record_imports::Arguments;
use record_merge::Bindgen;
use record_resolve::Resolved;
use std::alloc::Global;
use supported_worlds::encoded_world;
use wit_data::{Resolve, WorldId};
use world_values::{Gathered, GatheredAdapter, Part};

/// Main and the adapters of a world.
#[derive(Drop)]
struct Modules {
    main: ModuleParts,
    adapters: Keyed<Text, WorldAdapter>,
}

/// Main, which has no arguments.
fn main_parts(
    alloc: Global,
    resolved: &Resolved,
    reach: &Reach,
    main: &Part<Bindgen>,
) -> Result<ModuleParts, Failure>
    requires { IsUsable resolved.now }
    ensures exact { Gives (λ p. p) result (module_parts resolved.now reach.now.main [] main.now) }
    ensures sound { IfOk result (λ p. IsSoundPart resolved.now (user_module p)) }
    ensures cause { IfErr result (λ e. (f : RefusalRecord)
        → e ≡ failures.Refused f
        → ModuleCause resolved.now reach.now.main [] main.now f) }
    ensures refused { IsOk result
        → (f : RefusalRecord)
        → ¬ ModuleCause resolved.now reach.now.main [] main.now f }
{
    let arguments = Arguments::of(alloc, &[])?;
    let parts = module_parts(alloc, resolved, &reach.main, &arguments, main);
    drop(arguments);
    parts
}

/// Main and the adapters of gathered ones, which may import these exports of other modules: main is
/// checked first, and then the adapters in order.
fn modules_within(
    alloc: Global,
    resolved: &Resolved,
    reach: &Reach,
    main: &Part<Bindgen>,
    adapters: &Keyed<Text, GatheredAdapter<Bindgen>>,
) -> Result<Modules, Failure>
    requires { IsUsable resolved.now }
    ensures ok { IfOk result (AreModulesOf resolved.now reach.now main.now adapters.now) }
    ensures err { IfErr result (λ e. e ≢ failures.Memory
        → parts_within resolved.now reach.now main.now adapters.now ≡ Err e) }
    ensures cause { IfErr result (λ e. (f : RefusalRecord)
        → e ≡ failures.Refused f
        → PartsCause resolved.now reach.now main.now adapters.now f) }
{
    let main = main_parts(alloc, resolved, reach, main)?;
    match prepare_adapters(alloc, resolved, reach, adapters) {
        Ok(adapters) => Ok(Modules { main, adapters }),
        Err(failure) => {
            drop(main);
            Err(failure)
        }
    }
}

/// Main and the adapters of gathered ones.
fn modules_of(
    alloc: Global,
    resolved: &Resolved,
    main: &Part<Bindgen>,
    adapters: &Keyed<Text, GatheredAdapter<Bindgen>>,
) -> Result<Modules, Failure>
    requires { IsUsable resolved.now }
    ensures ok { IfOk result
        (AreModulesOf resolved.now (reach_of adapters.now) main.now adapters.now) }
    ensures err { IfErr result
        (λ e. e ≢ failures.Memory → world_parts resolved.now main.now adapters.now ≡ Err e) }
    ensures cause { IfErr result (λ e. (f : RefusalRecord)
        → e ≡ failures.Refused f
        → PartsCause resolved.now (reach_of adapters.now) main.now adapters.now f) }
{
    let reach = reach_of(alloc, adapters)?;
    let modules = modules_within(alloc, resolved, &reach, main, adapters);
    drop(reach);
    modules
}

/// The parts of a world of these modules.
fn put_together(resolve: Resolve, modules: Modules, can_use_context_slot_1: bool) -> WorldParts
    ensures { result ≡ world_with resolve modules.main modules.adapters can_use_context_slot_1 }
{
    let Modules { main, adapters } = modules;
    let ModuleParts { info, required } = main;
    WorldParts {
        resolve,
        world: WorldId { index: 0 },
        main: info,
        main_exports: required,
        adapters,
        can_use_context_slot_1,
    }
}

/// The parts of the world of main and the adapters.
fn world_parts(
    alloc: Global,
    resolved: Resolved,
    main: &Part<Bindgen>,
    adapters: &Keyed<Text, GatheredAdapter<Bindgen>>,
) -> Result<WorldParts, Failure>
    requires { IsUsable resolved }
    ensures exact { Gives (λ p. p) result (world_parts resolved main.now adapters.now) }
    ensures sound { IfOk result HasSoundParts }
    ensures cause { IfErr result (λ e. (f : RefusalRecord)
        → e ≡ failures.Refused f
        → PartsCause resolved (reach_of adapters.now) main.now adapters.now f) }
    ensures refused { IsOk result
        → (f : RefusalRecord)
        → ¬ PartsCause resolved (reach_of adapters.now) main.now adapters.now f }
{
    let slot_1 = main.own.roles.context_slot_1;
    match modules_of(alloc, &resolved, main, adapters) {
        Ok(modules) => Ok(put_together(resolved.into_resolve(), modules, slot_1)),
        Err(failure) => {
            drop(resolved);
            Err(failure)
        }
    }
}

/// The world of these parts, where its modules are given what they import, and all of it is encoded yet.
fn linked_world(alloc: Global, parts: WorldParts) -> Result<ComponentWorld, Failure>
    requires { HasSoundParts parts }
    ensures exact { Gives (λ w. w) result (linked_world parts) }
    ensures valid { IfOk result IsEncodable }
    ensures tables { IfOk result HasTables }
    ensures cause { IfErr result
        (λ e. (f : RefusalRecord) → e ≡ failures.Refused f → WholeCause parts f) }
    ensures refused { IsOk result → (f : RefusalRecord) → ¬ WholeCause parts f }
{
    match check_links(alloc, &parts) {
        Ok(()) => encoded_world(alloc, parts),
        Err(failure) => {
            drop(parts);
            Err(failure)
        }
    }
}

/// The world of main and the adapters, where all of it is encoded yet.
fn prepare_modules(
    alloc: Global,
    resolved: Resolved,
    main: &Part<Bindgen>,
    adapters: &Keyed<Text, GatheredAdapter<Bindgen>>,
) -> Result<ComponentWorld, Failure>
    requires { IsUsable resolved }
    ensures exact { Gives (λ w. w) result (preparing_modules resolved main.now adapters.now) }
    ensures valid { IfOk result IsEncodable }
    ensures tables { IfOk result HasTables }
    ensures cause { IfErr result (λ e. (f : RefusalRecord)
        → e ≡ failures.Refused f
        → WorldCause resolved main.now adapters.now f) }
    ensures refused { IsOk result → (f : RefusalRecord) → ¬ WorldCause resolved main.now adapters.now f }
{
    match world_parts(alloc, resolved, main, adapters) {
        Ok(parts) => linked_world(alloc, parts),
        Err(failure) => Err(failure),
    }
}

/// The world of main, which must be there, and the adapters.
fn prepare_some(
    alloc: Global,
    resolved: Resolved,
    main: &Option<Part<Bindgen>>,
    adapters: &Keyed<Text, GatheredAdapter<Bindgen>>,
) -> Result<ComponentWorld, Failure>
    requires usable { IsUsable resolved }
    requires there { IsSome main.now }
    ensures exact { Gives (λ w. w) result (preparing_if resolved main.now adapters.now) }
    ensures valid { IfOk result IsEncodable }
    ensures tables { IfOk result HasTables }
    ensures cause { IfErr result (λ e. (f : RefusalRecord)
        → e ≡ failures.Refused f
        → (p : Part Bindgen)
        → main.now ≡ Some p
        → WorldCause resolved p adapters.now f) }
    ensures refused { IsOk result
        → (p : Part Bindgen)
        → main.now ≡ Some p
        → (f : RefusalRecord)
        → ¬ WorldCause resolved p adapters.now f }
{
    match main {
        Some(main) => prepare_modules(alloc, resolved, main, adapters),
        None => Err(Failure::Refused(Refusal::NotModule)),
    }
}

/// The validated world of what was gathered.
#[tactic(auto, unfolding(crate::specs::Preparing::preparing))]
pub fn prepare(alloc: Global, gathered: &Gathered<Bindgen>) -> Result<ComponentWorld, Failure>
    requires { IsSome gathered.now.main }
    ensures exact { IfOk result (λ w. preparing gathered.now ≡ Ok w) }
    ensures valid { IfOk result IsEncodable }
    ensures tables { IfOk result HasTables }
    ensures cause { IfErr result (λ e. e ≢ failures.Memory → PrepareCause gathered.now (flat e)) }
    ensures refused { IsOk result → (f : PlainFault) → ¬ PrepareCause gathered.now f }
{
    let grows = gathered.options.realloc_via_memory_grow;
    refuse_adapters(grows, &gathered.adapters)?;
    let merging = gathered.options.merge_imports_based_on_semver;
    let resolved = resolve_combined(alloc, merging, &gathered.combined.wit)?;
    prepare_some(alloc, resolved, &gathered.main, &gathered.adapters)
}
