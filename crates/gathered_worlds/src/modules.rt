//! A module of a world: main or an adapter.

ghost use Rattle.std.specs.Prelude.{◌≡◌, IfOk, IfErr, IsOk, Ok};
ghost use Rattle.core_types.specs.Core.{IsCoreModule};
ghost use Rattle.record_faults.specs.Faults.{Gives};
ghost use Rattle.record_faults.specs.declared.fault.Failure.TheVariants as failures;
ghost use Rattle.record_faults.specs.declared.fault.Refusal.{Refusal};
ghost use Rattle.gathered_worlds.specs.Preparing as worlds;
ghost use Rattle.gathered_worlds.specs.Preparing.{own_of, with_own, parts_of, core_parts, module_parts};
ghost use Rattle.gathered_worlds.specs.Guarantees.{IsUsable, AreChecked, user_module, IsSoundPart};
ghost use Rattle.gathered_worlds.specs.Causes.{RolesCause, ModuleCause};

use crate::checking::{CheckedRoles, check_roles};
use comp_lists::{Keyed, Seq, SharedBytes, Text};
use comp_roles::{ExportMap, ExternType, ImportType, ModuleMetadata};
use comp_worlds::ValidatedModule;
use core_sections::{CoreModule, read_module};
use record_core_types::{imported, offered};
use record_faults::Failure;
use record_imports::{Arguments, OtherModules};
use record_merge::Bindgen;
use record_resolve::Resolved;
use record_role_targets::resolved_metadata;
use std::alloc::{AllocError, Global};
use wit_data::WorldKey;
use world_values::Part;

/// What a module has besides its roles: its bytes, the types of its imports, what it offers, and its
/// string encodings.
#[derive(Drop)]
struct Own {
    bytes: SharedBytes,
    imported: Seq<ImportType>,
    offered: Keyed<Text, ExternType>,
    metadata: ModuleMetadata,
}

/// A module, and the keys of the exports that are required of it.
#[derive(Drop)]
pub(crate) struct ModuleParts {
    pub info: ValidatedModule,
    pub required: Seq<WorldKey>,
}

fn own_of(
    alloc: Global,
    resolved: &Resolved,
    part: &Part<Bindgen>,
    core: &CoreModule,
) -> Result<Own, AllocError>
    ensures { IfOk result (λ o. o ≡ own_of resolved.now part.now core.now) }
{
    let bytes = part.bytes.share()?;
    let imported = imported(alloc, core)?;
    let offered = offered(alloc, core)?;
    let metadata = resolved_metadata(alloc, resolved, &part.own.roles)?;
    Ok(Own {
        bytes,
        imported,
        offered,
        metadata,
    })
}

/// The module of these.
fn put_together(own: Own, checked_roles: CheckedRoles) -> ModuleParts
    ensures { result ≡ with_own own checked_roles }
{
    let Own {
        bytes,
        imported,
        offered,
        metadata,
    } = own;
    let CheckedRoles {
        imports,
        exports,
        required,
    } = checked_roles;
    ModuleParts {
        info: ValidatedModule {
            bytes,
            imports,
            exports: ExportMap { exports },
            imported,
            offered,
            metadata,
        },
        required,
    }
}

/// The module of a part, whose roles were checked.
#[tactic(auto, using(crate::proofs::CheckingCauses::sound_part))]
fn parts_of(
    alloc: Global,
    resolved: &Resolved,
    others: &OtherModules,
    arguments: &Arguments<'_>,
    part: &Part<Bindgen>,
    core: &CoreModule,
    checked_roles: CheckedRoles,
) -> Result<ModuleParts, AllocError>
    requires usable { IsUsable resolved.now }
    requires bytes { IsCoreModule part.now.bytes }
    requires all_present { AreChecked resolved.now checked_roles }
    requires checked { worlds.checked_roles resolved.now others.now arguments.now part.now core.now
        ≡ Ok checked_roles }
    ensures exact { IfOk result (λ p. p ≡ parts_of resolved.now part.now core.now checked_roles) }
    ensures sound { IfOk result (λ p. IsSoundPart resolved.now (user_module p)) }
{
    let own = own_of(alloc, resolved, part, core)?;
    Ok(put_together(own, checked_roles))
}

/// The module of a part, as this core module.
#[tactic(auto, unfolding(crate::specs::Preparing::core_parts))]
fn core_parts(
    alloc: Global,
    resolved: &Resolved,
    others: &OtherModules,
    arguments: &Arguments<'_>,
    part: &Part<Bindgen>,
    core: &CoreModule,
) -> Result<ModuleParts, Failure>
    requires usable { IsUsable resolved.now }
    requires bytes { IsCoreModule part.now.bytes }
    ensures exact { Gives (λ p. p) result
        (core_parts resolved.now others.now arguments.now part.now core.now) }
    ensures sound { IfOk result (λ p. IsSoundPart resolved.now (user_module p)) }
    ensures cause { IfErr result (λ e. (f : Refusal)
        → e ≡ failures.Refused f
        → RolesCause resolved.now others.now arguments.now part.now core.now f) }
    ensures refused { IsOk result
        → (f : Refusal)
        → ¬ RolesCause resolved.now others.now arguments.now part.now core.now f }
{
    let checked_roles = check_roles(alloc, resolved, others, arguments, part, core)?;
    let parts = parts_of(
        alloc,
        resolved,
        others,
        arguments,
        part,
        core,
        checked_roles,
    )?;
    Ok(parts)
}

/// The module of a part, where its sections can be read.
#[tactic(auto, unfolding(crate::specs::Preparing::module_parts))]
pub(crate) fn module_parts(
    alloc: Global,
    resolved: &Resolved,
    others: &OtherModules,
    arguments: &Arguments<'_>,
    part: &Part<Bindgen>,
) -> Result<ModuleParts, Failure>
    requires { IsUsable resolved.now }
    ensures exact { Gives (λ p. p) result
        (module_parts resolved.now others.now arguments.now part.now) }
    ensures sound { IfOk result (λ p. IsSoundPart resolved.now (user_module p)) }
    ensures cause { IfErr result (λ e. (f : Refusal)
        → e ≡ failures.Refused f
        → ModuleCause resolved.now others.now arguments.now part.now f) }
    ensures refused { IsOk result
        → (f : Refusal)
        → ¬ ModuleCause resolved.now others.now arguments.now part.now f }
{
    match read_module(alloc, part.bytes.as_slice()) {
        Ok(core) => {
            let parts = core_parts(alloc, resolved, others, arguments, part, &core);
            drop(core);
            parts
        }
        Err(fault) => Err(Failure::from(fault)),
    }
}
