//! The roles of a module's core imports and exports.

ghost use Rattle.std.specs.Prelude.{◌≡◌, IfOk, IfErr, IsOk};
ghost use Rattle.std.specs.List.{AllByRecursion};
ghost use Rattle.wit_data.specs.Sound.{IsSound};
ghost use Rattle.record_faults.specs.Faults.{Gives};
ghost use Rattle.record_faults.specs.declared.fault.Failure.TheVariants as failures;
ghost use Rattle.record_faults.specs.declared.fault.Refusal.{Refusal};
ghost use Rattle.record_core_types.specs.Guarantees.{IsLifted, IsKept};
ghost use Rattle.gathered_worlds.specs.Preparing.{checked_roles, checked_exports};
ghost use Rattle.gathered_worlds.specs.Guarantees.{world_id, AreChecked};
ghost use Rattle.gathered_worlds.specs.Causes.{ExportsCause, RolesCause};

use comp_lists::{Keyed, Seq, Text};
use comp_roles::{Export, ImportMap};
use core_sections::CoreModule;
use record_exports::{read_exports, require_all};
use record_faults::Failure;
use record_imports::{Arguments, OtherModules, read_imports};
use record_merge::Bindgen;
use record_resolve::Resolved;
use std::alloc::Global;
use wit_data::WorldKey;
use world_values::Part;

/// The roles of a module's core imports and exports, and the keys of the exports that are required of it.
#[derive(Drop)]
pub(crate) struct CheckedRoles {
    pub imports: ImportMap,
    pub exports: Keyed<Text, Export>,
    pub required: Seq<WorldKey>,
}

/// The core exports and the keys of those that are required of the module.
type CheckedExports = (Keyed<Text, Export>, Seq<WorldKey>);

#[tactic(auto, unfolding(crate::specs::Preparing::checked_exports))]
fn check_exports(
    alloc: Global,
    resolved: &Resolved,
    part: &Part<Bindgen>,
    core: &CoreModule,
) -> Result<CheckedExports, Failure>
    requires { IsSound resolved.now.resolve }
    ensures exact { Gives (λ m. m) result (checked_exports resolved.now part.now core.now) }
    ensures lifted { IfOk result
        (λ m. AllByRecursion (λ e. IsLifted resolved.now.resolve world_id e.1) m.0) }
    ensures kept { IfOk result
        (λ m. AllByRecursion (IsKept resolved.now.resolve world_id m.0) m.1) }
    ensures cause { IfErr result (λ e. (f : Refusal)
        → e ≡ failures.Refused f
        → ExportsCause resolved.now part.now core.now f) }
    ensures refused { IsOk result → (f : Refusal) → ¬ ExportsCause resolved.now part.now core.now f }
{
    let exports = read_exports(alloc, resolved, &part.own.roles.export_roles, core)?;
    match require_all(alloc, resolved, &exports, part.required.as_slice()) {
        Ok(required) => Ok((exports, required)),
        Err(failure) => {
            drop(exports);
            Err(failure)
        }
    }
}

fn with_imports(imports: ImportMap, exports: CheckedExports) -> CheckedRoles
    ensures { result ≡ record { imports = imports; exports = exports.0; required = exports.1 } }
{
    let (exports, required) = exports;
    CheckedRoles {
        imports,
        exports,
        required,
    }
}

/// The roles of the core imports and exports of a module, where they resolve and fit its core types.
#[tactic(auto, unfolding(crate::specs::Preparing::checked_roles))]
pub(crate) fn check_roles(
    alloc: Global,
    resolved: &Resolved,
    others: &OtherModules,
    arguments: &Arguments<'_>,
    part: &Part<Bindgen>,
    core: &CoreModule,
) -> Result<CheckedRoles, Failure>
    requires { IsSound resolved.now.resolve }
    ensures exact { Gives (λ m. m) result
        (checked_roles resolved.now others.now arguments.now part.now core.now) }
    ensures all_present { IfOk result (AreChecked resolved.now) }
    ensures cause { IfErr result (λ e. (f : Refusal)
        → e ≡ failures.Refused f
        → RolesCause resolved.now others.now arguments.now part.now core.now f) }
    ensures refused { IsOk result
        → (f : Refusal)
        → ¬ RolesCause resolved.now others.now arguments.now part.now core.now f }
{
    let imports = read_imports(
        alloc,
        resolved,
        others,
        arguments,
        &part.own.roles.import_roles,
        core,
    )?;
    match check_exports(alloc, resolved, part, core) {
        Ok(exports) => Ok(with_imports(imports, exports)),
        Err(failure) => {
            drop(imports);
            Err(failure)
        }
    }
}
