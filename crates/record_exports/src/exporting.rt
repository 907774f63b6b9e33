//! The roles of the core exports of a module.

ghost use Rattle.std.specs.Prelude.{◌≡◌, [], IfOk, IfErr, IsOk};
ghost use Rattle.std.specs.List.{AllByRecursion};
ghost use Rattle.std.specs.Option.{option_copied};
ghost use Rattle.wit_data.specs.Sound.{IsSound};
ghost use Rattle.record_faults.specs.Faults.{Gives};
ghost use Rattle.record_faults.specs.declared.fault.Failure.TheVariants as failures;
ghost use Rattle.record_faults.specs.declared.fault.Refusal.{Refusal};
ghost use Rattle.record_core_types.specs.Guarantees.{IsLifted};
ghost use Rattle.record_exports.specs.Causes.{ExportCause};
ghost use Rattle.record_exports.specs.Exporting.{with_role, exports_after, exports_of};
ghost use Rattle.record_exports.specs.Meaning.{world_id};

use crate::meaning::export_of;
use crate::taking::check_taken;
use comp_lists::{Keyed, Text};
use comp_roles::Export;
use core_sections::{CoreModule, ExportedItem};
use record_faults::Failure;
use record_resolve::Resolved;
use record_values::ExportRole;
use std::alloc::Global;

/// Adds the resolved role of an export, if it has a role.
fn add_export(
    alloc: Global,
    resolved: &Resolved,
    core: &CoreModule,
    all: &mut Keyed<Text, Export>,
    name: &Text,
    item: &ExportedItem,
    role: Option<&ExportRole>,
) -> Result<(), Failure>
    requires { IsSound resolved.now.resolve }
    ensures { Gives (λ _. all.new) result
        (with_role resolved.now core.now all.old name.now item.now (option_copied role.entry)) }
{
    match role {
        None => Ok(()),
        Some(role) => {
            let export = export_of(alloc, resolved, core, name, item, role)?;
            let name = name.clone(alloc)?;
            all.insert_if_absent(name, export)?;
            Ok(())
        }
    }
}

/// The roles of the exports that have one, each of the type that its role requires.
fn exports_with_roles(
    alloc: Global,
    resolved: &Resolved,
    roles: &Keyed<Text, ExportRole>,
    core: &CoreModule,
) -> Result<Keyed<Text, Export>, Failure>
    requires { IsSound resolved.now.resolve }
    ensures { Gives (λ t. t) result
        (exports_after resolved.now roles.now core.now [] core.now.exports) }
{
    let mut all = Keyed::new(alloc);
    for (name, item) in core.exports.iter() {
        let role = roles.get(name);
        add_export(alloc, resolved, core, &mut all, name, item, role)?;
    }
    Ok(all)
}

/// The roles of all exports, none of which is a post-return or a callback of a function that can't have
/// one.
#[tactic(auto, using(crate::proofs::Lifting::all_lifted), unfolding(crate::specs::Exporting::exports_of))]
fn exports_of(
    alloc: Global,
    resolved: &Resolved,
    roles: &Keyed<Text, ExportRole>,
    core: &CoreModule,
) -> Result<Keyed<Text, Export>, Failure>
    requires { IsSound resolved.now.resolve }
    ensures exact { Gives (λ t. t) result (exports_of resolved.now roles.now core.now) }
    ensures lifted { IfOk result
        (λ t. AllByRecursion (λ e. IsLifted resolved.now.resolve world_id e.1) t) }
{
    let all = exports_with_roles(alloc, resolved, roles, core)?;
    check_taken(alloc, &all)?;
    Ok(all)
}

/// The roles of the core exports of a module, by name, in their order: those that have a role, each of
/// the type that its role requires. No export of a synchronous function has a callback, and none of
/// another has a post-return.
///
/// # Errors
///
/// `CoreType` with the name of an export whose role names nothing that the world exports, or requires
/// another type (Canonical ABI: `flatten_functype`); or of a post-return of a function that is not
/// synchronous, or a callback of one that is not asynchronous with a callback (Canonical ABI: `canon
/// lift`). `Memory` if memory runs out.
#[tactic(auto, using(crate::proofs::Refusing::no_cause, crate::proofs::Refusing::has_cause))]
pub fn read_exports(
    alloc: Global,
    resolved: &Resolved,
    roles: &Keyed<Text, ExportRole>,
    core: &CoreModule,
) -> Result<Keyed<Text, Export>, Failure>
    requires { IsSound resolved.now.resolve }
    ensures exact { Gives (λ t. t) result (exports_of resolved.now roles.now core.now) }
    ensures lifted { IfOk result
        (λ t. AllByRecursion (λ e. IsLifted resolved.now.resolve world_id e.1) t) }
    ensures refused { IsOk result → (f : Refusal) → ExportCause resolved.now roles.now core.now f → ⊥ }
    ensures cause { IfErr result (λ e. (f : Refusal)
        → e ≡ failures.Refused f
        → ExportCause resolved.now roles.now core.now f) }
{
    let all = exports_of(alloc, resolved, roles, core)?;
    Ok(all)
}
