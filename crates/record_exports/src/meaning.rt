//! The role of one core export.

ghost use Rattle.std.specs.Prelude.{◌≡◌, ◌≢◌};
ghost use Rattle.wit_data.specs.Sound.{IsSound};
ghost use Rattle.record_faults.specs.Faults.{Gives};
ghost use Rattle.record_faults.specs.declared.fault.Failure.TheVariants as failures;
ghost use Rattle.record_exports.specs.Meaning.{unfit, fitting, export_of};

use comp_lists::Text;
use comp_roles::Export;
use core_sections::{CoreModule, ExportedItem};
use record_core_types::{fits_export, item_type};
use record_faults::{Failure, Refusal};
use record_resolve::Resolved;
use record_role_targets::resolved_export;
use record_values::ExportRole;
use std::alloc::Global;
use wit_data::WorldId;

/// The refusal of the export of this name, or out of memory.
pub(crate) fn unfit(alloc: Global, name: &Text) -> Failure
    ensures { result ≢ failures.Memory → result ≡ unfit name.now }
{
    match name.clone(alloc) {
        Ok(name) => Failure::Refused(Refusal::CoreType { name }),
        Err(_) => Failure::Memory,
    }
}

/// The resolved role of an export, if the export has the type that it requires.
fn fitting(
    alloc: Global,
    resolved: &Resolved,
    core: &CoreModule,
    name: &Text,
    item: &ExportedItem,
    export: Export,
) -> Result<Export, Failure>
    requires { IsSound resolved.now.resolve }
    ensures { Gives (λ e. e) result (fitting resolved.now core.now name.now item.now export) }
{
    let world = WorldId { index: 0 };
    let fits = fits_export(alloc, &resolved.resolve, world, core, &export, item)?;
    if fits {
        Ok(export)
    } else {
        Err(unfit(alloc, name))
    }
}

/// The resolved role of an export with this role.
#[tactic(auto, unfolding(crate::specs::Meaning::export_of))]
pub(crate) fn export_of(
    alloc: Global,
    resolved: &Resolved,
    core: &CoreModule,
    name: &Text,
    item: &ExportedItem,
    role: &ExportRole,
) -> Result<Export, Failure>
    requires { IsSound resolved.now.resolve }
    ensures { Gives (λ e. e) result (export_of resolved.now core.now name.now item.now role.now) }
{
    let ty = item_type(alloc, core, item)?;
    match resolved_export(alloc, resolved, role, ty.as_ref())? {
        Some(export) => fitting(alloc, resolved, core, name, item, export),
        None => Err(unfit(alloc, name)),
    }
}
