//! The role of one core import.

ghost use Rattle.std.specs.Prelude.{◌≡◌, Err, Some, ok_or, IfOk};
ghost use Rattle.std.specs.Map.{lookup};
ghost use Rattle.std.specs.Option.{option_copied, option_and_then};
ghost use Rattle.record_values.specs.Names.{is_same_import};
ghost use Rattle.wit_data.specs.Sound.{IsSound};
ghost use Rattle.wit_data.specs.declared.resolve.Resolve.{Resolve};
ghost use Rattle.record_role_targets.specs.Named.{HasNamed};
ghost use Rattle.record_core_types.specs.Offered.{extern_type};
ghost use Rattle.record_faults.specs.Faults.{Gives};
ghost use Rattle.record_imports.specs.Meaning.{unless_unknown, target, no_role, unfit, meaningless, fitting, kept, by_record, by_argument, import_of};
ghost use Rattle.record_imports.specs.Guarantees.{IsChecked};

use crate::arguments::{Argument, Arguments};
use crate::others::{OtherModules, is_unknown};
use comp_roles::{ExternType, Import};
use core_sections::{CoreImport, CoreModule};
use record_core_types::{extern_type, fits_import};
use record_faults::{Failure, Refusal};
use record_resolve::Resolved;
use record_role_targets::ImportTargets;
use record_values::{ImportName, ImportRole};
use std::alloc::{AllocError, Global};
use wit_data::WorldId;

/// The refusal of an import that has no role, or whose role names what does not exist.
fn no_role<T>(alloc: Global, import: &CoreImport) -> Result<T, Failure>
    ensures { Gives (λ x. x) result (Err (no_role import.now)) }
{
    Err(Failure::Refused(Refusal::RoleMissing {
        module: import.module.clone(alloc)?,
        field: import.field.clone(alloc)?,
    }))
}

/// The refusal of an import whose type is not that of its role.
fn unfit<T>(alloc: Global, import: &CoreImport) -> Result<T, Failure>
    ensures { Gives (λ x. x) result (Err (unfit import.now)) }
{
    Err(Failure::Refused(Refusal::CoreType {
        name: import.field.clone(alloc)?,
    }))
}

/// The refusal of an import whose role doesn't resolve.
fn meaningless<T>(alloc: Global, import: &CoreImport, role: &ImportRole) -> Result<T, Failure>
    ensures { Gives (λ x. x) result (Err (meaningless import.now role.now)) }
{
    match role {
        ImportRole::Memory | ImportRole::AdapterExport { .. } => unfit(alloc, import),
        _ => no_role(alloc, import),
    }
}

/// The type of an import, where it is made of numbers and references to any function.
fn typed(alloc: Global, core: &CoreModule, import: &CoreImport) -> Result<ExternType, Failure>
    ensures { Gives (λ t. t) result
        (ok_or (extern_type core.now import.now.entity) (unfit import.now)) }
{
    match extern_type(alloc, core, &import.entity)? {
        Some(ty) => Ok(ty),
        None => unfit(alloc, import),
    }
}

/// The name by which an import has its role.
fn name_of(alloc: Global, import: &CoreImport) -> Result<ImportName, AllocError>
    ensures { IfOk result
        (λ n. n ≡ record { «module» = import.now.«module»; field = import.now.field }) }
{
    Ok(ImportName {
        module: import.module.clone(alloc)?,
        field: import.field.clone(alloc)?,
    })
}

/// The role that a name has, unless it is an export of another module that isn't known.
fn known_role<'a>(
    others: &OtherModules,
    targets: &'a ImportTargets<'_>,
    name: &ImportName,
) -> Option<&'a ImportRole>
    ensures { option_copied result
        ≡ option_and_then (unless_unknown others.now)
        (lookup (is_same_import name.now) targets.now.table) }
{
    let role = targets.role(name)?;
    if is_unknown(others, role) {
        return None;
    }
    Some(role)
}

/// What an import of this name resolves to, which has this role.
#[tactic(auto, using(crate::proofs::Checking::targeted))]
fn meaning_of(
    alloc: Global,
    targets: &ImportTargets<'_>,
    import: &CoreImport,
    name: &ImportName,
    role: &ImportRole,
    ty: &ExternType,
) -> Result<Import, Failure>
    requires sound { IsSound targets.now.resolved.resolve }
    requires field { name.now.field ≡ import.now.field }
    requires known { lookup (is_same_import name.now) targets.now.table ≡ Some role.now }
    ensures exact { Gives (λ i. i) result (ok_or
        (target targets.now.resolved import.now role.now ty.now)
        (meaningless import.now role.now)) }
    ensures present { IfOk result (HasNamed targets.now.resolved.resolve) }
{
    match targets.resolve(alloc, name, Some(ty))? {
        Some(meaning) => Ok(meaning),
        None => meaningless(alloc, import, role),
    }
}

/// Refuses an import whose type is not the one that its resolved role requires.
#[tactic(auto, using(crate::proofs::Checking::returned))]
fn check_type(
    alloc: Global,
    resolved: &Resolved,
    core: &CoreModule,
    import: &CoreImport,
    meaning: &Import,
) -> Result<(), Failure>
    requires sound { IsSound resolved.now.resolve }
    requires present { HasNamed resolved.now.resolve meaning.now }
    ensures { Gives (λ x. meaning.now) result
        (fitting resolved.now core.now import.now meaning.now) }
{
    let world = WorldId { index: 0 };
    let resolve = &resolved.resolve;
    let fits = fits_import(alloc, resolve, world, core, meaning, &import.entity)?;
    if fits { Ok(()) } else { unfit(alloc, import) }
}

/// A value, unless its check was refused.
fn unless_refused<T: Drop>(value: T, step: Result<(), Failure>) -> Result<T, Failure>
    ensures { result ≡ kept value step }
{
    match step {
        Ok(()) => Ok(value),
        Err(failure) => Err(failure),
    }
}

/// The role of an import by the record, resolved; what it names exists in the resolve.
#[tactic(auto, unfolding(crate::specs::Meaning::by_record), using(crate::proofs::Checking::concluded, crate::proofs::Checking::was_known))]
fn by_record(
    alloc: Global,
    targets: &ImportTargets<'_>,
    others: &OtherModules,
    core: &CoreModule,
    import: &CoreImport,
    ty: &ExternType,
) -> Result<Import, Failure>
    requires { IsSound targets.now.resolved.resolve }
    ensures exact { Gives (λ i. i) result
        (by_record targets.now.resolved others.now targets.now.table core.now import.now ty.now) }
    ensures present { IfOk result (HasNamed targets.now.resolved.resolve) }
{
    let name = name_of(alloc, import)?;
    let Some(role) = known_role(others, targets, &name) else {
        return no_role(alloc, import);
    };
    let meaning = meaning_of(alloc, targets, import, &name, role, ty)?;
    let checked = check_type(alloc, targets.resolved(), core, import, &meaning);
    unless_refused(meaning, checked)
}

/// The role of an import by the argument for its module: the item that it is given.
fn by_argument(
    alloc: Global,
    import: &CoreImport,
    ty: &ExternType,
    argument: &Argument<'_>,
) -> Result<Import, Failure>
    ensures exact { Gives (λ i. i) result (by_argument import.now ty.now argument.now) }
    ensures present { (r : Resolve) → IfOk result (HasNamed r) }
{
    match argument.item_of(alloc, &import.field, ty)? {
        Some(item) => Ok(Import::Item(item)),
        None => no_role(alloc, import),
    }
}

/// The role of a core import by either; what it names exists in the resolve.
#[tactic(auto, unfolding(crate::specs::Meaning::import_of))]
fn read_import(
    alloc: Global,
    targets: &ImportTargets<'_>,
    others: &OtherModules,
    arguments: &Arguments<'_>,
    core: &CoreModule,
    import: &CoreImport,
) -> Result<Import, Failure>
    requires { IsSound targets.now.resolved.resolve }
    ensures exact { Gives (λ i. i) result (import_of targets.now.resolved others.now arguments.now
        targets.now.table core.now import.now) }
    ensures present { IfOk result (HasNamed targets.now.resolved.resolve) }
{
    let ty = typed(alloc, core, import)?;
    match arguments.argument_for(&import.module) {
        Some(argument) => by_argument(alloc, import, &ty, argument),
        None => by_record(alloc, targets, others, core, import, &ty),
    }
}

/// The role of a core import: where its module stands in the arguments of the library, by the first argument
/// for it, else by the record, resolved.
///
/// What it names exists in the resolve, and where it is a root function, the world imports it under its
/// own name.
#[tactic(auto, using(crate::proofs::Checking::is_checked))]
pub(crate) fn import_of(
    alloc: Global,
    targets: &ImportTargets<'_>,
    others: &OtherModules,
    arguments: &Arguments<'_>,
    core: &CoreModule,
    import: &CoreImport,
) -> Result<Import, Failure>
    requires { IsSound targets.now.resolved.resolve }
    ensures exact { Gives (λ i. i) result (import_of targets.now.resolved others.now arguments.now
        targets.now.table core.now import.now) }
    ensures checks { IfOk result (IsChecked targets.now.resolved.resolve) }
{
    let meaning = read_import(alloc, targets, others, arguments, core, import)?;
    Ok(meaning)
}
