//! The roles of the imports of a core module, except for streams and futures.

ghost use Rattle.std.specs.Prelude.{◌≡◌};
ghost use Rattle.serde_json.specs.View.{view};
ghost use Rattle.json_paths.specs.Faults.{Gives};
ghost use Rattle.record_sides.specs.Named.{resource_of, world_function_of, interface_function_of};
ghost use Rattle.record_sides.specs.declared.named.Owners.TheVariants as owning;
ghost use Rattle.record_sides.specs.declared.sides.Side.TheVariants as sides;
ghost use Rattle.record_import_roles.specs.ImportRoles.{made, called, task_return_of, encoding_argument, address_argument, slot_argument, subtask_cancel_of, main_export_of, adapter_export_of, alone, import_role_of_kind, some_import_role, import_role_of};

use crate::kinds::{ImportKind, import_kind};
use crate::met_world::MetWorld;
use crate::payload_roles::read_payload_role;
use crate::values::{read_address, read_flag, read_sort};
use core_types::ValType;
use json_paths::{Failure, fault_at, read_number, read_text, under};
use record_sides::{
    Called, Named, Owners, RecordWorld, Side, no_argument, one_argument, read_encoding,
    read_interface_function, read_kind, read_named, read_resource, read_world_function,
    two_arguments,
};
use record_values::ImportRole;
use serde_json::Value;
use standard_kinds::StringEncoding;
use std::alloc::Global;

/// The role of a function that is called.
fn called(function: Called) -> ImportRole
    ensures { result ≡ called function }
{
    let Called { owner, name, abi } = function;
    ImportRole::Function { owner, name, abi }
}

fn read_world_func(alloc: Global, world: &RecordWorld, value: &Value) -> Result<ImportRole, Failure>
    ensures { Gives (λ r. r) result
        (made called (world_function_of world.now sides.Import (view value.now))) }
{
    let function = read_world_function(alloc, world, Side::Import, value)?;
    Ok(called(function))
}

fn read_interface_func(
    alloc: Global,
    world: &RecordWorld,
    value: &Value,
) -> Result<ImportRole, Failure>
    ensures { Gives (λ r. r) result
        (made called (interface_function_of world.now sides.Import (view value.now))) }
{
    let function = read_interface_function(alloc, world, Side::Import, value)?;
    Ok(called(function))
}

fn read_imported_drop(
    alloc: Global,
    world: &RecordWorld,
    value: &Value,
) -> Result<ImportRole, Failure>
    ensures { Gives (λ r. r) result (made ImportRole.ImportedDrop
        (resource_of world.now sides.Import owning.All (view value.now))) }
{
    let named = read_resource(alloc, world, Side::Import, Owners::All, value)?;
    Ok(ImportRole::ImportedDrop(named))
}

fn read_exported_drop(
    alloc: Global,
    world: &RecordWorld,
    value: &Value,
) -> Result<ImportRole, Failure>
    ensures { Gives (λ r. r) result (made ImportRole.ExportedDrop
        (resource_of world.now sides.Export owning.Interfaces (view value.now))) }
{
    let named = read_resource(alloc, world, Side::Export, Owners::Interfaces, value)?;
    Ok(ImportRole::ExportedDrop(named))
}

fn read_exported_rep(
    alloc: Global,
    world: &RecordWorld,
    value: &Value,
) -> Result<ImportRole, Failure>
    ensures { Gives (λ r. r) result (made ImportRole.ExportedRep
        (resource_of world.now sides.Export owning.Interfaces (view value.now))) }
{
    let named = read_resource(alloc, world, Side::Export, Owners::Interfaces, value)?;
    Ok(ImportRole::ExportedRep(named))
}

fn read_exported_new(
    alloc: Global,
    world: &RecordWorld,
    value: &Value,
) -> Result<ImportRole, Failure>
    ensures { Gives (λ r. r) result (made ImportRole.ExportedNew
        (resource_of world.now sides.Export owning.Interfaces (view value.now))) }
{
    let named = read_resource(alloc, world, Side::Export, Owners::Interfaces, value)?;
    Ok(ImportRole::ExportedNew(named))
}

fn read_task_return(
    alloc: Global,
    world: &RecordWorld,
    value: &Value,
) -> Result<ImportRole, Failure>
    ensures { Gives (λ r. r) result (task_return_of world.now (view value.now)) }
{
    let (owner, function) = read_named(
        alloc,
        world,
        Side::Export,
        Owners::All,
        Named::Function,
        value,
    )?;
    Ok(ImportRole::TaskReturn { owner, function })
}

/// A role without arguments.
fn read_alone(alloc: Global, role: ImportRole, value: &Value) -> Result<ImportRole, Failure>
    ensures { Gives (λ r. r) result (alone role (view value.now)) }
{
    match no_argument(alloc, value) {
        Ok(_) => Ok(role),
        Err(failure) => {
            drop(role);
            Err(failure)
        }
    }
}

#[tactic(auto, unfolding(crate::specs::ImportRoles::subtask_cancel_of))]
fn read_subtask_cancel(alloc: Global, value: &Value) -> Result<ImportRole, Failure>
    ensures { Gives (λ r. r) result (subtask_cancel_of (view value.now)) }
{
    let argument = one_argument(alloc, value)?;
    let is_async = under(alloc, "1", read_flag(alloc, argument))?;
    Ok(ImportRole::SubtaskCancel { is_async })
}

/// A role's one argument, a string encoding.
#[tactic(auto, unfolding(crate::specs::ImportRoles::encoding_argument))]
fn encoding_argument(alloc: Global, value: &Value) -> Result<StringEncoding, Failure>
    ensures { Gives (λ e. e) result (encoding_argument (view value.now)) }
{
    let argument = one_argument(alloc, value)?;
    under(alloc, "1", read_encoding(alloc, argument))
}

fn read_error_context_new(alloc: Global, value: &Value) -> Result<ImportRole, Failure>
    ensures { Gives (λ r. r) result
        (made ImportRole.ErrorContextNew (encoding_argument (view value.now))) }
{
    let encoding = encoding_argument(alloc, value)?;
    Ok(ImportRole::ErrorContextNew(encoding))
}

fn read_debug_message(alloc: Global, value: &Value) -> Result<ImportRole, Failure>
    ensures { Gives (λ r. r) result
        (made ImportRole.ErrorContextDebugMessage (encoding_argument (view value.now))) }
{
    let encoding = encoding_argument(alloc, value)?;
    Ok(ImportRole::ErrorContextDebugMessage(encoding))
}

/// A role's one argument, the type of an address.
#[tactic(auto, unfolding(crate::specs::ImportRoles::address_argument))]
fn address_argument(alloc: Global, value: &Value) -> Result<ValType, Failure>
    ensures { Gives (λ t. t) result (address_argument (view value.now)) }
{
    let argument = one_argument(alloc, value)?;
    under(alloc, "1", read_address(alloc, argument))
}

fn read_tls_get(alloc: Global, value: &Value) -> Result<ImportRole, Failure>
    ensures { Gives (λ r. r) result (made ImportRole.TlsGet (address_argument (view value.now))) }
{
    let ty = address_argument(alloc, value)?;
    Ok(ImportRole::TlsGet(ty))
}

fn read_tls_set(alloc: Global, value: &Value) -> Result<ImportRole, Failure>
    ensures { Gives (λ r. r) result (made ImportRole.TlsSet (address_argument (view value.now))) }
{
    let ty = address_argument(alloc, value)?;
    Ok(ImportRole::TlsSet(ty))
}

/// A role's two arguments, the type of a slot and its number.
#[tactic(auto, unfolding(crate::specs::ImportRoles::slot_argument))]
fn slot_argument(alloc: Global, value: &Value) -> Result<(ValType, u32), Failure>
    ensures { Gives (λ s. s) result (slot_argument (view value.now)) }
{
    let (ty, slot) = two_arguments(alloc, value)?;
    let ty = under(alloc, "1", read_address(alloc, ty))?;
    let slot = under(alloc, "2", read_number(alloc, 1 << 32, slot))? as u32;
    Ok((ty, slot))
}

fn read_context_get(alloc: Global, value: &Value) -> Result<ImportRole, Failure>
    ensures { Gives (λ r. r) result
        (made (λ s. ImportRole.ContextGet s.0 s.1) (slot_argument (view value.now))) }
{
    let (ty, slot) = slot_argument(alloc, value)?;
    Ok(ImportRole::ContextGet { ty, slot })
}

fn read_context_set(alloc: Global, value: &Value) -> Result<ImportRole, Failure>
    ensures { Gives (λ r. r) result
        (made (λ s. ImportRole.ContextSet s.0 s.1) (slot_argument (view value.now))) }
{
    let (ty, slot) = slot_argument(alloc, value)?;
    Ok(ImportRole::ContextSet { ty, slot })
}

#[tactic(auto, unfolding(crate::specs::ImportRoles::main_export_of))]
fn read_main_export(alloc: Global, value: &Value) -> Result<ImportRole, Failure>
    ensures { Gives (λ r. r) result (main_export_of (view value.now)) }
{
    let (name, sort) = two_arguments(alloc, value)?;
    let name = under(alloc, "1", read_text(alloc, name))?;
    let kind = under(alloc, "2", read_sort(alloc, sort))?;
    Ok(ImportRole::MainExport { name, kind })
}

#[tactic(auto, unfolding(crate::specs::ImportRoles::adapter_export_of))]
fn read_adapter_export(alloc: Global, value: &Value) -> Result<ImportRole, Failure>
    ensures { Gives (λ r. r) result (adapter_export_of (view value.now)) }
{
    let (adapter, function) = two_arguments(alloc, value)?;
    let adapter = under(alloc, "1", read_text(alloc, adapter))?;
    let function = under(alloc, "2", read_text(alloc, function))?;
    Ok(ImportRole::AdapterExport { adapter, function })
}

fn read_import_kind(
    alloc: Global,
    met: &mut MetWorld<'_>,
    value: &Value,
    kind: ImportKind,
) -> Result<ImportRole, Failure>
    ensures exact { Gives (λ r. r) result
        (import_role_of_kind met.old.world met.old.types (view value.now) kind) }
    ensures same { met.new ≡ met.old }
{
    let world = met.world();
    match kind {
        ImportKind::WorldFunc => read_world_func(alloc, world, value),
        ImportKind::InterfaceFunc => read_interface_func(alloc, world, value),
        ImportKind::ImportedDrop => read_imported_drop(alloc, world, value),
        ImportKind::ExportedDrop => read_exported_drop(alloc, world, value),
        ImportKind::ExportedRep => read_exported_rep(alloc, world, value),
        ImportKind::ExportedNew => read_exported_new(alloc, world, value),
        ImportKind::TaskReturn => read_task_return(alloc, world, value),
        ImportKind::Intrinsic(intrinsic) => {
            read_alone(alloc, ImportRole::Intrinsic(intrinsic), value)
        }
        ImportKind::SubtaskCancel => read_subtask_cancel(alloc, value),
        ImportKind::Payload(kind, operation) => {
            read_payload_role(alloc, met, kind, operation, value)
        }
        ImportKind::ErrorContextNew => read_error_context_new(alloc, value),
        ImportKind::ErrorContextDebugMessage => read_debug_message(alloc, value),
        ImportKind::ContextGet => read_context_get(alloc, value),
        ImportKind::ContextSet => read_context_set(alloc, value),
        ImportKind::TlsGet => read_tls_get(alloc, value),
        ImportKind::TlsSet => read_tls_set(alloc, value),
        ImportKind::Memory => read_alone(alloc, ImportRole::Memory, value),
        ImportKind::MainExport => read_main_export(alloc, value),
        ImportKind::AdapterExport => read_adapter_export(alloc, value),
    }
}

/// The role of a core import.
#[tactic(auto, unfolding(crate::specs::ImportRoles::import_role_of))]
pub(crate) fn read_import_role(
    alloc: Global,
    met: &mut MetWorld<'_>,
    value: &Value,
) -> Result<ImportRole, Failure>
    ensures exact { Gives (λ r. r) result
        (import_role_of met.old.world met.old.types (view value.now)) }
    ensures same { met.new ≡ met.old }
{
    let name = read_kind(alloc, value)?;
    match import_kind(name.as_str()) {
        Some(kind) => read_import_kind(alloc, met, value, kind),
        None => Err(fault_at(alloc, "0")),
    }
}
