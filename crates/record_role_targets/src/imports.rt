//! What the roles of core imports resolve to.

ghost use Rattle.std.specs.Prelude.{◌≡◌, Some, option_map, IfOk};
ghost use Rattle.std.specs.Option.{option_copied, IfSome};
ghost use Rattle.record_role_targets.specs.Named.{HasNamed};
ghost use Rattle.comp_roles.specs.declared.imports.Import.TheVariants as variants;
ghost use Rattle.record_role_targets.specs.declared.sides.Side.TheVariants as sides;
ghost use Rattle.record_role_targets.specs.Positions.{function_position, resource_of};
ghost use Rattle.wit_data.specs.Sound.{IsSound};
ghost use Rattle.record_role_targets.specs.Known.{IsPayloadKnown, IsKnown};
ghost use Rattle.record_role_targets.specs.Payloads as payloads;
ghost use Rattle.record_role_targets.specs.Payloads.{payload_import};
ghost use Rattle.record_role_targets.specs.Imports.{memory_type, function_type, called, imported_drop, exported_drop, exported_rep, exported_new, task_return, task_return_of, intrinsic, built_in, resolved_import};

use crate::copies::copy_function;
use crate::known::Tables;
use crate::payloads::{payload_import, resolved_payload};
use crate::positions::{
    Position, Resource, function_at, function_position, position_of, resource_of,
};
use crate::sides::Side;
use comp_lists::{Text, TryClone};
use comp_roles::{ExternType, Import};
use core_types::{FuncType, MemoryType};
use record_resolve::Resolved;
use record_values::{
    ImportRole, Intrinsic, Owner, Payload, PayloadKind, PayloadOperation, TypeName,
};
use standard_kinds::ExportKind;
use std::alloc::{AllocError, Global};
use wit_data::{AbiVariant, Function};

/// The type of a memory.
pub(crate) fn memory_type(ty: Option<&ExternType>) -> Option<MemoryType>
    ensures { result ≡ memory_type (option_copied ty.entry) }
{
    match ty {
        Some(ExternType::Memory(memory)) => Some(*memory),
        _ => None,
    }
}

/// The type of a function.
fn function_type(ty: Option<&ExternType>) -> Option<&FuncType>
    ensures { option_copied result ≡ function_type (option_copied ty.entry) }
{
    match ty {
        Some(ExternType::Func(function)) => Some(function),
        _ => None,
    }
}

/// A function that is called at its position.
fn called(position: Position, name: Text, abi: AbiVariant) -> Import
    ensures { result ≡ called name abi position }
{
    match position.interface {
        None => Import::WorldFunc(position.key, name, abi),
        Some(id) => Import::InterfaceFunc(position.key, id, name, abi),
    }
}

fn resolve_function(
    alloc: Global,
    resolved: &Resolved,
    owner: &Owner,
    name: &Text,
    abi: AbiVariant,
) -> Result<Option<Import>, AllocError>
    ensures { IfOk result (λ i. i
        ≡ option_map (called name.now abi)
        (function_position sides.Imported resolved.now owner.now name.now)) }
{
    let function = name.clone(alloc)?;
    match function_position(alloc, resolved, Side::Imported, owner, name)? {
        Some(position) => Ok(Some(called(position, function, abi))),
        None => Ok(None),
    }
}

fn imported_drop(resource: Resource) -> Import
    ensures { result ≡ imported_drop resource }
{
    let position = resource.position;
    Import::ImportedResourceDrop(position.key, position.interface, resource.id)
}

fn exported_drop(resource: Resource) -> Import
    ensures { result ≡ exported_drop resource }
{
    Import::ExportedResourceDrop(resource.position.key, resource.id)
}

fn exported_rep(resource: Resource) -> Import
    ensures { result ≡ exported_rep resource }
{
    Import::ExportedResourceRep(resource.position.key, resource.id)
}

fn exported_new(resource: Resource) -> Import
    ensures { result ≡ exported_new resource }
{
    Import::ExportedResourceNew(resource.position.key, resource.id)
}

fn resolve_imported_drop(
    alloc: Global,
    resolved: &Resolved,
    named: &TypeName,
) -> Result<Option<Import>, AllocError>
    ensures { IfOk result
        (λ i. i ≡ option_map imported_drop (resource_of sides.Imported resolved.now named.now)) }
{
    match resource_of(alloc, resolved, Side::Imported, named)? {
        Some(resource) => Ok(Some(imported_drop(resource))),
        None => Ok(None),
    }
}

fn resolve_exported_drop(
    alloc: Global,
    resolved: &Resolved,
    named: &TypeName,
) -> Result<Option<Import>, AllocError>
    ensures { IfOk result
        (λ i. i ≡ option_map exported_drop (resource_of sides.Exported resolved.now named.now)) }
{
    match resource_of(alloc, resolved, Side::Exported, named)? {
        Some(resource) => Ok(Some(exported_drop(resource))),
        None => Ok(None),
    }
}

fn resolve_exported_rep(
    alloc: Global,
    resolved: &Resolved,
    named: &TypeName,
) -> Result<Option<Import>, AllocError>
    ensures { IfOk result
        (λ i. i ≡ option_map exported_rep (resource_of sides.Exported resolved.now named.now)) }
{
    match resource_of(alloc, resolved, Side::Exported, named)? {
        Some(resource) => Ok(Some(exported_rep(resource))),
        None => Ok(None),
    }
}

fn resolve_exported_new(
    alloc: Global,
    resolved: &Resolved,
    named: &TypeName,
) -> Result<Option<Import>, AllocError>
    ensures { IfOk result
        (λ i. i ≡ option_map exported_new (resource_of sides.Exported resolved.now named.now)) }
{
    match resource_of(alloc, resolved, Side::Exported, named)? {
        Some(resource) => Ok(Some(exported_new(resource))),
        None => Ok(None),
    }
}

fn task_return(position: Position, function: Function) -> Import
    ensures { result ≡ task_return position function }
{
    Import::ExportedTaskReturn(position.key, position.interface, function)
}

fn resolve_task_return(
    alloc: Global,
    resolved: &Resolved,
    owner: &Owner,
    name: &Text,
) -> Result<Option<Import>, AllocError>
    ensures { IfOk result (λ i. i ≡ task_return_of resolved.now owner.now name.now) }
{
    let Some(position) = position_of(alloc, resolved, Side::Exported, owner, name)? else {
        return Ok(None);
    };
    match function_at(resolved, Side::Exported, &position, name) {
        Some(function) => Ok(Some(task_return(position, copy_function(alloc, function)?))),
        None => Ok(None),
    }
}

fn intrinsic(which: Intrinsic) -> Import
    ensures { result ≡ intrinsic which }
{
    match which {
        Intrinsic::TaskCancel => Import::ExportedTaskCancel,
        Intrinsic::BackpressureInc => Import::BackpressureInc,
        Intrinsic::BackpressureDec => Import::BackpressureDec,
        Intrinsic::WaitableSetNew => Import::WaitableSetNew,
        Intrinsic::WaitableSetWait => Import::WaitableSetWait,
        Intrinsic::WaitableSetPoll => Import::WaitableSetPoll,
        Intrinsic::WaitableSetDrop => Import::WaitableSetDrop,
        Intrinsic::WaitableJoin => Import::WaitableJoin,
        Intrinsic::SubtaskDrop => Import::SubtaskDrop,
        Intrinsic::ErrorContextDrop => Import::ErrorContextDrop,
    }
}

fn payload_role(
    alloc: Global,
    resolved: &Resolved,
    tables: &Tables<'_>,
    field: &Text,
    kind: PayloadKind,
    operation: PayloadOperation,
    payload: &Payload,
    is_async: bool,
) -> Result<Option<Import>, AllocError>
    requires known { IsPayloadKnown resolved.now tables.now payload.now }
    ensures { IfOk result (λ i. i
        ≡ option_map (payload_import kind operation is_async)
        (payloads.resolved_payload resolved.now field.now kind payload.now)) }
{
    match resolved_payload(alloc, resolved, tables, field, kind, payload)? {
        Some(info) => Ok(Some(payload_import(kind, operation, is_async, info))),
        None => Ok(None),
    }
}

/// A built-in function without a name in the world.
fn built_in(role: &ImportRole) -> Option<Import>
    ensures { result ≡ built_in role.now }
{
    match *role {
        ImportRole::Intrinsic(which) => Some(intrinsic(which)),
        ImportRole::SubtaskCancel { is_async } => Some(Import::SubtaskCancel { async_: is_async }),
        ImportRole::ErrorContextNew(encoding) => Some(Import::ErrorContextNew { encoding }),
        ImportRole::ErrorContextDebugMessage(encoding) => Some(Import::ErrorContextDebugMessage {
            encoding,
        }),
        ImportRole::ContextGet { ty, slot } => Some(Import::ContextGet { ty, slot }),
        ImportRole::ContextSet { ty, slot } => Some(Import::ContextSet { ty, slot }),
        ImportRole::TlsGet(ty) => Some(Import::TlsBaseGet { ty }),
        ImportRole::TlsSet(ty) => Some(Import::TlsBaseSet { ty }),
        _ => None,
    }
}

fn resolve_memory(ty: Option<&ExternType>) -> Option<Import>
    ensures { result ≡ option_map variants.MainModuleMemory (memory_type (option_copied ty.entry)) }
{
    match memory_type(ty) {
        Some(memory) => Some(Import::MainModuleMemory(memory)),
        None => None,
    }
}

fn main_export(alloc: Global, name: &Text, kind: ExportKind) -> Result<Option<Import>, AllocError>
    ensures { IfOk result (λ i. i ≡ Some (variants.MainModuleExport name.now kind)) }
{
    let name = name.clone(alloc)?;
    Ok(Some(Import::MainModuleExport { name, kind }))
}

fn adapter_export(
    alloc: Global,
    adapter: &Text,
    function: &Text,
    ty: &FuncType,
) -> Result<Import, AllocError>
    ensures { IfOk result (λ i. i ≡ variants.AdapterExport adapter.now function.now ty.now) }
{
    let ty = ty.try_clone(alloc)?;
    let adapter = adapter.clone(alloc)?;
    let func = function.clone(alloc)?;
    Ok(Import::AdapterExport { adapter, func, ty })
}

fn resolve_adapter_export(
    alloc: Global,
    adapter: &Text,
    function: &Text,
    ty: Option<&ExternType>,
) -> Result<Option<Import>, AllocError>
    ensures { IfOk result (λ i. i
        ≡ option_map (variants.AdapterExport adapter.now function.now)
        (function_type (option_copied ty.entry))) }
{
    match function_type(ty) {
        Some(ty) => Ok(Some(adapter_export(alloc, adapter, function, ty)?)),
        None => Ok(None),
    }
}

/// What the role of a core import resolves to, where the tables have what it names of streams and futures.
fn resolve_role(
    alloc: Global,
    resolved: &Resolved,
    tables: &Tables<'_>,
    field: &Text,
    role: &ImportRole,
    ty: Option<&ExternType>,
) -> Result<Option<Import>, AllocError>
    requires known { IsKnown resolved.now tables.now role.now }
    ensures { IfOk result
        (λ i. i ≡ resolved_import resolved.now field.now role.now (option_copied ty.entry)) }
{
    match role {
        ImportRole::Function { owner, name, abi } => resolve_function(
            alloc, resolved, owner, name, *abi,
        ),
        ImportRole::ImportedDrop(named) => resolve_imported_drop(alloc, resolved, named),
        ImportRole::ExportedDrop(named) => resolve_exported_drop(alloc, resolved, named),
        ImportRole::ExportedRep(named) => resolve_exported_rep(alloc, resolved, named),
        ImportRole::ExportedNew(named) => resolve_exported_new(alloc, resolved, named),
        ImportRole::TaskReturn { owner, function } => resolve_task_return(
            alloc, resolved, owner, function,
        ),
        ImportRole::Payload {
            kind,
            operation,
            payload,
            is_async,
        } => payload_role(
            alloc, resolved, tables, field, *kind, *operation, payload, *is_async,
        ),
        ImportRole::Memory => Ok(resolve_memory(ty)),
        ImportRole::MainExport { name, kind } => main_export(alloc, name, *kind),
        ImportRole::AdapterExport { adapter, function } => resolve_adapter_export(
            alloc, adapter, function, ty,
        ),
        ImportRole::Intrinsic(_)
        | ImportRole::SubtaskCancel { .. }
        | ImportRole::ErrorContextNew(_)
        | ImportRole::ErrorContextDebugMessage(_)
        | ImportRole::ContextGet { .. }
        | ImportRole::ContextSet { .. }
        | ImportRole::TlsGet(_)
        | ImportRole::TlsSet(_) => Ok(built_in(role)),
    }
}

/// The same, and what it names exists in the resolve.
#[tactic(auto, using(crate::proofs::Naming::target_names))]
pub(crate) fn resolved_import(
    alloc: Global,
    resolved: &Resolved,
    tables: &Tables<'_>,
    field: &Text,
    role: &ImportRole,
    ty: Option<&ExternType>,
) -> Result<Option<Import>, AllocError>
    requires sound { IsSound resolved.now.resolve }
    requires known { IsKnown resolved.now tables.now role.now }
    ensures exact { IfOk result
        (λ i. i ≡ resolved_import resolved.now field.now role.now (option_copied ty.entry)) }
    ensures present { IfOk result (λ i. IfSome i (HasNamed resolved.now.resolve)) }
{
    let target = resolve_role(alloc, resolved, tables, field, role, ty)?;
    Ok(target)
}
