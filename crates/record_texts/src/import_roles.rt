//! The roles of core imports.

ghost use Rattle.std.specs.Prelude.{◌≡◌, map, IfOk};
ghost use Rattle.serde_json.specs.Data.{string};
ghost use Rattle.serde_json.specs.View.{view};
ghost use Rattle.record_texts.specs.Names.{pair};
ghost use Rattle.record_values.specs.declared.roles.ImportRole.TheVariants as roles;
ghost use Rattle.record_texts.specs.ImportRoles.{abi_name, encoding_name, sort_name, address_name, intrinsic_name, stream_name, future_name, payload_name, flag, kind_name, payload_data, function_role, type_role, payload_role, slot_role, import_role_data, core_import_data};

use crate::names::{Indices, owner_value};
use crate::values::{alone, append, named, named_pair, only, three_texts};
use comp_lists::Keyed;
use core_types::ValType;
use record_values::{
    ImportName, ImportRole, Intrinsic, Owner, Payload, PayloadKind, PayloadOperation, TypeName,
};
use serde_json::{Value, json};
use standard_kinds::{ExportKind, StringEncoding};
use std::alloc::{AllocError, Global};
use wit_data::AbiVariant;

// ---- texts

fn abi_name(abi: AbiVariant) -> &'static str
    ensures { result.now ≡ abi_name abi }
{
    match abi {
        AbiVariant::GuestImport => "sync",
        AbiVariant::GuestExport => "sync",
        AbiVariant::GuestImportAsync => "async",
        AbiVariant::GuestExportAsync => "async",
        AbiVariant::GuestExportAsyncStackful => "stackful",
    }
}

pub(crate) fn encoding_name(encoding: StringEncoding) -> &'static str
    ensures { result.now ≡ encoding_name encoding }
{
    match encoding {
        StringEncoding::UTF8 => "utf8",
        StringEncoding::UTF16 => "utf16",
        StringEncoding::CompactUTF16 => "compact",
    }
}

fn sort_name(kind: ExportKind) -> &'static str
    ensures { result.now ≡ sort_name kind }
{
    match kind {
        ExportKind::Func => "func",
        ExportKind::Table => "table",
        ExportKind::Memory => "memory",
        ExportKind::Global => "global",
    }
}

fn address_name(ty: ValType) -> &'static str
    ensures { result.now ≡ address_name ty }
{
    match ty {
        ValType::I64 => "i64",
        _ => "i32",
    }
}

fn intrinsic_name(intrinsic: Intrinsic) -> &'static str
    ensures { result.now ≡ intrinsic_name intrinsic }
{
    match intrinsic {
        Intrinsic::TaskCancel => "task-cancel",
        Intrinsic::BackpressureInc => "backpressure-inc",
        Intrinsic::BackpressureDec => "backpressure-dec",
        Intrinsic::WaitableSetNew => "waitable-set-new",
        Intrinsic::WaitableSetWait => "waitable-set-wait",
        Intrinsic::WaitableSetPoll => "waitable-set-poll",
        Intrinsic::WaitableSetDrop => "waitable-set-drop",
        Intrinsic::WaitableJoin => "waitable-join",
        Intrinsic::SubtaskDrop => "subtask-drop",
        Intrinsic::ErrorContextDrop => "error-context-drop",
    }
}

fn stream_name(operation: PayloadOperation) -> &'static str
    ensures { result.now ≡ stream_name operation }
{
    match operation {
        PayloadOperation::New => "stream-new",
        PayloadOperation::Read => "stream-read",
        PayloadOperation::Write => "stream-write",
        PayloadOperation::CancelRead => "stream-cancel-read",
        PayloadOperation::CancelWrite => "stream-cancel-write",
        PayloadOperation::DropReadable => "stream-drop-readable",
        PayloadOperation::DropWritable => "stream-drop-writable",
    }
}

fn future_name(operation: PayloadOperation) -> &'static str
    ensures { result.now ≡ future_name operation }
{
    match operation {
        PayloadOperation::New => "future-new",
        PayloadOperation::Read => "future-read",
        PayloadOperation::Write => "future-write",
        PayloadOperation::CancelRead => "future-cancel-read",
        PayloadOperation::CancelWrite => "future-cancel-write",
        PayloadOperation::DropReadable => "future-drop-readable",
        PayloadOperation::DropWritable => "future-drop-writable",
    }
}

fn payload_name(kind: PayloadKind, operation: PayloadOperation) -> &'static str
    ensures { result.now ≡ payload_name kind operation }
{
    match kind {
        PayloadKind::Stream => stream_name(operation),
        PayloadKind::Future => future_name(operation),
    }
}

fn kind_name(kind: PayloadKind) -> &'static str
    ensures { result.now ≡ kind_name kind }
{
    match kind {
        PayloadKind::Stream => "stream",
        PayloadKind::Future => "future",
    }
}

// ---- arguments

/// 1 where a call is asynchronous, else 0.
fn flag(is_async: bool) -> Value
    ensures { view result ≡ flag is_async }
{
    if is_async {
        Value::from(1u64)
    } else {
        Value::from(0u64)
    }
}

fn payload_value(
    alloc: Global,
    indices: &Indices,
    kind: PayloadKind,
    payload: &Payload,
) -> Result<Value, AllocError>
    ensures { IfOk result (λ v. view v ≡ payload_data indices.now kind payload.now) }
{
    match payload {
        Payload::Unit => {
            let name = Value::try_from_str(alloc, kind_name(kind))?;
            only(alloc, "unit", name)
        }
        Payload::Met {
            imported,
            owner,
            function,
            index,
        } => {
            let owner = owner_value(indices, owner);
            let function = function.as_str();
            let imported = *imported;
            let index = *index;
            json!(in alloc; {"function": function, "imported": imported, "index": index,
                "interface": owner})
        }
    }
}

// ---- roles

/// A function, and how it is called.
pub(crate) fn function_role(
    alloc: Global,
    indices: &Indices,
    owner: &Owner,
    name: &str,
    abi: AbiVariant,
) -> Result<Value, AllocError>
    ensures { IfOk result (λ v. view v ≡ function_role indices.now owner.now name.now abi) }
{
    let abi = abi_name(abi);
    match owner {
        Owner::World => three_texts(alloc, "world-func", name, abi),
        Owner::Interface(_) => {
            let owner = owner_value(indices, owner);
            json!(in alloc; ["interface-func", owner, name, abi])
        }
    }
}

/// What is done to a resource.
pub(crate) fn type_role(
    alloc: Global,
    indices: &Indices,
    kind: &str,
    named: &TypeName,
) -> Result<Value, AllocError>
    ensures { IfOk result (λ v. view v ≡ type_role indices.now kind.now named.now) }
{
    let name = Value::try_from_str(alloc, named.name.as_str())?;
    named_pair(alloc, kind, owner_value(indices, &named.owner), name)
}

fn task_return_role(
    alloc: Global,
    indices: &Indices,
    owner: &Owner,
    function: &str,
) -> Result<Value, AllocError>
    ensures { IfOk result (λ v. view v
        ≡ import_role_data indices.now (roles.TaskReturn owner.now function.now)) }
{
    let function = Value::try_from_str(alloc, function)?;
    named_pair(alloc, "task-return", owner_value(indices, owner), function)
}

fn payload_role(
    alloc: Global,
    operation: PayloadOperation,
    kind: &str,
    payload: Value,
    is_async: bool,
) -> Result<Value, AllocError>
    ensures { IfOk result (λ v. view v ≡ payload_role operation kind.now (view payload) is_async) }
{
    match operation {
        PayloadOperation::New => named(alloc, kind, payload),
        PayloadOperation::Read => named_pair(alloc, kind, payload, flag(is_async)),
        PayloadOperation::Write => named_pair(alloc, kind, payload, flag(is_async)),
        PayloadOperation::CancelRead => named_pair(alloc, kind, payload, flag(is_async)),
        PayloadOperation::CancelWrite => named_pair(alloc, kind, payload, flag(is_async)),
        PayloadOperation::DropReadable => named(alloc, kind, payload),
        PayloadOperation::DropWritable => named(alloc, kind, payload),
    }
}

fn slot_role(alloc: Global, kind: &str, ty: ValType, slot: u32) -> Result<Value, AllocError>
    ensures { IfOk result (λ v. view v ≡ slot_role kind.now ty slot) }
{
    let ty = address_name(ty);
    json!(in alloc; [kind, ty, slot])
}

fn text_role(alloc: Global, kind: &str, argument: &str) -> Result<Value, AllocError>
    ensures { IfOk result (λ v. view v ≡ pair (string kind.now) (string argument.now)) }
{
    json!(in alloc; [kind, argument])
}

/// The role of a core import.
fn import_role_value(
    alloc: Global,
    indices: &Indices,
    role: &ImportRole,
) -> Result<Value, AllocError>
    ensures { IfOk result (λ v. view v ≡ import_role_data indices.now role.now) }
{
    match role {
        ImportRole::Function { owner, name, abi } => {
            function_role(alloc, indices, owner, name.as_str(), *abi)
        }
        ImportRole::ImportedDrop(named) => type_role(alloc, indices, "imported-drop", named),
        ImportRole::ExportedDrop(named) => type_role(alloc, indices, "exported-drop", named),
        ImportRole::ExportedRep(named) => type_role(alloc, indices, "exported-rep", named),
        ImportRole::ExportedNew(named) => type_role(alloc, indices, "exported-new", named),
        ImportRole::TaskReturn { owner, function } => {
            task_return_role(alloc, indices, owner, function.as_str())
        }
        ImportRole::Intrinsic(intrinsic) => alone(alloc, intrinsic_name(*intrinsic)),
        ImportRole::SubtaskCancel { is_async } => named(alloc, "subtask-cancel", flag(*is_async)),
        ImportRole::Payload {
            kind,
            operation,
            payload,
            is_async,
        } => {
            let payload = payload_value(alloc, indices, *kind, payload)?;
            let name = payload_name(*kind, *operation);
            payload_role(alloc, *operation, name, payload, *is_async)
        }
        ImportRole::ErrorContextNew(encoding) => {
            text_role(alloc, "error-context-new", encoding_name(*encoding))
        }
        ImportRole::ErrorContextDebugMessage(encoding) => {
            text_role(
                alloc,
                "error-context-debug-message",
                encoding_name(*encoding),
            )
        }
        ImportRole::ContextGet { ty, slot } => slot_role(alloc, "context-get", *ty, *slot),
        ImportRole::ContextSet { ty, slot } => slot_role(alloc, "context-set", *ty, *slot),
        ImportRole::TlsGet(ty) => text_role(alloc, "tls-get", address_name(*ty)),
        ImportRole::TlsSet(ty) => text_role(alloc, "tls-set", address_name(*ty)),
        ImportRole::Memory => alone(alloc, "memory"),
        ImportRole::MainExport { name, kind } => {
            three_texts(alloc, "main-export", name.as_str(), sort_name(*kind))
        }
        ImportRole::AdapterExport { adapter, function } => {
            three_texts(alloc, "adapter-export", adapter.as_str(), function.as_str())
        }
    }
}

fn core_import_value(
    alloc: Global,
    indices: &Indices,
    name: &ImportName,
    role: &ImportRole,
) -> Result<Value, AllocError>
    ensures { IfOk result (λ v. view v ≡ core_import_data indices.now (name.now, role.now)) }
{
    let role = import_role_value(alloc, indices, role)?;
    let module = name.module.as_str();
    let field = name.field.as_str();
    json!(in alloc; {"field": field, "module": module, "role": role})
}

/// The roles of all core imports.
pub(crate) fn core_import_values(
    alloc: Global,
    indices: &Indices,
    roles: &Keyed<ImportName, ImportRole>,
) -> Result<Vec<Value>, AllocError>
    ensures { IfOk result (λ vs. map view vs.items
        ≡ map (core_import_data indices.now) roles.now) }
{
    let mut values = Vec::new(alloc);
    for (name, role) in roles.iter() {
        append(&mut values, core_import_value(alloc, indices, name, role)?)?;
    }
    Ok(values)
}
