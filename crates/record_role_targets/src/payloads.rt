//! The streams and futures of roles, and the built-in functions on them.

ghost use Rattle.std.specs.Prelude.{◌≡◌, IfOk, slice_get};
ghost use Rattle.record_role_targets.specs.Known.{type_known, types_met, IsPayloadKnown};
ghost use Rattle.record_role_targets.specs.Payloads.{unit_info, typed_info, side_of, payload_met, resolved_payload, stream_import, future_import, payload_import};
ghost use Rattle.record_role_targets.specs.Wanted.{named_function};

use crate::known::{Tables, type_known};
use crate::positions::{Position, position_of};
use crate::sides::Side;
use crate::wanted::FunctionName;
use comp_lists::Text;
use comp_roles::{Import, PayloadInfo, PayloadType};
use record_resolve::Resolved;
use record_values::{Owner, Payload, PayloadKind, PayloadOperation};
use std::alloc::{AllocError, Global};
use wit_data::TypeId;

/// One without values.
fn unit_info(alloc: Global, field: &Text, kind: PayloadKind) -> Result<PayloadInfo, AllocError>
    ensures { IfOk result (λ p. p ≡ unit_info field.now kind) }
{
    let name = field.clone(alloc)?;
    let ty = match kind {
        PayloadKind::Stream => PayloadType::UnitStream,
        PayloadKind::Future => PayloadType::UnitFuture,
    };
    Ok(PayloadInfo {
        name,
        ty,
        key: None,
        interface: None,
        imported: false,
    })
}

/// A type that occurs in a function.
fn typed_info(
    alloc: Global,
    field: &Text,
    imported: bool,
    position: Position,
    function: &Text,
    id: TypeId,
) -> Result<PayloadInfo, AllocError>
    ensures { IfOk result (λ p. p ≡ typed_info field.now imported position function.now id) }
{
    let name = field.clone(alloc)?;
    let function = function.clone(alloc)?;
    Ok(PayloadInfo {
        name,
        ty: PayloadType::Typed { id, function },
        key: Some(position.key),
        interface: position.interface,
        imported,
    })
}

pub(crate) fn side_of(imported: bool) -> Side
    ensures { result ≡ side_of imported }
{
    if imported {
        Side::Imported
    } else {
        Side::Exported
    }
}

/// The stream or future with a number in the function of a name, which the tables have.
#[tactic(auto, using(crate::proofs::Knowing::met_known))]
fn payload_met(
    alloc: Global,
    resolved: &Resolved,
    tables: &Tables<'_>,
    field: &Text,
    imported: bool,
    owner: &Owner,
    function: &Text,
    number: u32,
) -> Result<Option<PayloadInfo>, AllocError>
    requires known { type_known tables.now (named_function imported owner.now function.now) number
        ≡ slice_get (types_met resolved.now (named_function imported owner.now function.now))
        number }
    ensures { IfOk result
        (λ p. p ≡ payload_met resolved.now field.now imported owner.now function.now number) }
{
    let side = side_of(imported);
    let Some(position) = position_of(alloc, resolved, side, owner, function)? else {
        return Ok(None);
    };
    let name = FunctionName {
        imported,
        owner,
        name: function,
    };
    match type_known(tables, &name, number) {
        Some(id) => Ok(Some(typed_info(alloc, field, imported, position, function, id)?)),
        None => Ok(None),
    }
}

/// The payload of a role, for an import of this field; the tables have what it names.
pub(crate) fn resolved_payload(
    alloc: Global,
    resolved: &Resolved,
    tables: &Tables<'_>,
    field: &Text,
    kind: PayloadKind,
    payload: &Payload,
) -> Result<Option<PayloadInfo>, AllocError>
    requires known { IsPayloadKnown resolved.now tables.now payload.now }
    ensures { IfOk result (λ p. p ≡ resolved_payload resolved.now field.now kind payload.now) }
{
    match payload {
        Payload::Unit => Ok(Some(unit_info(alloc, field, kind)?)),
        Payload::Met {
            imported,
            owner,
            function,
            index,
        } => payload_met(
            alloc, resolved, tables, field, *imported, owner, function, *index,
        ),
    }
}

fn stream_import(operation: PayloadOperation, info: PayloadInfo, async_: bool) -> Import
    ensures { result ≡ stream_import operation info async_ }
{
    match operation {
        PayloadOperation::New => Import::StreamNew(info),
        PayloadOperation::Read => Import::StreamRead { info, async_ },
        PayloadOperation::Write => Import::StreamWrite { info, async_ },
        PayloadOperation::CancelRead => Import::StreamCancelRead { info, async_ },
        PayloadOperation::CancelWrite => Import::StreamCancelWrite { info, async_ },
        PayloadOperation::DropReadable => Import::StreamDropReadable(info),
        PayloadOperation::DropWritable => Import::StreamDropWritable(info),
    }
}

fn future_import(operation: PayloadOperation, info: PayloadInfo, async_: bool) -> Import
    ensures { result ≡ future_import operation info async_ }
{
    match operation {
        PayloadOperation::New => Import::FutureNew(info),
        PayloadOperation::Read => Import::FutureRead { info, async_ },
        PayloadOperation::Write => Import::FutureWrite { info, async_ },
        PayloadOperation::CancelRead => Import::FutureCancelRead { info, async_ },
        PayloadOperation::CancelWrite => Import::FutureCancelWrite { info, async_ },
        PayloadOperation::DropReadable => Import::FutureDropReadable(info),
        PayloadOperation::DropWritable => Import::FutureDropWritable(info),
    }
}

/// The built-in function on a stream or a future.
pub(crate) fn payload_import(
    kind: PayloadKind,
    operation: PayloadOperation,
    is_async: bool,
    info: PayloadInfo,
) -> Import
    ensures { result ≡ payload_import kind operation is_async info }
{
    match kind {
        PayloadKind::Stream => stream_import(operation, info, is_async),
        PayloadKind::Future => future_import(operation, info, is_async),
    }
}
