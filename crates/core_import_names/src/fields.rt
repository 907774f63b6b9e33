//! The fields of core imports that a world's functions and resources have a part in.

ghost use Rattle.std.specs.Prelude.{◌≡◌, Some, IfOk};
ghost use Rattle.std.specs.Option.{option_copied};
ghost use Rattle.name_parts.specs.Texts as texts;
ghost use Rattle.world_names.specs.WorldNames.{owned};
ghost use Rattle.core_import_names.specs.ImportNames.{called, drop_of, dropped, handle_role, own_resource, returned, cancelled, is_imported, payload_at, with_payload, payload_of, payload};

use comp_lists::{Text, TryClone};
use name_parts::{PayloadName, Reading, after, before, may_be_async, payload_name};
use record_values::{ImportRole, Intrinsic, Payload, TypeName};
use std::alloc::{AllocError, Global};
use wit_data::AbiVariant;
use world_names::{Scope, Side, WorldNames, has_function, is_own_resource, owned, resource};

/// What a name means, or out of memory.
pub(crate) type Meaning = Result<Reading<ImportRole>, AllocError>;

/// The call of a function in some form.
pub(crate) fn called(
    alloc: Global,
    names: &WorldNames,
    scope: &Scope,
    abi: AbiVariant,
    name: Option<&str>,
) -> Meaning
    ensures { IfOk result (λ r. r ≡ called names.now scope.now abi (option_copied name.entry)) }
{
    let Some(name) = name else {
        return Ok(Reading::Nothing);
    };
    if !has_function(alloc, names, scope, name)? {
        return Ok(Reading::Nothing);
    }
    let TypeName { owner, name } = owned(alloc, scope, name)?;
    Ok(Reading::Means(ImportRole::Function { owner, name, abi }))
}

/// The call of the function that a name has after a prefix.
pub(crate) fn called_after(
    alloc: Global,
    names: &WorldNames,
    scope: &Scope,
    abi: AbiVariant,
    prefix: &str,
    name: &str,
) -> Meaning
    ensures { IfOk result (λ r. r ≡ called names.now scope.now abi
        (texts.after prefix.now name.now)) }
{
    called(alloc, names, scope, abi, after(prefix, name))
}

fn drop_of(resource: Option<TypeName>) -> Reading<ImportRole>
    ensures { result ≡ drop_of resource }
{
    match resource {
        Some(resource) => Reading::Means(ImportRole::ImportedDrop(resource)),
        None => Reading::Nothing,
    }
}

/// The drop of a resource.
fn dropped(alloc: Global, names: &WorldNames, scope: &Scope, name: Option<&str>) -> Meaning
    ensures { IfOk result (λ r. r ≡ dropped names.now scope.now (option_copied name.entry)) }
{
    let Some(name) = name else {
        return Ok(Reading::Nothing);
    };
    let resource = resource(alloc, names, scope, name)?;
    Ok(drop_of(resource))
}

/// The drop of the resource that a name has after a prefix.
pub(crate) fn dropped_after(
    alloc: Global,
    names: &WorldNames,
    scope: &Scope,
    prefix: &str,
    name: &str,
) -> Meaning
    ensures { IfOk result (λ r. r ≡ dropped names.now scope.now (texts.after prefix.now name.now)) }
{
    dropped(alloc, names, scope, after(prefix, name))
}

/// The drop of the resource that a name has before a suffix.
pub(crate) fn dropped_before(
    alloc: Global,
    names: &WorldNames,
    scope: &Scope,
    suffix: &str,
    name: &str,
) -> Meaning
    ensures { IfOk result (λ r. r ≡ dropped names.now scope.now
        (texts.before suffix.now name.now)) }
{
    dropped(alloc, names, scope, before(suffix, name))
}

/// What is done to the handles of a resource.
#[derive(Clone, Copy, PartialEq, Eq)]
pub(crate) enum HandleOperation {
    New,
    Rep,
    Drop,
}

fn handle_role(operation: HandleOperation, resource: TypeName) -> ImportRole
    ensures { result ≡ handle_role operation resource }
{
    match operation {
        HandleOperation::New => ImportRole::ExportedNew(resource),
        HandleOperation::Rep => ImportRole::ExportedRep(resource),
        HandleOperation::Drop => ImportRole::ExportedDrop(resource),
    }
}

/// What is done to the handles of a resource of an exported interface.
fn own_resource(
    alloc: Global,
    names: &WorldNames,
    scope: &Scope,
    operation: HandleOperation,
    name: Option<&str>,
) -> Meaning
    ensures { IfOk result (λ r. r ≡ own_resource names.now scope.now operation
        (option_copied name.entry)) }
{
    let Some(name) = name else {
        return Ok(Reading::Nothing);
    };
    if !is_own_resource(alloc, names, scope, name)? {
        return Ok(Reading::Nothing);
    }
    let resource = owned(alloc, scope, name)?;
    Ok(Reading::Means(handle_role(operation, resource)))
}

/// What is done to the handles of the resource that a name has after a prefix.
pub(crate) fn own_resource_after(
    alloc: Global,
    names: &WorldNames,
    scope: &Scope,
    operation: HandleOperation,
    prefix: &str,
    name: &str,
) -> Meaning
    ensures { IfOk result (λ r. r ≡ own_resource names.now scope.now operation
        (texts.after prefix.now name.now)) }
{
    own_resource(alloc, names, scope, operation, after(prefix, name))
}

/// What is done to the handles of the resource that a name has before a suffix.
pub(crate) fn own_resource_before(
    alloc: Global,
    names: &WorldNames,
    scope: &Scope,
    operation: HandleOperation,
    suffix: &str,
    name: &str,
) -> Meaning
    ensures { IfOk result (λ r. r ≡ own_resource names.now scope.now operation
        (texts.before suffix.now name.now)) }
{
    own_resource(alloc, names, scope, operation, before(suffix, name))
}

/// The `task.return` of a function.
fn returned(alloc: Global, names: &WorldNames, scope: &Scope, name: Option<&str>) -> Meaning
    ensures { IfOk result (λ r. r ≡ returned names.now scope.now (option_copied name.entry)) }
{
    let Some(name) = name else {
        return Ok(Reading::Nothing);
    };
    if !has_function(alloc, names, scope, name)? {
        return Ok(Reading::Nothing);
    }
    let TypeName { owner, name } = owned(alloc, scope, name)?;
    Ok(Reading::Means(ImportRole::TaskReturn {
        owner,
        function: name,
    }))
}

/// The `task.return` of the function that a name has after a prefix.
pub(crate) fn returned_after(
    alloc: Global,
    names: &WorldNames,
    scope: &Scope,
    prefix: &str,
    name: &str,
) -> Meaning
    ensures { IfOk result (λ r. r ≡ returned names.now scope.now
        (texts.after prefix.now name.now)) }
{
    returned(alloc, names, scope, after(prefix, name))
}

pub(crate) fn cancelled(name: &str) -> Meaning
    ensures { IfOk result (λ r. r ≡ cancelled name.now) }
{
    if name == "[task-cancel]" {
        Ok(Reading::Means(ImportRole::Intrinsic(Intrinsic::TaskCancel)))
    } else {
        Ok(Reading::Nothing)
    }
}

// ---- streams and futures

fn is_imported(side: Side) -> bool
    ensures { result ≡ is_imported side }
{
    match side {
        Side::Imported => true,
        Side::Exported => false,
    }
}

/// One of the streams and futures of a function, or one without values.
fn payload_at(
    alloc: Global,
    names: &WorldNames,
    scope: &Scope,
    index: Option<u32>,
    function: &str,
) -> Result<Option<Payload>, AllocError>
    ensures { IfOk result (λ p. p ≡ payload_at names.now scope.now index function.now) }
{
    let Some(index) = index else {
        return Ok(Some(Payload::Unit));
    };
    if !has_function(alloc, names, scope, function)? {
        return Ok(None);
    }
    let TypeName { owner, name } = owned(alloc, scope, function)?;
    Ok(Some(Payload::Met {
        imported: is_imported(scope.side),
        owner,
        function: name,
        index,
    }))
}

fn payload_role(parts: PayloadName<'_>, payload: Payload, is_async: bool) -> ImportRole
    ensures { result ≡ ImportRole.Payload parts.entry.0 parts.entry.1 payload is_async }
{
    let (kind, operation, _, _) = parts;
    ImportRole::Payload {
        kind,
        operation,
        payload,
        is_async,
    }
}

fn payload_of(
    alloc: Global,
    names: &WorldNames,
    scope: &Scope,
    is_async: bool,
    parts: PayloadName<'_>,
) -> Meaning
    ensures { IfOk result (λ r. r ≡ payload_of names.now scope.now is_async (Some
        (parts.entry.0, parts.entry.1, parts.entry.2, parts.entry.3.now))) }
{
    let (_, operation, index, function) = parts;
    if is_async && !may_be_async(operation) {
        return Ok(Reading::Nothing);
    }
    match payload_at(alloc, names, scope, index, function)? {
        Some(payload) => Ok(Reading::Means(payload_role(parts, payload, is_async))),
        None => Ok(Reading::Nothing),
    }
}

/// An operation on a stream or future.
pub(crate) fn payload(
    alloc: Global,
    names: &WorldNames,
    scope: &Scope,
    is_async: bool,
    name: Option<&str>,
) -> Meaning
    ensures { IfOk result (λ r. r ≡ payload names.now scope.now is_async
        (option_copied name.entry)) }
{
    let Some(name) = name else {
        return Ok(Reading::Nothing);
    };
    match payload_name(alloc, name)? {
        Some(parts) => payload_of(alloc, names, scope, is_async, parts),
        None => Ok(Reading::Nothing),
    }
}

/// The operation on a stream or future that a name has after a prefix.
pub(crate) fn payload_after(
    alloc: Global,
    names: &WorldNames,
    scope: &Scope,
    is_async: bool,
    prefix: &str,
    name: &str,
) -> Meaning
    ensures { IfOk result (λ r. r ≡ payload names.now scope.now is_async
        (texts.after prefix.now name.now)) }
{
    payload(alloc, names, scope, is_async, after(prefix, name))
}
