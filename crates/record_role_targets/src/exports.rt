//! What the roles of core exports resolve to.

ghost use Rattle.std.specs.Prelude.{◌≡◌, option_map, IfOk};
ghost use Rattle.std.specs.Option.{option_copied};
ghost use Rattle.comp_roles.specs.declared.exports.Export.TheVariants as variants;
ghost use Rattle.record_role_targets.specs.declared.sides.Side.TheVariants as sides;
ghost use Rattle.record_role_targets.specs.Positions.{function_position, resource_of};
ghost use Rattle.record_role_targets.specs.Imports.{memory_type};
ghost use Rattle.record_role_targets.specs.Exports.{lifted, post_return, callback, plain_export, resolved_export};

use crate::imports::memory_type;
use crate::positions::{Position, function_position, resource_of};
use crate::sides::Side;
use comp_lists::Text;
use comp_roles::{Export, ExternType};
use record_resolve::Resolved;
use record_values::{ExportRole, Owner, PlainExport, TypeName};
use std::alloc::{AllocError, Global};
use wit_data::AbiVariant;

/// A function that is lifted at its position.
fn lifted(position: Position, name: Text, abi: AbiVariant) -> Export
    ensures { result ≡ lifted name abi position }
{
    match position.interface {
        None => Export::WorldFunc(position.key, name, abi),
        Some(id) => Export::InterfaceFunc(position.key, id, name, abi),
    }
}

fn post_return(position: Position, name: Text) -> Export
    ensures { result ≡ post_return name position }
{
    match position.interface {
        None => Export::WorldFuncPostReturn(position.key),
        Some(_) => Export::InterfaceFuncPostReturn(position.key, name),
    }
}

fn callback(position: Position, name: Text) -> Export
    ensures { result ≡ callback name position }
{
    match position.interface {
        None => Export::WorldFuncCallback(position.key),
        Some(_) => Export::InterfaceFuncCallback(position.key, name),
    }
}

fn resolve_function(
    alloc: Global,
    resolved: &Resolved,
    owner: &Owner,
    name: &Text,
    abi: AbiVariant,
) -> Result<Option<Export>, AllocError>
    ensures { IfOk result (λ e. e
        ≡ option_map (lifted name.now abi)
        (function_position sides.Exported resolved.now owner.now name.now)) }
{
    let function = name.clone(alloc)?;
    match function_position(alloc, resolved, Side::Exported, owner, name)? {
        Some(position) => Ok(Some(lifted(position, function, abi))),
        None => Ok(None),
    }
}

fn resolve_post_return(
    alloc: Global,
    resolved: &Resolved,
    owner: &Owner,
    name: &Text,
) -> Result<Option<Export>, AllocError>
    ensures { IfOk result (λ e. e
        ≡ option_map (post_return name.now)
        (function_position sides.Exported resolved.now owner.now name.now)) }
{
    let function = name.clone(alloc)?;
    match function_position(alloc, resolved, Side::Exported, owner, name)? {
        Some(position) => Ok(Some(post_return(position, function))),
        None => Ok(None),
    }
}

fn resolve_callback(
    alloc: Global,
    resolved: &Resolved,
    owner: &Owner,
    name: &Text,
) -> Result<Option<Export>, AllocError>
    ensures { IfOk result (λ e. e
        ≡ option_map (callback name.now)
        (function_position sides.Exported resolved.now owner.now name.now)) }
{
    let function = name.clone(alloc)?;
    match function_position(alloc, resolved, Side::Exported, owner, name)? {
        Some(position) => Ok(Some(callback(position, function))),
        None => Ok(None),
    }
}

fn resolve_destructor(
    alloc: Global,
    resolved: &Resolved,
    named: &TypeName,
) -> Result<Option<Export>, AllocError>
    ensures { IfOk result (λ e. e
        ≡ option_map (λ d. variants.ResourceDtor d.id)
        (resource_of sides.Exported resolved.now named.now)) }
{
    match resource_of(alloc, resolved, Side::Exported, named)? {
        Some(resource) => Ok(Some(Export::ResourceDtor(resource.id))),
        None => Ok(None),
    }
}

fn resolve_memory(ty: Option<&ExternType>) -> Option<Export>
    ensures { result ≡ option_map variants.Memory (memory_type (option_copied ty.entry)) }
{
    match memory_type(ty) {
        Some(memory) => Some(Export::Memory(memory)),
        None => None,
    }
}

fn resolve_plain(plain: PlainExport, ty: Option<&ExternType>) -> Option<Export>
    ensures { result ≡ plain_export plain (option_copied ty.entry) }
{
    match plain {
        PlainExport::Memory => resolve_memory(ty),
        PlainExport::Realloc => Some(Export::GeneralPurposeRealloc),
        PlainExport::ImportRealloc => Some(Export::GeneralPurposeImportRealloc),
        PlainExport::ExportRealloc => Some(Export::GeneralPurposeExportRealloc),
        PlainExport::AdapterRealloc => Some(Export::ReallocForAdapter),
        PlainExport::Initialize => Some(Export::Initialize),
        PlainExport::TaskHook => Some(Export::WasmTaskHook),
    }
}

/// The resolved role of a core export with this role and this type, where functions, types and
/// interfaces have numbers.
///
/// It is none where the role names something that the world doesn't export (an interface, a function or
/// a type), or where the role is a memory and the export is not. The only refusal is out of memory.
pub fn resolved_export(
    alloc: Global,
    resolved: &Resolved,
    role: &ExportRole,
    ty: Option<&ExternType>,
) -> Result<Option<Export>, AllocError>
    ensures { IfOk result
        (λ e. e ≡ resolved_export resolved.now role.now (option_copied ty.entry)) }
{
    match role {
        ExportRole::Function { owner, name, abi } => resolve_function(
            alloc, resolved, owner, name, *abi,
        ),
        ExportRole::PostReturn { owner, function } => resolve_post_return(
            alloc, resolved, owner, function,
        ),
        ExportRole::Callback { owner, function } => resolve_callback(
            alloc, resolved, owner, function,
        ),
        ExportRole::Destructor(named) => resolve_destructor(alloc, resolved, named),
        ExportRole::Plain(plain) => Ok(resolve_plain(*plain, ty)),
    }
}
