//! Whether imports and exports have the core types that their roles require.

ghost use Rattle.std.specs.Prelude.{◌≡◌, map, option_map, IfOk};
ghost use Rattle.std.specs.Option.{option_copied};
ghost use Rattle.wit_data.specs.Signatures.{signature, returning};
ghost use Rattle.wit_data.specs.Sound.{IsSound, HasFunction};
ghost use Rattle.wit_data.specs.declared.functions.AbiVariant.TheVariants.{GuestImport};
ghost use Rattle.world_values.specs.Mentions.{HasReturned};
ghost use Rattle.record_core_types.specs.Asked.{number, called, post_return, expected_import, expected_export};
ghost use Rattle.record_core_types.specs.Offered.{extern_type};
ghost use Rattle.record_core_types.specs.Shapes.{shape_type};
ghost use Rattle.record_core_types.specs.Fitting.{are_same, is_same, is_asked, function_type, is_function, is_memory, is_of_type, fits_import, fits_export, HasFound};

use crate::finding::{exported_function, exported_interface, function_of, imported_function};
use crate::intrinsics::{Shape, intrinsic, plain_export};
use crate::offering::{extern_type, memory_type};
use comp_roles::{Export, ExternType, Import};
use core_sections::{CoreModule, EntityType, ExportedItem, FuncType, ValType};
use core_types::MemoryType;
use std::alloc::{AllocError, Global};
use wit_data::{AbiVariant, Function, Resolve, WasmType, WorldId, returning};

/// The core type of a number.
fn number(ty: WasmType) -> ValType
    ensures { result ≡ number ty }
{
    match ty {
        WasmType::I32 => ValType::I32,
        WasmType::I64 => ValType::I64,
        WasmType::F32 => ValType::F32,
        WasmType::F64 => ValType::F64,
    }
}

/// Whether values have the types of these numbers.
fn are_numbers(values: &[ValType], types: &[WasmType]) -> bool
    ensures { result ≡ are_same values.now (map number types.now) }
{
    if values.len() != types.len() {
        return false;
    }
    for position in 0..values.len() {
        if values[position] != number(types[position]) {
            return false;
        }
    }
    true
}

/// Whether a function has the type that a table of types gives for it.
fn has_shape(ty: &FuncType, shape: Option<Shape>) -> bool
    ensures { result ≡ is_asked ty.now (option_map shape_type shape) }
{
    match shape {
        Some(shape) => shape.is_of(ty),
        None => false,
    }
}

/// Whether a function has the core type of this one in a form.
fn is_called(
    alloc: Global,
    resolve: &Resolve,
    abi: AbiVariant,
    function: Option<&Function>,
    ty: &FuncType,
) -> Result<bool, AllocError>
    requires sound { IsSound resolve.now }
    requires present { HasFound resolve.now (option_copied function) }
    ensures { IfOk result (λ fits. fits
        ≡ is_asked ty.now
        (option_map (called resolve.now abi) (option_copied function.entry))) }
{
    let Some(function) = function else {
        return Ok(false);
    };
    let signature = resolve.wasm_signature(alloc, abi, function)?;
    Ok(
        are_numbers(ty.params.as_slice(), signature.params.as_slice())
            && are_numbers(ty.results.as_slice(), signature.results.as_slice()),
    )
}

/// Whether a function takes the core results of this one.
fn is_post_return(
    alloc: Global,
    resolve: &Resolve,
    function: Option<&Function>,
    ty: &FuncType,
) -> Result<bool, AllocError>
    requires sound { IsSound resolve.now }
    requires present { HasFound resolve.now (option_copied function) }
    ensures { IfOk result (λ fits. fits
        ≡ is_asked ty.now
        (option_map (post_return resolve.now) (option_copied function.entry))) }
{
    let Some(function) = function else {
        return Ok(false);
    };
    let signature = resolve.wasm_signature(alloc, AbiVariant::GuestExport, function)?;
    Ok(are_numbers(ty.params.as_slice(), signature.results.as_slice()) && ty.results.is_empty())
}

/// Whether a function has the type of `task.return` of this one.
#[tactic(auto, using(crate::proofs::Guarantees::returning_exists))]
fn is_task_return(
    alloc: Global,
    resolve: &Resolve,
    function: &Function,
    ty: &FuncType,
) -> Result<bool, AllocError>
    requires sound { IsSound resolve.now }
    requires present { HasFunction resolve.now function.now }
    ensures { IfOk result
        (λ fits. fits ≡ is_same ty.now (called resolve.now GuestImport (returning function.now))) }
{
    let returned = returning(alloc, function)?;
    is_called(alloc, resolve, AbiVariant::GuestImport, Some(&returned), ty)
}

/// Whether a function has the type that an import's role requires.
#[tactic(auto, using(crate::proofs::Guarantees::imported_exists, crate::proofs::Guarantees::named_exists))]
fn is_expected_import(
    alloc: Global,
    resolve: &Resolve,
    world: WorldId,
    import: &Import,
    ty: &FuncType,
) -> Result<bool, AllocError>
    requires sound { IsSound resolve.now }
    requires present { HasReturned resolve.now import.now }
    ensures { IfOk result
        (λ fits. fits ≡ is_asked ty.now (expected_import resolve.now world import.now)) }
{
    match import {
        Import::WorldFunc(key, _, abi) => {
            let function = imported_function(resolve, world, key);
            is_called(alloc, resolve, *abi, function, ty)
        }
        Import::InterfaceFunc(_, interface, name, abi) => {
            let function = function_of(resolve, *interface, name);
            is_called(alloc, resolve, *abi, function, ty)
        }
        Import::ExportedTaskReturn(_, _, function) => is_task_return(alloc, resolve, function, ty),
        _ => Ok(has_shape(ty, intrinsic(import))),
    }
}

/// Whether a function has the type that an export's role requires.
#[tactic(auto, using(crate::proofs::Guarantees::exported_exists, crate::proofs::Guarantees::named_exists))]
fn is_expected_export(
    alloc: Global,
    resolve: &Resolve,
    world: WorldId,
    export: &Export,
    ty: &FuncType,
) -> Result<bool, AllocError>
    requires sound { IsSound resolve.now }
    ensures { IfOk result
        (λ fits. fits ≡ is_asked ty.now (expected_export resolve.now world export.now)) }
{
    match export {
        Export::WorldFunc(key, _, abi) => {
            let function = exported_function(resolve, world, key);
            is_called(alloc, resolve, *abi, function, ty)
        }
        Export::InterfaceFunc(_, interface, name, abi) => {
            let function = function_of(resolve, *interface, name);
            is_called(alloc, resolve, *abi, function, ty)
        }
        Export::WorldFuncPostReturn(key) => {
            let function = exported_function(resolve, world, key);
            is_post_return(alloc, resolve, function, ty)
        }
        Export::InterfaceFuncPostReturn(key, name) => {
            let Some(interface) = exported_interface(resolve, world, key) else {
                return Ok(false);
            };
            let function = function_of(resolve, interface, name);
            is_post_return(alloc, resolve, function, ty)
        }
        _ => Ok(has_shape(ty, plain_export(export))),
    }
}

/// The type of an entity that is a function.
fn function_type<'a>(core: &'a CoreModule, entity: &EntityType) -> Option<&'a FuncType>
    ensures { option_copied result ≡ function_type core.now entity.now }
{
    match *entity {
        EntityType::Function(index) => core.types.as_slice().get(index as usize),
        _ => None,
    }
}

/// Whether an entity is a memory of this type.
fn is_memory(entity: &EntityType, ty: MemoryType) -> bool
    ensures { result ≡ is_memory entity.now ty }
{
    match *entity {
        EntityType::Memory(limits) => memory_type(limits) == Some(ty),
        _ => false,
    }
}

/// Whether an entity is a function of the type that an import's role requires.
fn has_expected_type(
    alloc: Global,
    resolve: &Resolve,
    world: WorldId,
    core: &CoreModule,
    import: &Import,
    entity: &EntityType,
) -> Result<bool, AllocError>
    requires sound { IsSound resolve.now }
    requires present { HasReturned resolve.now import.now }
    ensures { IfOk result (λ fits. fits
        ≡ is_function core.now entity.now (expected_import resolve.now world import.now)) }
{
    match function_type(core, entity) {
        Some(ty) => is_expected_import(alloc, resolve, world, import, ty),
        None => Ok(false),
    }
}

/// Whether an entity is a function of this type, made of numbers and references to any function.
fn is_of_type(
    alloc: Global,
    core: &CoreModule,
    entity: &EntityType,
    ty: &core_types::FuncType,
) -> Result<bool, AllocError>
    ensures { IfOk result (λ fits. fits ≡ is_of_type (extern_type core.now entity.now) ty.now) }
{
    match extern_type(alloc, core, entity)? {
        Some(ExternType::Func(function)) => Ok(function == *ty),
        _ => Ok(false),
    }
}

/// Whether the core type of an import of a module is the one that its role requires: the core signature
/// of a function of the world, the type of a built-in function, a memory of the role's type, or, where
/// the role is an export of an adapter, a function of the role's type. Shared memories and those with
/// addresses of 64 bits never fit. Where the role is an export of main the result is yes: what main
/// exports may be given where it matches the import, and only main's module says that.
///
/// Functions are looked up in the world by the role's key, and in its interface by the role's name;
/// where there is none, nothing fits. The only refusal is out of memory.
pub fn fits_import(
    alloc: Global,
    resolve: &Resolve,
    world: WorldId,
    core: &CoreModule,
    import: &Import,
    entity: &EntityType,
) -> Result<bool, AllocError>
    requires sound { IsSound resolve.now }
    requires present { HasReturned resolve.now import.now }
    ensures { IfOk result
        (λ fits. fits ≡ fits_import resolve.now world core.now import.now entity.now) }
{
    match import {
        Import::MainModuleMemory(ty) => Ok(is_memory(entity, *ty)),
        Import::MainModuleExport { .. } => Ok(true),
        Import::AdapterExport { ty, .. } => is_of_type(alloc, core, entity, ty),
        _ => has_expected_type(alloc, resolve, world, core, import, entity),
    }
}

/// Whether the core type of an export of a module is the one that its role requires: the core signature
/// of a function of the world, a post-return with its core results, or the type that the role has in
/// every world. Shared memories and those with addresses of 64 bits never fit.
///
/// Functions are looked up in the world by the role's key, and in its interface by the role's name;
/// where there is none, nothing fits. The only refusal is out of memory.
pub fn fits_export(
    alloc: Global,
    resolve: &Resolve,
    world: WorldId,
    core: &CoreModule,
    export: &Export,
    item: &ExportedItem,
) -> Result<bool, AllocError>
    requires { IsSound resolve.now }
    ensures { IfOk result
        (λ fits. fits ≡ fits_export resolve.now world core.now export.now item.now) }
{
    let ExportedItem::Entity(entity) = item else {
        return Ok(false);
    };
    if let Export::Memory(ty) = export {
        return Ok(is_memory(entity, *ty));
    }
    match function_type(core, entity) {
        Some(ty) => is_expected_export(alloc, resolve, world, export, ty),
        None => Ok(false),
    }
}
