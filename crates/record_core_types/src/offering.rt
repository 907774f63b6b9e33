//! The types of the imports of a core module, and of the exports that it offers to others.

ghost use Rattle.std.specs.Prelude.{◌≡◌, option_map, IfOk};
ghost use Rattle.core_sections.specs.declared.entries.EntityType.TheVariants as entities;
ghost use Rattle.comp_roles.specs.declared.offered.ExternType.TheVariants as externs;
ghost use Rattle.record_core_types.specs.Offered.{value_type, value_types, func_type, size, most, memory_type, table_type, extern_type, item_type, offered, import_type, imported};

use comp_lists::{Keyed, Seq, Text};
use comp_roles::{ExternType, ImportType};
use core_sections::{CoreImport, CoreModule, EntityType, ExportedItem, Limits};
use core_types::{FuncType, GlobalType, MemoryType, RefType, TableType, ValType};
use std::alloc::{AllocError, Global};

/// A value type, where it is a number or a reference to any function.
fn value_type(value: core_sections::ValType) -> Option<ValType>
    ensures { result ≡ value_type value }
{
    match value {
        core_sections::ValType::I32 => Some(ValType::I32),
        core_sections::ValType::I64 => Some(ValType::I64),
        core_sections::ValType::F32 => Some(ValType::F32),
        core_sections::ValType::F64 => Some(ValType::F64),
        core_sections::ValType::FuncRef => Some(ValType::Ref(RefType::FuncRef)),
        core_sections::ValType::V128 | core_sections::ValType::OtherRef => None,
    }
}

/// These value types, where all of them are numbers or references to any function.
#[tactic(auto, using(crate::proofs::Converting::after_one))]
fn value_types(
    alloc: Global,
    values: &[core_sections::ValType],
) -> Result<Option<Seq<ValType>>, AllocError>
    ensures { IfOk result (λ types. types ≡ value_types values.now) }
{
    let mut types = Seq::new(alloc);
    for value in values {
        match value_type(*value) {
            Some(ty) => types.push(ty)?,
            None => return Ok(None),
        }
    }
    Ok(Some(types))
}

/// The type of a function, where it is made of numbers and references to any function.
fn func_type(
    alloc: Global,
    function: &core_sections::FuncType,
) -> Result<Option<FuncType>, AllocError>
    ensures { IfOk result (λ ty. ty ≡ func_type function.now) }
{
    let Some(params) = value_types(alloc, function.params.as_slice())? else {
        return Ok(None);
    };
    let Some(results) = value_types(alloc, function.results.as_slice())? else {
        return Ok(None);
    };
    Ok(Some(FuncType { params, results }))
}

/// A size, where it fits in 32 bits.
fn size(number: u64) -> Option<u32>
    ensures { result ≡ size number }
{
    if number < 1 << 32 {
        Some(number as u32)
    } else {
        None
    }
}

/// A maximum size, if there is one, where it fits in 32 bits.
fn most(maximum: Option<u64>) -> Option<Option<u32>>
    ensures { result ≡ most maximum }
{
    match maximum {
        Some(maximum) => Some(Some(size(maximum)?)),
        None => Some(None),
    }
}

/// The type of a memory of these limits, in pages of 64 KiB, where it is not shared, has addresses of
/// 32 bits, and its limits fit in 32 bits.
pub fn memory_type(limits: Limits) -> Option<MemoryType>
    ensures { result ≡ memory_type limits }
{
    if limits.is_wide {
        return None;
    }
    Some(MemoryType {
        minimum: size(limits.minimum)?,
        maximum: most(limits.maximum)?,
    })
}

/// The type of a table, where its elements are references to any function and its limits are like those
/// of memories.
fn table_type(element: core_sections::ValType, limits: Limits) -> Option<TableType>
    ensures { result ≡ table_type element limits }
{
    if element != core_sections::ValType::FuncRef {
        return None;
    }
    let MemoryType { minimum, maximum } = memory_type(limits)?;
    Some(TableType {
        element_type: RefType::FuncRef,
        minimum,
        maximum,
    })
}

/// The type of a function, by the index of its type.
fn function_at(
    alloc: Global,
    core: &CoreModule,
    index: u32,
) -> Result<Option<ExternType>, AllocError>
    ensures { IfOk result (λ ty. ty ≡ extern_type core.now (entities.Function index)) }
{
    let Some(function) = core.types.as_slice().get(index as usize) else {
        return Ok(None);
    };
    let ty = func_type(alloc, function)?;
    Ok(ty.map(|ty| ExternType::Func(ty)))
}

/// The type of a global, where it holds a number or a reference to any function.
fn global_type(value: core_sections::ValType, mutable: bool) -> Option<ExternType>
    ensures { result
        ≡ option_map (λ t. externs.Global (record { val_type = t; mutable = mutable }))
        (value_type value) }
{
    let val_type = value_type(value)?;
    Some(ExternType::Global(GlobalType { val_type, mutable }))
}

/// The type of an import or a definition of a module, where it is made of the four number types and
/// references to any function; tables and memories are not shared, have addresses of 32 bits, and their
/// limits fit in 32 bits. Tags have none. The only refusal is out of memory.
pub fn extern_type(
    alloc: Global,
    core: &CoreModule,
    entity: &EntityType,
) -> Result<Option<ExternType>, AllocError>
    ensures { IfOk result (λ ty. ty ≡ extern_type core.now entity.now) }
{
    match *entity {
        EntityType::Function(index) => function_at(alloc, core, index),
        EntityType::Table { element, limits } => {
            Ok(table_type(element, limits).map(|ty| ExternType::Table(ty)))
        }
        EntityType::Memory(limits) => Ok(memory_type(limits).map(|ty| ExternType::Memory(ty))),
        EntityType::Global { val_type, mutable } => Ok(global_type(val_type, mutable)),
        EntityType::Tag(_) => Ok(None),
    }
}

/// The type of an export, as [`extern_type`] gives it; a tag has none. The only refusal is out of memory.
pub fn item_type(
    alloc: Global,
    core: &CoreModule,
    item: &ExportedItem,
) -> Result<Option<ExternType>, AllocError>
    ensures { IfOk result (λ ty. ty ≡ item_type core.now item.now) }
{
    match item {
        ExportedItem::Entity(entity) => extern_type(alloc, core, entity),
        ExportedItem::Tag => Ok(None),
    }
}

/// The exports that a module offers to others, by name, in its order: those whose types are made of the
/// four number types and references to any function; tables and memories are not shared, have addresses
/// of 32 bits, and their limits fit in 32 bits. All others are left out. The only refusal is out of
/// memory.
pub fn offered(alloc: Global, core: &CoreModule) -> Result<Keyed<Text, ExternType>, AllocError>
    ensures { IfOk result (λ table. table ≡ offered core.now) }
{
    let mut table = Keyed::new(alloc);
    for (name, item) in core.exports.iter() {
        if let Some(ty) = item_type(alloc, core, item)? {
            table.insert(name.clone(alloc)?, ty)?;
        }
    }
    Ok(table)
}

/// An import with its type, as [`extern_type`] gives it.
fn import_type(
    alloc: Global,
    core: &CoreModule,
    import: &CoreImport,
) -> Result<Option<ImportType>, AllocError>
    ensures { IfOk result (λ i. i ≡ import_type core.now import.now) }
{
    let Some(ty) = extern_type(alloc, core, &import.entity)? else {
        return Ok(None);
    };
    Ok(Some(ImportType {
        module_name: import.module.clone(alloc)?,
        field: import.field.clone(alloc)?,
        ty,
    }))
}

/// The imports of a module, in its order, each with its type: those whose types are made of the four
/// number types and references to any function; tables and memories are not shared, have addresses of
/// 32 bits, and their limits fit in 32 bits. All others are left out. The only refusal is out of memory.
pub fn imported(alloc: Global, core: &CoreModule) -> Result<Seq<ImportType>, AllocError>
    ensures { IfOk result (λ list. list ≡ imported core.now) }
{
    let mut list = Seq::new(alloc);
    for import in core.imports.as_slice() {
        if let Some(import) = import_type(alloc, core, import)? {
            list.push(import)?;
        }
    }
    Ok(list)
}
