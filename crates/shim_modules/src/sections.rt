//! The parts of a module of shims.
//!
//! Core standard, structure: modules; appendix, custom sections: name section.

ghost use Rattle.std.specs.Prelude.{true, ◌≡◌, ◌+◌, ◌<◌, ◌≤◌, ◌^◌, [], ◌∷◌, ◌++◌, map, length, IfOk, OnOk, IsSome};
ghost use Rattle.std.specs.Fmt.{decimal};
ghost use Rattle.standard_kinds.specs.declared.kinds.ExportKind.TheVariants as kinds;
ghost use Rattle.core_bytes.specs.declared.section.Section.TheVariants as sections;
ghost use Rattle.core_runs.specs.Bodies as bodies;
ghost use Rattle.shim_modules.specs.Shims.{shim_exports, exports_of, shim_names, names_of, cell_exports, cell_names, cell_types, cell_bodies, cell_global, zero_constant, function_types, function_bodies};

use crate::shims::{ShimFunction, ThreadCell};
use comp_lists::Text;
use core_bytes::{
    Code, ConstExpr, ExportSection, FunctionSection, GlobalSection, MemorySection, ModuleNames,
    NameMap, Section, TableSection,
};
use core_runs::{Shim, table_of_shims, table_shim_bodies, tls_get_body, tls_set_body};
use core_types::{GlobalType, MemoryType, ValType};
use standard_kinds::ExportKind;
use std::alloc::{AllocError, Global};

/// The functions, by their types: the shims, and then those of the cell, where there is one.
pub(crate) fn function_section(
    alloc: Global,
    cell: Option<ThreadCell>,
    shims: &[ShimFunction],
) -> Result<Section, AllocError>
    ensures { IfOk result (λ made. made ≡ sections.Functions (function_types cell shims.now)) }
{
    let mut section = shim_types(alloc, shims)?;
    put_cell_types(&mut section, cell)?;
    Ok(Section::Functions(section))
}

/// The shims, by their types.
fn shim_types(alloc: Global, shims: &[ShimFunction]) -> Result<FunctionSection, AllocError>
    ensures { IfOk result (λ made. made ≡ map (λ s. s.code.type_index) shims.now) }
{
    let mut section = FunctionSection::new(alloc);
    for shim in shims {
        section.function(shim.code.type_index)?;
    }
    Ok(section)
}

/// The functions of the cell, by their types.
fn put_cell_types(section: &mut FunctionSection, cell: Option<ThreadCell>) -> Result<(), AllocError>
    ensures { OnOk result (section.new ≡ section.old ++ cell_types cell) }
{
    if let Some(cell) = cell {
        section.function(cell.getter_type)?;
        section.function(cell.setter_type)?;
    }
    Ok(())
}

/// The table, with a slot for each shim.
pub(crate) fn table_section(alloc: Global, count: u32) -> Result<Section, AllocError>
    ensures { IfOk result (λ made. made ≡ sections.Tables (bodies.table_of_shims count ∷ [])) }
{
    let mut section = TableSection::new(alloc);
    section.table(table_of_shims(count))?;
    Ok(Section::Tables(section))
}

/// The one memory.
pub(crate) fn memory_section(alloc: Global, memory_type: MemoryType) -> Result<Section, AllocError>
    ensures { IfOk result (λ made. made ≡ sections.Memories (memory_type ∷ [])) }
{
    let mut section = MemorySection::new(alloc);
    section.memory(memory_type)?;
    Ok(Section::Memories(section))
}

/// Zero, as the initial value of a cell of this type.
fn zero_constant(val_type: ValType) -> ConstExpr
    ensures { result ≡ zero_constant val_type }
{
    match val_type {
        ValType::I64 => ConstExpr::I64(0),
        _ => ConstExpr::I32(0),
    }
}

/// The one global, which holds zero at first.
pub(crate) fn global_section(alloc: Global, cell: ThreadCell) -> Result<Section, AllocError>
    ensures { IfOk result (λ made. made ≡ sections.Globals (cell_global cell ∷ [])) }
{
    let mut section = GlobalSection::new(alloc);
    let global_type = GlobalType {
        val_type: cell.val_type,
        mutable: true,
    };
    section.global(global_type, zero_constant(cell.val_type))?;
    Ok(Section::Globals(section))
}

/// The exports: each shim under its number; the table, where there are any; the memory, where there
/// is one; and the functions of the cell, where there is one.
pub(crate) fn export_section(
    alloc: Global,
    memory: Option<MemoryType>,
    cell: Option<ThreadCell>,
    shims: &[ShimFunction],
) -> Result<Section, AllocError>
    requires count { length shims.now < 2 ^ 32 }
    requires room { IsSome cell → length shims.now + 1 < 2 ^ 32 }
    ensures { IfOk result (λ made. made ≡ sections.Exports (exports_of memory cell shims.now)) }
{
    let mut section = exported_shims(alloc, shims)?;
    if !shims.is_empty() {
        section.export("$imports", ExportKind::Table, 0)?;
    }
    if memory.is_some() {
        section.export("$memory", ExportKind::Memory, 0)?;
    }
    put_cell_exports(&mut section, cell, shims.len() as u32)?;
    Ok(Section::Exports(section))
}

/// The exports of the shims.
fn exported_shims(alloc: Global, shims: &[ShimFunction]) -> Result<ExportSection, AllocError>
    requires count { length shims.now < 2 ^ 32 }
    ensures { IfOk result (λ made. made ≡ shim_exports 0 shims.now) }
{
    let mut section = ExportSection::new(alloc);
    for (number, _shim) in shims.iter().enumerate() {
        export_shim(&mut section, alloc, number as u32)?;
    }
    Ok(section)
}

/// Exports the shim with a number under the number's decimal digits.
fn export_shim(section: &mut ExportSection, alloc: Global, number: u32) -> Result<(), AllocError>
    ensures { OnOk result (section.new
        ≡ section.old ++ record { name = decimal number; kind = kinds.Func; index = number }
        ∷ []) }
{
    let name = format!(in alloc; "{number}")?;
    section.export(name.as_str(), ExportKind::Func, number)
}

/// The exports of the cell's functions, which come behind so many shims.
fn put_cell_exports(
    section: &mut ExportSection,
    cell: Option<ThreadCell>,
    count: u32,
) -> Result<(), AllocError>
    requires room { IsSome cell → count + 1 < 2 ^ 32 }
    ensures { OnOk result (section.new ≡ section.old ++ cell_exports count cell) }
{
    if cell.is_some() {
        section.export("$get-tls-base", ExportKind::Func, count)?;
        section.export("$set-tls-base", ExportKind::Func, count + 1)?;
    }
    Ok(())
}

/// The bodies of the shims, and then those of the cell's functions, where there is a cell.
pub(crate) fn code_section(
    alloc: Global,
    cell: Option<ThreadCell>,
    shims: &[ShimFunction],
) -> Result<Section, AllocError>
    requires count { length shims.now ≤ 2 ^ 32 }
    ensures { IfOk result (λ made. made ≡ sections.Code (function_bodies cell shims.now)) }
{
    let codes = codes_of(alloc, shims)?;
    let mut code = table_shim_bodies(alloc, codes.as_slice())?;
    put_cell_bodies(&mut code, alloc, cell)?;
    Ok(Section::Code(code))
}

/// The codes of the shims.
fn codes_of(alloc: Global, shims: &[ShimFunction]) -> Result<Vec<Shim>, AllocError>
    ensures { IfOk result (λ made. made.items ≡ map (λ s. s.code) shims.now) }
{
    let mut codes = Vec::new(alloc);
    for shim in shims {
        codes.push(shim.code)?;
    }
    Ok(codes)
}

/// The body of the function that reads the cell, global 0.
fn put_getter(code: &mut Code, alloc: Global) -> Result<(), AllocError>
    ensures { OnOk result (code.new ≡ code.old ++ bodies.tls_get 0 ∷ []) }
{
    let body = tls_get_body(alloc, 0)?;
    code.body(body.locals.as_slice(), body.instructions.as_slice())
}

/// The body of the function that sets the cell, global 0.
fn put_setter(code: &mut Code, alloc: Global) -> Result<(), AllocError>
    ensures { OnOk result (code.new ≡ code.old ++ bodies.tls_set 0 ∷ []) }
{
    let body = tls_set_body(alloc, 0)?;
    code.body(body.locals.as_slice(), body.instructions.as_slice())
}

/// The bodies of the cell's functions.
fn put_cell_bodies(
    code: &mut Code,
    alloc: Global,
    cell: Option<ThreadCell>,
) -> Result<(), AllocError>
    ensures { OnOk result (code.new ≡ code.old ++ cell_bodies cell) }
{
    if cell.is_some() {
        put_getter(code, alloc)?;
        put_setter(code, alloc)?;
    }
    Ok(())
}

/// The names of the module and of its functions.
pub(crate) fn name_section(
    alloc: Global,
    cell: Option<ThreadCell>,
    shims: &[ShimFunction],
) -> Result<Section, AllocError>
    requires count { length shims.now < 2 ^ 32 }
    requires room { IsSome cell → length shims.now + 1 < 2 ^ 32 }
    ensures { IfOk result (λ made. made ∷ [] ≡ names_of true cell shims.now) }
{
    let mut functions = function_names(alloc, shims)?;
    put_cell_names(&mut functions, cell, shims.len() as u32)?;
    Ok(Section::Names(ModuleNames {
        module_name: Text::from_str(alloc, "wit-component:shim")?,
        functions: Some(functions),
        globals: None,
    }))
}

/// The debug names of the shims.
fn function_names(alloc: Global, shims: &[ShimFunction]) -> Result<NameMap, AllocError>
    requires count { length shims.now < 2 ^ 32 }
    ensures { IfOk result (λ made. made ≡ shim_names 0 shims.now) }
{
    let mut names = NameMap::new(alloc);
    for (number, shim) in shims.iter().enumerate() {
        names.append(number as u32, shim.debug_name.as_str())?;
    }
    Ok(names)
}

/// The debug names of the cell's functions, which come behind so many shims.
fn put_cell_names(
    names: &mut NameMap,
    cell: Option<ThreadCell>,
    count: u32,
) -> Result<(), AllocError>
    requires room { IsSome cell → count + 1 < 2 ^ 32 }
    ensures { OnOk result (names.new ≡ names.old ++ cell_names count cell) }
{
    if cell.is_some() {
        names.append(count, "$get-tls-base")?;
        names.append(count + 1, "$set-tls-base")?;
    }
    Ok(())
}
