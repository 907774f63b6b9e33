//! The whole module of shims.

ghost use Rattle.std.specs.Prelude.{◌≡◌, ◌+◌, ◌<◌, ◌^◌, ◌++◌, ◌∷◌, length, IfOk, OnOk, IsSome};
ghost use Rattle.core_bytes.specs.declared.section.Section.TheVariants as sections;
ghost use Rattle.shim_modules.specs.Shims.{shim_module, definitions, exports_of, names_of};
ghost use Rattle.shim_modules.specs.Shims as parts;

use crate::sections::{
    code_section, export_section, function_section, global_section, memory_section, name_section,
    table_section,
};
use crate::shims::{ShimFunction, ThreadCell};
use core_bytes::{Module, Section};
use core_types::MemoryType;
use interned_types::CoreTypes;
use std::alloc::{AllocError, Global};

/// The module of shims in the table form, or `None` where there are no shims, no memory and no
/// cell: a function for each shim, exported under the decimal digits of its number; a table with a
/// slot for each, exported as `$imports`, where there are any; the memory, exported as `$memory`,
/// where there is one; where there is a cell, its global and the two functions that read and set
/// it, exported as `$get-tls-base` and `$set-tls-base`; and, where it is asked for, the names of
/// the module and of its functions. The types are those that the functions name by index. It fails
/// only out of memory.
///
/// Core standard, structure: modules.
pub fn shim_module(
    alloc: Global,
    memory: Option<MemoryType>,
    cell: Option<ThreadCell>,
    types: &CoreTypes,
    shims: &[ShimFunction],
    debug_names: bool,
) -> Result<Option<Module>, AllocError>
    requires count { length shims.now < 2 ^ 32 }
    requires room { IsSome cell → length shims.now + 1 < 2 ^ 32 }
    ensures { IfOk result (λ made. made
        ≡ shim_module memory cell types.now shims.now debug_names) }
{
    if shims.is_empty() && memory.is_none() && cell.is_none() {
        return Ok(None);
    }
    let mut module = Module::new(alloc);
    put_definitions(&mut module, alloc, memory, cell, types, shims)?;
    module.section(export_section(alloc, memory, cell, shims)?)?;
    put_code(&mut module, alloc, cell, shims)?;
    put_names(&mut module, alloc, cell, shims, debug_names)?;
    Ok(Some(module))
}

/// Adds the types, the functions, the table, the memory, and the global of the cell.
fn put_definitions(
    module: &mut Module,
    alloc: Global,
    memory: Option<MemoryType>,
    cell: Option<ThreadCell>,
    types: &CoreTypes,
    shims: &[ShimFunction],
) -> Result<(), AllocError>
    requires count { length shims.now < 2 ^ 32 }
    ensures { OnOk result («module».new
        ≡ «module».old ++ definitions memory cell types.now shims.now) }
{
    module.section(Section::Types(types.section(alloc)?))?;
    put_functions(module, alloc, cell, shims)?;
    put_table(module, alloc, shims)?;
    put_memory(module, alloc, memory)?;
    put_global(module, alloc, cell)
}

/// Adds the functions, where there are any.
fn put_functions(
    module: &mut Module,
    alloc: Global,
    cell: Option<ThreadCell>,
    shims: &[ShimFunction],
) -> Result<(), AllocError>
    ensures { OnOk result («module».new ≡ «module».old ++ parts.function_section cell shims.now) }
{
    if !shims.is_empty() || cell.is_some() {
        module.section(function_section(alloc, cell, shims)?)?;
    }
    Ok(())
}

/// Adds the table of the shims, where there are any.
fn put_table(module: &mut Module, alloc: Global, shims: &[ShimFunction]) -> Result<(), AllocError>
    requires count { length shims.now < 2 ^ 32 }
    ensures { OnOk result («module».new ≡ «module».old ++ parts.table_section shims.now) }
{
    if !shims.is_empty() {
        module.section(table_section(alloc, shims.len() as u32)?)?;
    }
    Ok(())
}

/// Adds the memory, where there is one.
fn put_memory(
    module: &mut Module,
    alloc: Global,
    memory: Option<MemoryType>,
) -> Result<(), AllocError>
    ensures { OnOk result («module».new ≡ «module».old ++ parts.memory_section memory) }
{
    if let Some(memory_type) = memory {
        module.section(memory_section(alloc, memory_type)?)?;
    }
    Ok(())
}

/// Adds the global of the cell, where there is one.
fn put_global(
    module: &mut Module,
    alloc: Global,
    cell: Option<ThreadCell>,
) -> Result<(), AllocError>
    ensures { OnOk result («module».new ≡ «module».old ++ parts.global_section cell) }
{
    if let Some(cell) = cell {
        module.section(global_section(alloc, cell)?)?;
    }
    Ok(())
}

/// Adds the bodies of the functions, where there are any.
fn put_code(
    module: &mut Module,
    alloc: Global,
    cell: Option<ThreadCell>,
    shims: &[ShimFunction],
) -> Result<(), AllocError>
    requires count { length shims.now < 2 ^ 32 }
    ensures { OnOk result («module».new ≡ «module».old ++ parts.code_section cell shims.now) }
{
    if !shims.is_empty() || cell.is_some() {
        module.section(code_section(alloc, cell, shims)?)?;
    }
    Ok(())
}

/// Adds the names, where it is asked for.
fn put_names(
    module: &mut Module,
    alloc: Global,
    cell: Option<ThreadCell>,
    shims: &[ShimFunction],
    debug_names: bool,
) -> Result<(), AllocError>
    requires count { length shims.now < 2 ^ 32 }
    requires room { IsSome cell → length shims.now + 1 < 2 ^ 32 }
    ensures { OnOk result («module».new ≡ «module».old ++ names_of debug_names cell shims.now) }
{
    if debug_names {
        module.section(name_section(alloc, cell, shims)?)?;
    }
    Ok(())
}
