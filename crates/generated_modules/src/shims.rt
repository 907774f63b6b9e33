//! Shims of functions with two parameters, by their number up to twelve, and what fills them.

ghost use Rattle.std.specs.Prelude.{◌≤◌};

use crate::sections::{
    PAIR, changing, code, element, finish, functions, functions_of_one_type, globals, put,
    put_body, table, types,
};
use byte_encoding::BuildFault;
use comp_lists::Seq;
use core_bytes::{
    Code, ConstExpr, ElementSegment, EntityType, ExportSection, ImportSection, Module, Section,
};
use core_runs::{
    GlobalFill, Shim, ref_shim_body, start_body, stub_body, table_fill, table_of_shims,
    table_shim_bodies,
};
use core_types::{GlobalType, RefType, ValType};
use standard_kinds::ExportKind;
use std::alloc::{AllocError, Global};

/// The names of shims, by their numbers.
const NAMES: [&str; 12] = ["0", "1", "2", "3", "4", "5", "6", "7", "8", "9", "10", "11"];

/// The names of their globals.
const GLOBALS: [&str; 12] = [
    "g0", "g1", "g2", "g3", "g4", "g5", "g6", "g7", "g8", "g9", "g10", "g11",
];

const NUMBERS: [u32; 12] = [0, 1, 2, 3, 4, 5, 6, 7, 8, 9, 10, 11];

/// What a shim's global holds: functions of type 0.
const HELD: ValType = ValType::Ref(RefType::Concrete(0));

const SHIM: Shim = Shim {
    params: 2,
    type_index: 0,
};

const SHIMS: [Shim; 12] = [
    SHIM, SHIM, SHIM, SHIM, SHIM, SHIM, SHIM, SHIM, SHIM, SHIM, SHIM, SHIM,
];

/// The type of the shims.
fn shim_types(alloc: Global) -> Result<Section, AllocError> {
    types(alloc, &[(&PAIR, &[])])
}

/// The shims and their table.
fn table_exports(alloc: Global, count: usize) -> Result<Section, AllocError> {
    let mut section = ExportSection::new(alloc);
    for (name, number) in NAMES.iter().zip(NUMBERS.iter()).take(count) {
        section.export(name, ExportKind::Func, *number)?;
    }
    section.export("$imports", ExportKind::Table, 0)?;
    Ok(Section::Exports(section))
}

/// The shims.
fn table_bodies(alloc: Global, count: usize) -> Result<Section, AllocError>
    requires { count ≤ 12 }
{
    Ok(Section::Code(table_shim_bodies(alloc, &SHIMS[..count])?))
}

/// The sections of shims in the table form.
fn put_table_shims(module: &mut Module, alloc: Global, count: usize) -> Result<(), AllocError>
    requires { count ≤ 12 }
{
    put(module, shim_types(alloc))?;
    put(module, functions_of_one_type(alloc, count))?;
    put(module, table(alloc, table_of_shims(count as u32)))?;
    put(module, table_exports(alloc, count))?;
    put(module, table_bodies(alloc, count))
}

/// Shims in the table form.
pub(crate) fn table_shims(alloc: Global, count: usize) -> Result<Vec<u8>, BuildFault>
    requires { count ≤ 12 }
{
    let mut module = Module::new(alloc);
    let put = put_table_shims(&mut module, alloc, count);
    finish(alloc, &module, put)
}

/// The functions that shims call, and their table.
fn table_imports(alloc: Global, count: usize) -> Result<Section, AllocError>
    requires { count ≤ 12 }
{
    let mut section = ImportSection::new(alloc);
    for name in NAMES.iter().take(count) {
        section.import("actual", name, EntityType::Function(0))?;
    }
    let table = EntityType::Table(table_of_shims(count as u32));
    section.import("shim", "$imports", table)?;
    Ok(Section::Imports(section))
}

/// The segment that fills their table.
fn table_segment(alloc: Global, count: usize) -> Result<Section, AllocError>
    requires { count ≤ 12 }
{
    element(alloc, &table_fill(alloc, &NUMBERS[..count])?)
}

/// The sections of what fills their table.
fn put_table_fills(module: &mut Module, alloc: Global, count: usize) -> Result<(), AllocError>
    requires { count ≤ 12 }
{
    put(module, shim_types(alloc))?;
    put(module, table_imports(alloc, count))?;
    put(module, table_segment(alloc, count))
}

/// What fills their table.
pub(crate) fn table_fills(alloc: Global, count: usize) -> Result<Vec<u8>, BuildFault>
    requires { count ≤ 12 }
{
    let mut module = Module::new(alloc);
    let put = put_table_fills(&mut module, alloc, count);
    finish(alloc, &module, put)
}

/// The globals and the functions of the shims.
fn ref_exports(alloc: Global, count: usize) -> Result<Section, AllocError> {
    let mut section = ExportSection::new(alloc);
    for number in NUMBERS.iter().take(count) {
        put_ref_exports(&mut section, *number)?;
    }
    Ok(Section::Exports(section))
}

/// The global and the function of one shim.
fn put_ref_exports(section: &mut ExportSection, number: u32) -> Result<(), AllocError> {
    if let Some(global) = GLOBALS.get(number as usize) {
        section.export(global, ExportKind::Global, number)?;
    }
    if let Some(name) = NAMES.get(number as usize) {
        section.export(name, ExportKind::Func, number.saturating_add(1))?;
    }
    Ok(())
}

/// A stub, and the shims.
fn ref_bodies(alloc: Global, count: usize) -> Result<Section, AllocError> {
    let mut code = Code::new(alloc);
    put_body(&mut code, stub_body(alloc))?;
    for number in NUMBERS.iter().take(count) {
        put_body(&mut code, ref_shim_body(alloc, 2, *number, 0))?;
    }
    Ok(Section::Code(code))
}

/// The sections of shims in the reference form.
fn put_ref_shims(module: &mut Module, alloc: Global, count: usize) -> Result<(), AllocError>
    requires { count ≤ 12 }
{
    put(module, shim_types(alloc))?;
    put(module, functions_of_one_type(alloc, count + 1))?;
    put(
        module,
        globals(alloc, count, changing(HELD, ConstExpr::RefFunc(0))),
    )?;
    put(module, ref_exports(alloc, count))?;
    put(module, ref_bodies(alloc, count))
}

/// Shims in the reference form.
pub(crate) fn ref_shims(alloc: Global, count: usize) -> Result<Vec<u8>, BuildFault>
    requires { count ≤ 12 }
{
    let mut module = Module::new(alloc);
    let put = put_ref_shims(&mut module, alloc, count);
    finish(alloc, &module, put)
}

/// The functions that shims call, and their globals.
fn ref_imports(alloc: Global, count: usize) -> Result<Section, AllocError> {
    let mut section = ImportSection::new(alloc);
    for (name, global) in NAMES.iter().zip(GLOBALS.iter()).take(count) {
        put_ref_imports(&mut section, name, global)?;
    }
    Ok(Section::Imports(section))
}

/// The function for one shim, and its global.
fn put_ref_imports(
    section: &mut ImportSection,
    name: &str,
    global: &str,
) -> Result<(), AllocError> {
    section.import("actual", name, EntityType::Function(0))?;
    let held = GlobalType {
        val_type: HELD,
        mutable: true,
    };
    section.import("shim", global, EntityType::Global(held))
}

/// The start function, which fills global i with function i.
fn ref_start(alloc: Global, count: usize) -> Result<Section, AllocError> {
    let mut fills = Vec::new(alloc);
    for number in NUMBERS.iter().take(count) {
        fills.push(GlobalFill {
            global: *number,
            function: *number,
        })?;
    }
    code(alloc, start_body(alloc, fills.as_slice(), &[]))
}

/// The functions that fill their globals, as such that code may refer to.
fn declared(alloc: Global, count: usize) -> Result<Section, AllocError>
    requires { count ≤ 12 }
{
    let functions = Seq::from_vec(Vec::from_slice(alloc, &NUMBERS[..count])?);
    element(alloc, &ElementSegment::Declared(functions))
}

/// The sections of what fills their globals.
fn put_ref_fills(module: &mut Module, alloc: Global, count: usize) -> Result<(), AllocError>
    requires { count ≤ 12 }
{
    put(module, types(alloc, &[(&PAIR, &[]), (&[], &[])]))?;
    put(module, ref_imports(alloc, count))?;
    put(module, functions(alloc, &[1]))?;
    put(module, Ok(Section::Start(count as u32)))?;
    put(module, declared(alloc, count))?;
    put(module, ref_start(alloc, count))
}

/// What fills their globals.
pub(crate) fn ref_fills(alloc: Global, count: usize) -> Result<Vec<u8>, BuildFault>
    requires { count ≤ 12 }
{
    let mut module = Module::new(alloc);
    let put = put_ref_fills(&mut module, alloc, count);
    finish(alloc, &module, put)
}
