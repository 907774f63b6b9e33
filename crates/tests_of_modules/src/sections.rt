//! Sections that are written.

use comp_lists::Text;
use core_bytes::{Code, ElementSection, Instruction, LocalRun, ModuleNames, NameMap, Section};
use core_types::ValType;
use std::alloc::{AllocError, Global};

/// A sum is stored.
const SUM: [Instruction; 5] = [
    Instruction::I32Const(64),
    Instruction::GlobalGet(0),
    Instruction::GlobalGet(1),
    Instruction::I32Add,
    Instruction::I32Store,
];

/// A number is chosen by a status.
const CHOICE: [Instruction; 13] = [
    Instruction::I32Const(3),
    Instruction::Call(0),
    Instruction::LocalGet(0),
    Instruction::LocalGet(1),
    Instruction::LocalGet(2),
    Instruction::Call(2),
    Instruction::LocalSet(3),
    Instruction::I32Const(4),
    Instruction::I32Const(5),
    Instruction::LocalGet(3),
    Instruction::Select,
    Instruction::Call(0),
    Instruction::LocalGet(3),
];

const NUMBERS: [Instruction; 4] = [
    Instruction::I32Const(i32::MIN),
    Instruction::I64Const(i64::MIN),
    Instruction::I64Const(i64::MAX),
    Instruction::I32Const(-65),
];

const LOCAL: [LocalRun; 1] = [LocalRun {
    count: 1,
    val_type: ValType::I32,
}];

const TWELVE: [u32; 12] = [0, 1, 2, 3, 4, 5, 6, 7, 8, 9, 10, 11];

/// A section of one body.
fn code(
    alloc: Global,
    locals: &[LocalRun],
    instructions: &[Instruction],
) -> Result<Section, AllocError> {
    let mut section = Code::new(alloc);
    section.body(locals, instructions)?;
    Ok(Section::Code(section))
}

/// A section of functions for the slots of a table.
fn active(
    alloc: Global,
    table: Option<u32>,
    offset: i32,
    functions: &[u32],
) -> Result<Section, AllocError> {
    let mut section = ElementSection::new(alloc);
    section.active(table, offset, functions)?;
    Ok(Section::Elements(section))
}

/// A section of functions that are declared.
fn declared(alloc: Global, functions: &[u32]) -> Result<Section, AllocError> {
    let mut section = ElementSection::new(alloc);
    section.declared(functions)?;
    Ok(Section::Elements(section))
}

/// One name.
fn name_map(alloc: Global, index: u32, name: &str) -> Result<NameMap, AllocError> {
    let mut names = NameMap::new(alloc);
    names.append(index, name)?;
    Ok(names)
}

/// The names of a module, of a function and of a global.
fn names(alloc: Global) -> Result<Section, AllocError> {
    let module_name = Text::from_str(alloc, "a")?;
    let functions = name_map(alloc, 0, "f")?;
    let globals = name_map(alloc, 1, "g")?;
    Ok(Section::Names(ModuleNames {
        module_name,
        functions: Some(functions),
        globals: Some(globals),
    }))
}

/// The section of this name.
pub(crate) fn section(alloc: Global, name: &str) -> Result<Section, AllocError> {
    match name {
        "code([], SUM)" => code(alloc, &[], &SUM),
        "code(LOCAL, CHOICE)" => code(alloc, &LOCAL, &CHOICE),
        "code([], NUMBERS)" => code(alloc, &[], &NUMBERS),
        "active(None, 0, TWELVE)" => active(alloc, None, 0, &TWELVE),
        "active(Some(1), 2, [3])" => active(alloc, Some(1), 2, &[3]),
        "declared(TWELVE)" => declared(alloc, &TWELVE),
        _ => names(alloc),
    }
}
