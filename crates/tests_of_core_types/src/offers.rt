//! What a core module offers. The query is a module, in hexadecimal digits. The answer is what it
//! offers: each name, and its type.
//!
//! A size (`sizes`) is requested by a minimum, a maximum or `_`, and `narrow`, or `wide` for addresses of 64 bits.

use comp_lists::{Keyed, Text};
use comp_roles::ExternType;
use core_sections::{CoreModule, Limits, SectionFault, read_module};
use core_types::{MemoryType, RefType, ValType};
use record_core_types::{memory_type, offered};
use std::alloc::{AllocError, Global};
use test_cases::{bytes_of, word_and_rest};

/// A letter a value type: `i` for i32, `l` for i64, `f` for f32, `d` for f64, `r` for a reference.
fn letter(ty: ValType) -> char {
    match ty {
        ValType::I32 => 'i',
        ValType::I64 => 'l',
        ValType::F32 => 'f',
        ValType::F64 => 'd',
        ValType::Ref(RefType::FuncRef) => 'r',
        ValType::Ref(RefType::Concrete(_)) => 'c',
    }
}

fn push_letters(out: &mut String, types: &[ValType]) -> Result<(), AllocError> {
    for ty in types {
        out.push(letter(*ty))?;
    }
    Ok(())
}

fn push_size(out: &mut String, least: u32, most: Option<u32>) -> Result<(), AllocError> {
    match most {
        Some(most) => write!(out, "{least}-{most}"),
        None => write!(out, "{least}-"),
    }
}

fn push_function(
    out: &mut String,
    params: &[ValType],
    results: &[ValType],
) -> Result<(), AllocError> {
    push_letters(out, params)?;
    out.push('>')?;
    push_letters(out, results)
}

fn push_global(out: &mut String, ty: ValType, mutable: bool) -> Result<(), AllocError> {
    out.push(letter(ty))?;
    if mutable {
        out.push('!')?;
    }
    Ok(())
}

/// A type as text: the letters of parameters, `>` and those of results; a size; a letter, and `!` where it
/// can be set.
fn push_type(out: &mut String, ty: &ExternType) -> Result<(), AllocError> {
    match ty {
        ExternType::Func(ty) => push_function(out, ty.params.as_slice(), ty.results.as_slice()),
        ExternType::Table(ty) => push_size(out, ty.minimum, ty.maximum),
        ExternType::Memory(ty) => push_size(out, ty.minimum, ty.maximum),
        ExternType::Global(ty) => push_global(out, ty.val_type, ty.mutable),
    }
}

fn push_entry(out: &mut String, name: &str, ty: &ExternType) -> Result<(), AllocError> {
    if !out.is_empty() {
        out.push(' ')?;
    }
    out.push_str(name)?;
    out.push('=')?;
    push_type(out, ty)
}

/// The entries of a table, with spaces between.
fn print_table(alloc: Global, table: &Keyed<Text, ExternType>) -> Result<String, AllocError> {
    let mut out = String::new(alloc);
    for (name, ty) in table.iter() {
        push_entry(&mut out, name.as_str(), ty)?;
    }
    Ok(out)
}

fn print_offered(alloc: Global, core: &CoreModule) -> Result<String, AllocError> {
    let table = offered(alloc, core)?;
    let printed = print_table(alloc, &table);
    drop(table);
    printed
}

fn print_fault(alloc: Global, fault: SectionFault) -> Result<String, AllocError> {
    match fault {
        SectionFault::Memory => Err(AllocError),
        _ => String::from_str(alloc, "the module is not read"),
    }
}

fn print_module(alloc: Global, bytes: &[u8]) -> Result<String, AllocError> {
    match read_module(alloc, bytes) {
        Ok(core) => {
            let printed = print_offered(alloc, &core);
            drop(core);
            printed
        }
        Err(fault) => print_fault(alloc, fault),
    }
}

pub(crate) fn answer(alloc: Global, asked: &str) -> Result<String, AllocError> {
    let bytes = bytes_of(alloc, asked)?;
    print_module(alloc, bytes.as_slice())
}

/// The limits of a minimum, a maximum or `_`, and `narrow` or `wide`.
pub(crate) fn limits_of(text: &str) -> Limits {
    let (minimum, rest) = word_and_rest(text);
    let (maximum, width) = word_and_rest(rest);
    Limits {
        minimum: minimum.parse::<u64>().unwrap_or(0),
        maximum: maximum.parse::<u64>().ok(),
        is_wide: width == "wide",
    }
}

fn print_size(alloc: Global, ty: MemoryType) -> Result<String, AllocError> {
    let mut out = String::new(alloc);
    push_size(&mut out, ty.minimum, ty.maximum)?;
    Ok(out)
}

pub(crate) fn size_answer(alloc: Global, asked: &str) -> Result<String, AllocError> {
    match memory_type(limits_of(asked)) {
        Some(ty) => print_size(alloc, ty),
        None => String::from_str(alloc, "none"),
    }
}
