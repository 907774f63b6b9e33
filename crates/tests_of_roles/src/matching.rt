//! Import matching, and kinds of core types.
//!
//! A type is a word and what follows it: `func ii>l` with the types of a function's parameters and
//! results, `table 1-2` and `memory 1-` with limits, `concrete 1-2` for a table of references to
//! functions of one type, `global i` and `mutable i` with the type of its value. The queries are
//! `kind` and a type, `numbers` and the letters of a function, and `match` with the type of an
//! import, ` | ` and that of what is offered.

use comp_lists::Seq;
use comp_roles::{ExternType, has_numbers};
use core_types::{FuncType, GlobalType, MemoryType, RefType, TableType, ValType};
use standard_kinds::ExportKind;
use std::alloc::{AllocError, Global};
use test_cases::word_and_rest;

/// The type of a letter: `i` is i32, `l` i64, `f` f32, `d` f64, and all others are references to functions.
fn value(letter: char) -> ValType {
    match letter {
        'i' => ValType::I32,
        'l' => ValType::I64,
        'f' => ValType::F32,
        'd' => ValType::F64,
        _ => ValType::Ref(RefType::FuncRef),
    }
}

fn values(alloc: Global, letters: &str) -> Result<Seq<ValType>, AllocError> {
    let mut types = Seq::new(alloc);
    for letter in letters.chars() {
        types.push(value(letter))?;
    }
    Ok(types)
}

/// The type of a function by the letters of its parameters, `>`, and those of its results.
fn func_type(alloc: Global, letters: &str) -> Result<FuncType, AllocError> {
    let (params, results) = letters.split_once(">").unwrap_or((letters, ""));
    let params = values(alloc, params)?;
    let results = values(alloc, results)?;
    Ok(FuncType { params, results })
}

/// The limits of a text, as in `1-2`, or in `1-` where there is no maximum.
fn limits(text: &str) -> MemoryType {
    let (minimum, maximum) = text.split_once("-").unwrap_or((text, ""));
    MemoryType {
        minimum: minimum.parse::<u32>().unwrap_or(0),
        maximum: maximum.parse::<u32>().ok(),
    }
}

fn table(element_type: RefType, text: &str) -> ExternType {
    let MemoryType { minimum, maximum } = limits(text);
    ExternType::Table(TableType {
        element_type,
        minimum,
        maximum,
    })
}

/// The type of the value of a global.
fn val_type(text: &str) -> ValType {
    match text.chars().next() {
        Some(letter) => value(letter),
        None => ValType::I32,
    }
}

fn global(text: &str, mutable: bool) -> ExternType {
    let val_type = val_type(text);
    ExternType::Global(GlobalType { val_type, mutable })
}

fn extern_type(alloc: Global, text: &str) -> Result<ExternType, AllocError> {
    let (word, rest) = word_and_rest(text);
    match word {
        "func" => Ok(ExternType::Func(func_type(alloc, rest)?)),
        "table" => Ok(table(RefType::FuncRef, rest)),
        "concrete" => Ok(table(RefType::Concrete(0), rest)),
        "memory" => Ok(ExternType::Memory(limits(rest))),
        "mutable" => Ok(global(rest, true)),
        _ => Ok(global(rest, false)),
    }
}

fn name_of(kind: ExportKind) -> &'static str {
    match kind {
        ExportKind::Func => "func",
        ExportKind::Table => "table",
        ExportKind::Memory => "memory",
        ExportKind::Global => "global",
    }
}

fn yes_or_no(is: bool) -> &'static str {
    if is { "yes" } else { "no" }
}

fn is_matched(alloc: Global, text: &str) -> Result<bool, AllocError> {
    let (required, offered) = text.split_once(" | ").unwrap_or((text, ""));
    let required = extern_type(alloc, required)?;
    let offered = extern_type(alloc, offered)?;
    Ok(required.is_matched_by(&offered))
}

fn has_only_numbers(alloc: Global, letters: &str) -> Result<bool, AllocError> {
    let ty = func_type(alloc, letters)?;
    Ok(has_numbers(&ty))
}

fn kind_of(alloc: Global, text: &str) -> Result<ExportKind, AllocError> {
    let ty = extern_type(alloc, text)?;
    Ok(ty.kind())
}

pub(crate) fn answer(alloc: Global, asked: &str) -> Result<String, AllocError> {
    let (word, rest) = word_and_rest(asked);
    let answer = match word {
        "kind" => name_of(kind_of(alloc, rest)?),
        "numbers" => yes_or_no(has_only_numbers(alloc, rest)?),
        _ => yes_or_no(is_matched(alloc, rest)?),
    };
    String::from_str(alloc, answer)
}
