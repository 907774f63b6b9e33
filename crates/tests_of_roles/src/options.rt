//! Sets of options, and the options of a set.
//!
//! The query is one of these:
//!
//! - `lift` or `lower`, and what values contain (`string`, `memory` or `nothing`): the bits of the set;
//! - `list`, a set, an encoding, and the numbers of a memory and a realloc (`_` where there is none): how many options there
//!   are, each option and how many are left after it, or the fault;
//! - `calls` and a function of the types that are given: the bits of what it needs in each form of call.
//!
//! A set is `+` alone, or has the names of its options with `+` between them.

use bitflags::Flags;
use comp_options::{OptionFault, RequiredOptions};
use standard_kinds::StringEncoding;
use std::alloc::{AllocError, Global};
use std::iter::ExactSizeIterator;
use test_cases::word_and_rest;
use wit_data::{AbiVariant, Function, Resolve, TypeContents};
use wit_texts::{FORMS, function_of, resolve_of};

fn contents_of(word: &str) -> TypeContents {
    match word {
        "string" => TypeContents::STRING,
        "memory" => TypeContents::NEEDS_MEMORY,
        _ => TypeContents::empty(),
    }
}

fn print_bits(alloc: Global, set: RequiredOptions) -> Result<String, AllocError> {
    let bits = set.bits();
    format!(in alloc; "{bits}")
}

fn lift_answer(alloc: Global, word: &str) -> Result<String, AllocError> {
    let mut set = RequiredOptions::empty();
    set.add_lift(contents_of(word));
    print_bits(alloc, set)
}

fn lower_answer(alloc: Global, word: &str) -> Result<String, AllocError> {
    let mut set = RequiredOptions::empty();
    set.add_lower(contents_of(word));
    print_bits(alloc, set)
}

fn option_of(word: &str) -> RequiredOptions {
    match word {
        "memory" => RequiredOptions::MEMORY,
        "realloc" => RequiredOptions::REALLOC,
        "encoding" => RequiredOptions::STRING_ENCODING,
        "async" => RequiredOptions::ASYNC,
        _ => RequiredOptions::empty(),
    }
}

fn set_of(text: &str) -> RequiredOptions {
    let mut set = RequiredOptions::empty();
    for word in text.split("+") {
        set = set | option_of(word);
    }
    set
}

fn encoding_of(word: &str) -> StringEncoding {
    match word {
        "utf8" => StringEncoding::UTF8,
        "utf16" => StringEncoding::UTF16,
        _ => StringEncoding::CompactUTF16,
    }
}

/// The number of a memory or a realloc, where there is one.
fn index_of(word: &str) -> Option<u32> {
    match word.parse::<u32>() {
        Ok(index) => Some(index),
        Err(_) => None,
    }
}

fn print_fault(alloc: Global, fault: OptionFault) -> Result<String, AllocError> {
    match fault {
        OptionFault::NoMemory => String::from_str(alloc, "NoMemory"),
        OptionFault::NoRealloc => String::from_str(alloc, "NoRealloc"),
    }
}

/// Each option of a set, and how many there are before it and at the end.
fn print_options(
    alloc: Global,
    set: RequiredOptions,
    encoding: StringEncoding,
    memory: Option<u32>,
    realloc: Option<u32>,
) -> Result<String, AllocError> {
    let mut options = match set.into_iter(encoding, memory, realloc) {
        Ok(options) => options,
        Err(fault) => return print_fault(alloc, fault),
    };
    let mut out = String::new(alloc);
    write!(out, "{}", options.len())?;
    for _ in 0..5 {
        if let Some(option) = options.next() {
            write!(out, " {option:?} {}", options.len())?;
        }
    }
    Ok(out)
}

fn list_answer(alloc: Global, text: &str) -> Result<String, AllocError> {
    let (set, rest) = word_and_rest(text);
    let (encoding, rest) = word_and_rest(rest);
    let (memory, realloc) = word_and_rest(rest);
    print_options(
        alloc,
        set_of(set),
        encoding_of(encoding),
        index_of(memory),
        index_of(realloc),
    )
}

/// What a call needs of a function that is in the resolve.
fn needed(resolve: &Resolve, function: &Function, abi: AbiVariant) -> Option<u8> {
    if !resolve.is_sound() || !resolve.has_function(function) {
        return None;
    }
    let set = match abi {
        AbiVariant::GuestImport | AbiVariant::GuestImportAsync => {
            RequiredOptions::for_import(resolve, function, abi)
        }
        _ => RequiredOptions::for_export(resolve, function, abi),
    };
    Some(set.bits())
}

fn push_needed(out: &mut String, needed: Option<u8>) -> Result<(), AllocError> {
    if !out.is_empty() {
        out.push(' ')?;
    }
    match needed {
        Some(bits) => write!(out, "{bits}"),
        None => out.push_str("unsound"),
    }
}

/// What a function needs in each form of call.
fn print_calls(
    alloc: Global,
    resolve: &Resolve,
    function: &Function,
) -> Result<String, AllocError> {
    let mut out = String::new(alloc);
    for abi in FORMS {
        push_needed(&mut out, needed(resolve, function, abi))?;
    }
    Ok(out)
}

fn calls_in(alloc: Global, resolve: &Resolve, text: &str) -> Result<String, AllocError> {
    let function = function_of(alloc, text)?;
    let printed = print_calls(alloc, resolve, &function);
    drop(function);
    printed
}

fn calls_answer(alloc: Global, given: &str, text: &str) -> Result<String, AllocError> {
    let resolve = resolve_of(alloc, given)?;
    let printed = calls_in(alloc, &resolve, text);
    drop(resolve);
    printed
}

pub(crate) fn answer(alloc: Global, given: &str, asked: &str) -> Result<String, AllocError> {
    let (question, rest) = word_and_rest(asked);
    match question {
        "lift" => lift_answer(alloc, rest),
        "lower" => lower_answer(alloc, rest),
        "list" => list_answer(alloc, rest),
        "calls" => calls_answer(alloc, given, rest),
        _ => String::from_str(alloc, "no question"),
    }
}
