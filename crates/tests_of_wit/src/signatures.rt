//! Core signatures of functions, in each form of call.
//!
//! The query is the types of a resolve, `|`, and a function of it.

use std::alloc::{AllocError, Global};
use wit_data::{AbiVariant, Function, Resolve, WasmSignature, WasmType};
use wit_texts::{FORMS, function_of, resolve_of};

/// A letter a core type: `i` for i32, `l` for i64, `f` for f32, `d` for f64.
fn letter(ty: WasmType) -> char {
    match ty {
        WasmType::I32 => 'i',
        WasmType::I64 => 'l',
        WasmType::F32 => 'f',
        WasmType::F64 => 'd',
    }
}

fn push_letters(out: &mut String, types: &[WasmType]) -> Result<(), AllocError> {
    for ty in types {
        out.push(letter(*ty))?;
    }
    Ok(())
}

/// Adds the letters of the parameters, `>`, and those of the results; then `p` where the parameters are in
/// memory, and `r` where the result does.
fn push_signature(out: &mut String, signature: &WasmSignature) -> Result<(), AllocError> {
    push_letters(out, signature.params.as_slice())?;
    out.push('>')?;
    push_letters(out, signature.results.as_slice())?;
    if signature.indirect_params {
        out.push('p')?;
    }
    if signature.retptr {
        out.push('r')?;
    }
    Ok(())
}

/// Adds the signature of a function of a resolve, where both are consistent.
fn push_form(
    alloc: Global,
    out: &mut String,
    resolve: &Resolve,
    abi: AbiVariant,
    function: &Function,
) -> Result<(), AllocError> {
    if !resolve.is_sound() || !resolve.has_function(function) {
        return out.push_str("unsound");
    }
    let signature = resolve.wasm_signature(alloc, abi, function)?;
    if signature.indirect_params != resolve.is_indirect(abi, function)
        || signature.retptr != resolve.is_returned_in_memory(abi, function)
    {
        return out.push_str("apart");
    }
    push_signature(out, &signature)
}

/// The signatures of a function in each form, with spaces between.
fn signatures_of(
    alloc: Global,
    resolve: &Resolve,
    function: &Function,
) -> Result<String, AllocError> {
    let mut out = String::new(alloc);
    for abi in FORMS {
        if !out.is_empty() {
            out.push(' ')?;
        }
        push_form(alloc, &mut out, resolve, abi, function)?;
    }
    Ok(out)
}

/// The signatures of a function of a resolve.
fn signatures_in(alloc: Global, resolve: &Resolve, text: &str) -> Result<String, AllocError> {
    let function = function_of(alloc, text)?;
    let signatures = signatures_of(alloc, resolve, &function);
    drop(function);
    signatures
}

pub(crate) fn answer(alloc: Global, asked: &str) -> Result<String, AllocError> {
    let (types, function) = asked.split_once("|").unwrap_or(("", asked));
    let resolve = resolve_of(alloc, types.trim())?;
    let signatures = signatures_in(alloc, &resolve, function);
    drop(resolve);
    signatures
}
