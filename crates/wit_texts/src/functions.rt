//! Functions as text, and the forms of call.

use crate::types::{part_of, parts_of};
use comp_lists::{Seq, Text};
use std::alloc::{AllocError, Global};
use wit_data::{AbiVariant, Function, FunctionKind, Param, Type};

/// The forms of call, in the order in which they are printed.
pub const FORMS: [AbiVariant; 5] = [
    AbiVariant::GuestImport,
    AbiVariant::GuestExport,
    AbiVariant::GuestImportAsync,
    AbiVariant::GuestExportAsync,
    AbiVariant::GuestExportAsyncStackful,
];

/// The form of call of a word.
pub fn abi_of(word: &str) -> AbiVariant {
    match word {
        "GuestImport" => AbiVariant::GuestImport,
        "GuestExport" => AbiVariant::GuestExport,
        "GuestImportAsync" => AbiVariant::GuestImportAsync,
        "GuestExportAsync" => AbiVariant::GuestExportAsync,
        _ => AbiVariant::GuestExportAsyncStackful,
    }
}

fn push_param(alloc: Global, params: &mut Seq<Param>, ty: Type) -> Result<(), AllocError> {
    params.push(Param {
        name: Text::new(alloc),
        ty,
    })?;
    Ok(())
}

fn params_of(alloc: Global, text: &str) -> Result<Seq<Param>, AllocError> {
    let parts = parts_of(alloc, text)?;
    let mut params = Seq::new(alloc);
    for part in &parts {
        if let Some(ty) = part {
            push_param(alloc, &mut params, *ty)?;
        }
    }
    Ok(params)
}

/// A function of this name that belongs to no resource.
pub fn named_function_of(alloc: Global, name: &str, text: &str) -> Result<Function, AllocError> {
    let (given, returned) = text.split_once("->").unwrap_or((text, ""));
    let params = params_of(alloc, given)?;
    let name = Text::from_str(alloc, name)?;
    Ok(Function {
        name,
        kind: FunctionKind::Freestanding,
        params,
        result: part_of(returned.trim()),
    })
}

/// A function that belongs to no resource.
pub fn function_of(alloc: Global, text: &str) -> Result<Function, AllocError> {
    named_function_of(alloc, "f", text)
}
