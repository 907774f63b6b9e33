//! The calls of the inputs of cases.

use adapter_fitting::{
    FitFault, fit_adapter, give_realloc, has_active_data, name_adapter_realloc,
    names_adapter_realloc,
};
use std::alloc::{AllocError, Global};
use test_cases::{bytes_of, word_and_rest};

/// The text of a fault, where it isn't that memory was refused.
fn refused(alloc: Global, fault: FitFault) -> Result<String, AllocError> {
    match fault {
        FitFault::Memory => Err(AllocError),
        _ => format!(in alloc; "{fault}"),
    }
}

/// The digits of a module that was changed, or that it is as it was, or the fault.
fn changed(alloc: Global, bytes: Result<Option<Vec<u8>>, FitFault>) -> Result<String, AllocError> {
    match bytes {
        Ok(Some(bytes)) => hex::encode(alloc, &bytes),
        Ok(None) => String::from_str(alloc, "as it was"),
        Err(fault) => refused(alloc, fault),
    }
}

/// A truth, or the fault.
fn told(alloc: Global, truth: Result<bool, FitFault>) -> Result<String, AllocError> {
    match truth {
        Ok(truth) => format!(in alloc; "{truth}"),
        Err(fault) => refused(alloc, fault),
    }
}

/// The result for an input.
pub(crate) fn answer(alloc: Global, input: &str) -> Result<String, AllocError> {
    let (call, digits) = word_and_rest(input);
    let bytes = bytes_of(alloc, digits)?;
    match call {
        "fit" => changed(alloc, fit_adapter(alloc, &bytes)),
        "realloc" => changed(alloc, give_realloc(alloc, &bytes)),
        "rename" => changed(alloc, name_adapter_realloc(alloc, &bytes)),
        "named" => told(alloc, names_adapter_realloc(alloc, &bytes)),
        _ => told(alloc, has_active_data(alloc, &bytes)),
    }
}
