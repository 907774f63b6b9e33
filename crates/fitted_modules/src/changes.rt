//! What becomes of one module.

ghost use Rattle.std.specs.Prelude.{◌≡◌, Option, Result, Ok, Err};
ghost use Rattle.byte_encoding.specs.Encoding.{Encoding};
ghost use Rattle.adapter_fitting.specs.Faults.{Fitted};
ghost use Rattle.adapter_fitting.specs.Fitting.{fit};
ghost use Rattle.adapter_fitting.specs.declared.fault.Refusal.{Refusal as RefusalNow};
ghost use Rattle.fitted_modules.specs.Modules.{Gives, is_left, outcome_of, renamed, adapter_of};
ghost use Rattle.fitted_modules.specs.Modules.{main_of, renames_for};

use adapter_fitting::{
    FitFault, Refusal, fit_adapter, give_realloc, name_adapter_realloc, names_adapter_realloc,
};
use comp_lists::{Bytes, Seq};
use std::alloc::Global;

/// A module after an edit, and whether that changed it.
#[derive(Drop)]
pub(crate) struct Outcome {
    pub(crate) bytes: Bytes,
    pub(crate) is_new: bool,
}

fn is_left(refusal: Refusal) -> bool
    ensures { result ≡ is_left refusal }
{
    matches!(refusal, Refusal::NotModule | Refusal::Section { .. })
}

/// The module, or the refusal of what isn't left as it is.
fn left_or(bytes: Bytes, refusal: Refusal) -> Result<Outcome, FitFault>
    ensures { Gives (λ o. o) result (outcome_of bytes (Err refusal)) }
{
    if is_left(refusal) {
        Ok(Outcome {
            bytes,
            is_new: false,
        })
    } else {
        Err(FitFault::Refused(refusal))
    }
}

/// The module after an edit.
fn outcome_of(bytes: Bytes, edit: Result<Option<Vec<u8>>, FitFault>) -> Result<Outcome, FitFault>
    ensures { (read : Result (Option Encoding) RefusalNow) → Fitted (λ v. v.items) edit read
        → Gives (λ o. o) result (outcome_of bytes read) }
{
    match edit {
        Ok(None) => Ok(Outcome {
            bytes,
            is_new: false,
        }),
        Ok(Some(new)) => Ok(Outcome {
            bytes: Seq::from_vec(new),
            is_new: true,
        }),
        Err(FitFault::Refused(refusal)) => left_or(bytes, refusal),
        Err(fault) => Err(fault),
    }
}

/// An adapter with its stack.
fn fitted(alloc: Global, bytes: Bytes) -> Result<Outcome, FitFault>
    ensures { Gives (λ o. o) result (outcome_of bytes (fit bytes)) }
{
    let edit = fit_adapter(alloc, bytes.as_slice());
    outcome_of(bytes, edit)
}

/// An adapter that was fitted, and imports main's realloc under the name for adapters where that is asked for.
fn renamed(alloc: Global, renames: bool, outcome: Outcome) -> Result<Outcome, FitFault>
    ensures { Gives (λ o. o) result (renamed renames outcome) }
{
    if !renames || !outcome.is_new {
        return Ok(outcome);
    }
    let edit = name_adapter_realloc(alloc, outcome.bytes.as_slice());
    outcome_of(outcome.bytes, edit)
}

/// An adapter as it is encoded.
pub(crate) fn adapter_of(alloc: Global, renames: bool, bytes: Bytes) -> Result<Outcome, FitFault>
    ensures { Gives (λ o. o) result (adapter_of renames bytes) }
{
    let outcome = fitted(alloc, bytes)?;
    renamed(alloc, renames, outcome)
}

/// The main module as it is encoded.
pub(crate) fn main_of(alloc: Global, wanted: bool, bytes: Bytes) -> Result<Outcome, FitFault>
    ensures { Gives (λ o. o) result (main_of wanted bytes) }
{
    if !wanted {
        return Ok(Outcome {
            bytes,
            is_new: false,
        });
    }
    let edit = give_realloc(alloc, bytes.as_slice());
    outcome_of(bytes, edit)
}

/// Whether adapters import the realloc of this main module under the name for adapters.
pub(crate) fn renames_for(alloc: Global, main: &[u8]) -> Result<bool, FitFault>
    ensures { Gives (λ b. b) result (Ok (renames_for main.now)) }
{
    match names_adapter_realloc(alloc, main) {
        Ok(named) => Ok(named),
        Err(FitFault::Refused(_)) => Ok(false),
        Err(fault) => Err(fault),
    }
}
