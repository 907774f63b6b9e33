//! Post-returns and callbacks, and the functions that can have them.

ghost use Rattle.std.specs.Prelude.{◌≡◌, true, IfOk};
ghost use Rattle.std.specs.Option.{option_map_or};
ghost use Rattle.record_faults.specs.Faults.{Gives};
ghost use Rattle.world_values.specs.CoreExports.{post_return_function, callback_function};
ghost use Rattle.record_exports.specs.Functions.{known_by};
ghost use Rattle.record_exports.specs.Taking.{takes_post_return, takes_callback, is_taken, taken, all_taken};

use crate::functions::Functions;
use crate::meaning::unfit;
use comp_lists::{Keyed, Text};
use comp_roles::Export;
use record_faults::Failure;
use std::alloc::{AllocError, Global};
use wit_data::AbiVariant;
use world_values::{callback_function, post_return_function};

/// Whether a function that is called like this can have a post-return.
fn takes_post_return(abi: Option<AbiVariant>) -> bool
    ensures { result ≡ takes_post_return abi }
{
    match abi {
        None => true,
        Some(AbiVariant::GuestExport) => true,
        Some(_) => false,
    }
}

/// Whether a function that is called like this can have a callback.
fn takes_callback(abi: Option<AbiVariant>) -> bool
    ensures { result ≡ takes_callback abi }
{
    match abi {
        None => true,
        Some(AbiVariant::GuestExportAsync) => true,
        Some(_) => false,
    }
}

/// Whether an export is not a post-return of a function that can't have one.
fn returns_well(alloc: Global, functions: &Functions, export: &Export) -> Result<bool, AllocError>
    ensures { IfOk result (λ b. b
        ≡ option_map_or (λ f. takes_post_return ((known_by functions.now).abi f))
        (post_return_function export.now) true) }
{
    match post_return_function(alloc, export)? {
        Some(function) => Ok(takes_post_return(functions.abi(&function))),
        None => Ok(true),
    }
}

/// Whether an export is not a callback of a function that can't have one.
fn calls_back_well(
    alloc: Global,
    functions: &Functions,
    export: &Export,
) -> Result<bool, AllocError>
    ensures { IfOk result (λ b. b
        ≡ option_map_or (λ f. takes_callback ((known_by functions.now).abi f))
        (callback_function export.now) true) }
{
    match callback_function(alloc, export)? {
        Some(function) => Ok(takes_callback(functions.abi(&function))),
        None => Ok(true),
    }
}

fn is_taken(alloc: Global, functions: &Functions, export: &Export) -> Result<bool, AllocError>
    ensures { IfOk result (λ b. b ≡ is_taken (known_by functions.now) export.now) }
{
    if returns_well(alloc, functions, export)? {
        calls_back_well(alloc, functions, export)
    } else {
        Ok(false)
    }
}

/// Refuses the first export that is a post-return or a callback of a function that can't have one.
fn check_by(
    alloc: Global,
    functions: &Functions,
    exports: &Keyed<Text, Export>,
) -> Result<(), Failure>
    ensures { Gives (λ _. tt) result (taken (known_by functions.now) exports.now) }
{
    for (name, export) in exports.iter() {
        if !is_taken(alloc, functions, export)? {
            return Err(unfit(alloc, name));
        }
    }
    Ok(())
}

/// Refuses exports among which is a post-return or a callback of a function that can't have one.
#[tactic(auto, using(crate::proofs::Knowing::gives_taken))]
pub(crate) fn check_taken(alloc: Global, exports: &Keyed<Text, Export>) -> Result<(), Failure>
    ensures { Gives (λ _. tt) result (all_taken exports.now) }
{
    let functions = Functions::of(alloc, exports)?;
    check_by(alloc, &functions, exports)
}
