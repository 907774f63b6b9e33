//! The exports that are required of a module.

ghost use Rattle.std.specs.Prelude.{◌≡◌, ◌≢◌, [], map, IfOk, IfErr, IsOk};
ghost use Rattle.std.specs.List.{AllByRecursion};
ghost use Rattle.std.specs.Option.{option_copied};
ghost use Rattle.world_values.specs.Items.{functions_of};
ghost use Rattle.record_faults.specs.Faults.{Gives};
ghost use Rattle.record_faults.specs.declared.fault.Failure.TheVariants as failures;
ghost use Rattle.record_faults.specs.declared.fault.Refusal.{Refusal};
ghost use Rattle.record_core_types.specs.Asked.{exported_item};
ghost use Rattle.record_core_types.specs.Guarantees.{IsKept};
ghost use Rattle.record_exports.specs.Causes.{RequiredCause};
ghost use Rattle.record_exports.specs.Functions.{known_by};
ghost use Rattle.record_exports.specs.Meaning.{world_id};
ghost use Rattle.record_exports.specs.Requiring.{missing, key_text, functions_at, suffices, is_there, function_there, all_there, required_key, required_after, required_of};

use crate::functions::Functions;
use comp_lists::{Keyed, Seq, Text};
use comp_roles::{Export, FunctionKey};
use record_faults::{Failure, Refusal};
use record_resolve::Resolved;
use record_role_targets::resolved_export_key;
use std::alloc::Global;
use wit_data::{AbiVariant, Function, InterfaceId, WorldItem, WorldKey};
use world_values::{ExportKey, function_key};

/// The refusal that the export of this name is missing, or out of memory.
fn missing(alloc: Global, name: &Text) -> Failure
    ensures { result ≢ failures.Memory → result ≡ missing name.now }
{
    match name.clone(alloc) {
        Ok(function) => Failure::Refused(Refusal::ExportMissing { function }),
        Err(_) => Failure::Memory,
    }
}

/// The name of a key, or its interface's id.
fn key_text(key: &ExportKey) -> &Text
    ensures { result.now ≡ key_text key.now }
{
    match key {
        ExportKey::Name(text) => text,
        ExportKey::Interface(id) => id,
    }
}

/// Whether a function that is called like this, if it is one, has what it must have.
fn suffices(abi: Option<AbiVariant>, called_back: bool) -> bool
    ensures { result ≡ suffices abi called_back }
{
    match abi {
        None => false,
        Some(AbiVariant::GuestExportAsync) => called_back,
        Some(_) => true,
    }
}

/// Whether some export has a function, and its callback where it is called with one.
fn is_there(functions: &Functions, function: &FunctionKey) -> bool
    ensures { result ≡ is_there (known_by functions.now) function.now }
{
    suffices(functions.abi(function), functions.has_callback(function))
}

/// Refuses a function of a key that does not exist.
fn check_function(
    alloc: Global,
    functions: &Functions,
    key: &WorldKey,
    name: &Text,
) -> Result<(), Failure>
    ensures { Gives (λ _. tt) result (function_there (known_by functions.now) key.now name.now) }
{
    let function = function_key(alloc, key, name)?;
    if is_there(functions, &function) {
        Ok(())
    } else {
        Err(missing(alloc, name))
    }
}

/// Refuses the first function of an interface that does not exist.
fn check_functions(
    alloc: Global,
    functions: &Functions,
    key: &WorldKey,
    all: &Keyed<Text, Function>,
) -> Result<(), Failure>
    ensures { Gives (λ _. tt) result
        (all_there (known_by functions.now) key.now (map (λ e. e.1.name) all.now)) }
{
    for (_, function) in all.iter() {
        check_function(alloc, functions, key, &function.name)?;
    }
    Ok(())
}

fn check_interface(
    alloc: Global,
    resolved: &Resolved,
    functions: &Functions,
    key: &WorldKey,
    id: InterfaceId,
) -> Result<(), Failure>
    ensures { Gives (λ _. tt) result (all_there (known_by functions.now) key.now
        (map (λ e. e.1.name) (functions_of resolved.now.resolve id))) }
{
    match resolved.resolve.interfaces.as_slice().get(id.index) {
        Some(interface) => check_functions(alloc, functions, key, &interface.functions),
        None => Ok(()),
    }
}

/// What the world exports at a key.
fn exported_item<'a>(resolved: &'a Resolved, key: &WorldKey) -> Option<&'a WorldItem>
    ensures { option_copied result ≡ exported_item resolved.now.resolve world_id key.now }
{
    let world = resolved.resolve.worlds.as_slice().get(0)?;
    world.exports.get(key)
}

/// Refuses the first function at a key that does not exist.
fn check_key(
    alloc: Global,
    resolved: &Resolved,
    functions: &Functions,
    key: &WorldKey,
) -> Result<(), Failure>
    ensures { Gives (λ _. tt) result
        (all_there (known_by functions.now) key.now (functions_at resolved.now key.now)) }
{
    match exported_item(resolved, key) {
        Some(WorldItem::Function(function)) => {
            check_function(alloc, functions, key, &function.name)
        }
        Some(WorldItem::Interface(id)) => check_interface(alloc, resolved, functions, key, *id),
        Some(WorldItem::NamedType(_)) => Ok(()),
        None => Ok(()),
    }
}

/// The key of a required export, where all of its functions exist.
#[tactic(auto, unfolding(crate::specs::Requiring::required_key))]
fn required_key(
    alloc: Global,
    resolved: &Resolved,
    functions: &Functions,
    required: &ExportKey,
) -> Result<WorldKey, Failure>
    ensures { Gives (λ k. k) result
        (required_key resolved.now (known_by functions.now) required.now) }
{
    match resolved_export_key(alloc, resolved, required)? {
        Some(key) => {
            check_key(alloc, resolved, functions, &key)?;
            Ok(key)
        }
        None => Err(missing(alloc, key_text(required))),
    }
}

fn required_by(
    alloc: Global,
    resolved: &Resolved,
    functions: &Functions,
    required: &[ExportKey],
) -> Result<Seq<WorldKey>, Failure>
    ensures { Gives (λ ks. ks) result
        (required_after resolved.now (known_by functions.now) [] required.now) }
{
    let mut keys = Seq::new(alloc);
    for key in required {
        keys.push(required_key(alloc, resolved, functions, key)?)?;
    }
    Ok(keys)
}

#[tactic(auto, using(crate::proofs::Knowing::gives_required))]
fn required_of(
    alloc: Global,
    resolved: &Resolved,
    exports: &Keyed<Text, Export>,
    required: &[ExportKey],
) -> Result<Seq<WorldKey>, Failure>
    ensures { Gives (λ ks. ks) result (required_of resolved.now exports.now required.now) }
{
    let functions = Functions::of(alloc, exports)?;
    required_by(alloc, resolved, &functions, required)
}

/// The keys of the world that the required exports have, in their order. Each function there is a core
/// export, and one that is called with a callback has it.
///
/// # Errors
///
/// `ExportMissing` with the name or the id of a required export that the world doesn't export, or with
/// the name of a function there that is no core export, or that is called as an asynchronous one with a
/// callback and has none (Canonical ABI: `canon lift`). `Memory` if memory runs out.
#[tactic(auto, using(crate::proofs::Keeping::all_kept, crate::proofs::Missing::no_cause, crate::proofs::Missing::has_cause))]
pub fn require_all(
    alloc: Global,
    resolved: &Resolved,
    exports: &Keyed<Text, Export>,
    required: &[ExportKey],
) -> Result<Seq<WorldKey>, Failure>
    ensures exact { Gives (λ ks. ks) result (required_of resolved.now exports.now required.now) }
    ensures kept { IfOk result
        (λ ks. AllByRecursion (IsKept resolved.now.resolve world_id exports.now) ks) }
    ensures refused { IsOk result → (f : Refusal) → RequiredCause resolved.now exports.now required.now f → ⊥ }
    ensures cause { IfErr result (λ e. (f : Refusal)
        → e ≡ failures.Refused f
        → RequiredCause resolved.now exports.now required.now f) }
{
    let keys = required_of(alloc, resolved, exports, required)?;
    Ok(keys)
}
