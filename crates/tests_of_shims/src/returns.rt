//! Whether the functions whose results the imports of modules return are in the resolve, and the types
//! of what they read and write.

ghost use Rattle.std.specs.Prelude.{◌↔◌, IsTrue, IfOk};
ghost use Rattle.std.specs.List.{AllByRecursion};
ghost use Rattle.wit_data.specs.Sound.{IsSound};
ghost use Rattle.comp_options.specs.Known.{HasPayload};
ghost use Rattle.comp_worlds.specs.Uses.{imports_of};
ghost use Rattle.shim_plan.specs.Needed.{HasOwnTypes, AreAllReturned};

use comp_lists::{Keyed, Text};
use comp_roles::{Import, NamedImport, PayloadType};
use comp_worlds::{ComponentWorld, ValidatedModule, WorldAdapter};
use std::alloc::{AllocError, Global};
use wit_data::Resolve;

/// Whether a type that is a stream or a future is in the resolve.
fn has_payload(resolve: &Resolve, ty: &PayloadType) -> bool
    ensures { IsTrue result ↔ HasPayload resolve.now ty.now }
{
    match ty {
        PayloadType::Typed { id, .. } => id.index < resolve.types.len(),
        PayloadType::UnitFuture | PayloadType::UnitStream => true,
    }
}

/// Whether the function that the role itself has, or the type of what it reads or writes, is in the
/// resolve.
fn has_returned(resolve: &Resolve, import: &Import) -> bool
    ensures { IsTrue result ↔ HasOwnTypes resolve.now import.now }
{
    match import {
        Import::ExportedTaskReturn(_, _, function) => resolve.has_function(function),
        Import::StreamRead { info, .. }
        | Import::StreamWrite { info, .. }
        | Import::FutureRead { info, .. }
        | Import::FutureWrite { info, .. } => has_payload(resolve, &info.ty),
        _ => true,
    }
}

fn have_returned(resolve: &Resolve, imports: &[NamedImport<'_>]) -> bool
    ensures { IsTrue result
        ↔ AllByRecursion (λ i. HasOwnTypes resolve.now i.role.now) imports.now }
{
    for import in imports {
        if !has_returned(resolve, import.role) {
            return false;
        }
    }
    true
}

/// Whether those of a module are there.
fn is_returned(
    alloc: Global,
    resolve: &Resolve,
    found: &ValidatedModule,
) -> Result<bool, AllocError>
    ensures { IfOk result (λ all. IsTrue all
        ↔ AllByRecursion (λ i. HasOwnTypes resolve.now i.role) (imports_of found.now)) }
{
    let imports = found.imports.imports(alloc)?;
    Ok(have_returned(resolve, imports.as_slice()))
}

fn others_returned(
    alloc: Global,
    resolve: &Resolve,
    adapters: &Keyed<Text, WorldAdapter>,
) -> Result<bool, AllocError>
    ensures { IfOk result (λ all. IsTrue all ↔ AllByRecursion (λ a.
        AllByRecursion (λ i. HasOwnTypes resolve.now i.role) (imports_of a.1.info))
        adapters.now) }
{
    for (_name, adapter) in adapters.iter() {
        if !is_returned(alloc, resolve, &adapter.info)? {
            return Ok(false);
        }
    }
    Ok(true)
}

/// Whether those of all modules are there.
#[tactic(auto, using(crate::proofs::Returned::of_all))]
fn are_returned(alloc: Global, world: &ComponentWorld) -> Result<bool, AllocError>
    ensures { IfOk result (λ all. IsTrue all → AreAllReturned world.now) }
{
    if !is_returned(alloc, &world.resolve, &world.main)? {
        return Ok(false);
    }
    others_returned(alloc, &world.resolve, &world.adapters)
}

/// Whether shims can be planned for a world.
pub(crate) fn is_sound(alloc: Global, world: &ComponentWorld) -> Result<bool, AllocError>
    ensures sound { IfOk result (λ all. IsTrue all → IsSound world.now.resolve) }
    ensures returned { IfOk result (λ all. IsTrue all → AreAllReturned world.now) }
{
    if !world.resolve.is_sound() {
        return Ok(false);
    }
    are_returned(alloc, world)
}
