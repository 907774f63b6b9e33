//! What becomes of a main module and its adapters.

ghost use Rattle.std.specs.Prelude.{◌≡◌, ◌||◌, ◌++◌, ◌∷◌, [], List};
ghost use Rattle.fitted_modules.specs.Modules.{GivesAll, AddsFitted, adapters_of, fitted_modules};
ghost use Rattle.fitted_modules.specs.Modules.{refused_main, main_of, with_main, fitted_view};

use crate::changes::{adapter_of, main_of, renames_for};
use crate::fault::{ModulesFault, of_adapter, of_main};
use comp_lists::{Bytes, Seq, Text};
use std::alloc::Global;

/// An adapter: its name, and the module.
#[derive(Drop)]
pub struct NamedModule {
    pub name: Text,
    pub bytes: Bytes,
}

/// A main module and its adapters.
#[derive(Drop)]
pub struct Modules {
    pub main: Bytes,
    pub adapters: Seq<NamedModule>,
}

/// Adds an adapter as it is encoded; the result is whether it has a stack.
fn add_fitted(
    alloc: Global,
    fitted: &mut Seq<NamedModule>,
    renames: bool,
    adapter: NamedModule,
) -> Result<bool, ModulesFault>
    ensures { AddsFitted fitted.old fitted.new renames adapter result }
{
    let NamedModule { name, bytes } = adapter;
    match adapter_of(alloc, renames, bytes) {
        Ok(outcome) => {
            let is_new = outcome.is_new;
            fitted.push(NamedModule {
                name,
                bytes: outcome.bytes,
            })?;
            Ok(is_new)
        }
        Err(fault) => Err(of_adapter(name, fault)),
    }
}

fn either(first: bool, second: bool) -> bool
    ensures { result ≡ (first || second) }
{
    first || second
}

/// The adapters as they are encoded, and whether one of them has a stack.
fn adapters_of(
    alloc: Global,
    renames: bool,
    adapters: Seq<NamedModule>,
) -> Result<(Seq<NamedModule>, bool), ModulesFault>
    ensures { GivesAll fitted_view result (adapters_of renames adapters) }
{
    let mut fitted = Seq::new(alloc);
    let mut wanted = false;
    for adapter in adapters.into_vec() {
        let is_new = add_fitted(alloc, &mut fitted, renames, adapter)?;
        wanted = either(wanted, is_new);
    }
    Ok((fitted, wanted))
}

/// The main module as it is encoded, with its adapters.
fn with_main(
    alloc: Global,
    wanted: bool,
    main: Bytes,
    adapters: Seq<NamedModule>,
) -> Result<Modules, ModulesFault>
    ensures { GivesAll (λ m. m) result (with_main adapters (refused_main (main_of wanted main))) }
{
    match main_of(alloc, wanted, main) {
        Ok(outcome) => Ok(Modules {
            main: outcome.bytes,
            adapters,
        }),
        Err(fault) => Err(of_main(fault)),
    }
}

/// A main module and its adapters as they are encoded.
///
/// Each adapter that has a stack gets it when it is first called (`adapter_fitting`). Where one
/// has, and main exports no realloc, main gets one for adapters, and they import it. All other
/// modules are as they were. The fault is that of the first adapter that is refused, or else that
/// of main.
pub fn fit_modules(
    alloc: Global,
    main: Bytes,
    adapters: Seq<NamedModule>,
) -> Result<Modules, ModulesFault>
    ensures { GivesAll (λ m. m) result (fitted_modules main adapters) }
{
    let renames = match renames_for(alloc, main.as_slice()) {
        Ok(renames) => renames,
        Err(fault) => return Err(of_main(fault)),
    };
    let (fitted, wanted) = adapters_of(alloc, renames, adapters)?;
    with_main(alloc, wanted, main, fitted)
}
