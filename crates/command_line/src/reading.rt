//! The files that are read for a component.

ghost use Rattle.std.specs.Prelude.{◌≡◌, ℕ, List, [], ◌∷◌};
ghost use Rattle.atomic_files.specs.Files.{Known};
ghost use Rattle.atomic_files.specs.Steps.{Unchanged};
ghost use Rattle.command_line.specs.Events.{happen};
ghost use Rattle.command_line.specs.Files.{AdaptersRead, FilesRead, Leads};
ghost use Rattle.command_line.specs.declared.adapters.Adapter.{Adapter as GivenAdapter};
ghost use Rattle.command_line.specs.declared.store.Event.{Event};

use crate::adapters::Adapter;
use crate::fault::{RunFault, out_of_memory, read_fault};
use crate::store::Store;
use comp_lists::{Bytes, Seq, Text};
use fitted_modules::{Modules, NamedModule};
use std::alloc::Global;

/// Reads the main module.
fn read_main<S: Store, F>(alloc: Global, file: Text, store: &mut S) -> Result<Bytes, RunFault<F>>
    ensures read { (es : List Event)
        × (S.events store.new ≡ happen (S.events store.old) es)
        × ((adapters : List GivenAdapter)
        → Leads (FilesRead file adapters) (λ main. AdaptersRead main [] adapters) es result) }
    ensures files { Known Unchanged (S.files store.old) (S.files store.new) }
{
    match store.read(alloc, file.as_str()) {
        Ok(bytes) => Ok(Seq::from_vec(bytes)),
        Err(fault) => Err(read_fault(false, fault, file)),
    }
}

/// Reads an adapter, and adds it to those that were read.
fn read_adapter<S: Store, F>(
    alloc: Global,
    modules: &mut Seq<NamedModule>,
    adapter: Adapter,
    store: &mut S,
) -> Result<(), RunFault<F>>
    ensures read { (es : List Event)
        × (S.events store.new ≡ happen (S.events store.old) es)
        × ((main : List ℕ) (rest : List GivenAdapter)
        → Leads (AdaptersRead main modules.old (adapter ∷ rest))
        (λ _. AdaptersRead main modules.new rest) es result) }
    ensures files { Known Unchanged (S.files store.old) (S.files store.new) }
{
    let Adapter { name, file } = adapter;
    let bytes = match store.read(alloc, file.as_str()) {
        Ok(bytes) => bytes,
        Err(fault) => return Err(read_fault(false, fault, file)),
    };
    match modules.push(NamedModule {
        name,
        bytes: Seq::from_vec(bytes),
    }) {
        Ok(()) => Ok(()),
        Err(_) => Err(out_of_memory(false)),
    }
}

/// Reads the adapters, one after the other.
fn read_adapters<S: Store, F>(
    alloc: Global,
    main: Bytes,
    adapters: Seq<Adapter>,
    store: &mut S,
) -> Result<Modules, RunFault<F>>
    ensures read { (es : List Event)
        × (S.events store.new ≡ happen (S.events store.old) es)
        × AdaptersRead main [] adapters es result }
    ensures files { Known Unchanged (S.files store.old) (S.files store.new) }
{
    let mut modules = Seq::new(alloc);
    for adapter in adapters.into_vec() {
        read_adapter(alloc, &mut modules, adapter, store)?;
    }
    Ok(Modules {
        main,
        adapters: modules,
    })
}

/// Reads the main module, and then the adapters.
pub(crate) fn read_files<S: Store, F>(
    alloc: Global,
    main: Text,
    adapters: Seq<Adapter>,
    store: &mut S,
) -> Result<Modules, RunFault<F>>
    ensures read { (es : List Event)
        × (S.events store.new ≡ happen (S.events store.old) es)
        × FilesRead main adapters es result }
    ensures files { Known Unchanged (S.files store.old) (S.files store.new) }
{
    let bytes = read_main(alloc, main, store)?;
    read_adapters(alloc, bytes, adapters, store)
}
