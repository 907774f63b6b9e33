//! From files to a file.

ghost use Rattle.std.specs.Prelude.{◌≡◌, List, ◌∷◌, IfErr};
ghost use Rattle.atomic_files.specs.Files.{Known};
ghost use Rattle.atomic_files.specs.Steps.{Kept, Unchanged};
ghost use Rattle.fitted_modules.specs.declared.modules.NamedModule.{NamedModule as GivenModule};
ghost use Rattle.command_line.specs.Events.{happen};
ghost use Rattle.command_line.specs.declared.store.Event.{Event};
ghost use Rattle.command_line.specs.Making.{begun, Continues, AreFitted, IsEncoded, AdaptersEncoded};
ghost use Rattle.command_line.specs.Making.{ModulesEncoded, Composed, Made};

use crate::adapters::Adapter;
use crate::arguments::Arguments;
use crate::fault::{RunFault, fit_fault, put_fault};
use crate::flags::Flags;
use crate::reading::read_files;
use crate::store::Store;
use comp_encoder::{ComponentEncoder, EncodeFault};
use comp_lists::{Bytes, Seq, Text};
use comp_worlds::Lower;
use fitted_modules::{Modules, NamedModule, fit_modules};
use std::alloc::Global;

/// Modules as they were read, fitted for the encoder.
fn fit<F>(alloc: Global, read: Modules) -> Result<Modules, RunFault<F>>
    ensures { AreFitted read result }
{
    let Modules { main, adapters } = read;
    match fit_modules(alloc, main, adapters) {
        Ok(modules) => Ok(modules),
        Err(fault) => Err(fit_fault(fault)),
    }
}

/// An encoder with the options that the flags ask for.
fn encoder_of<L: Lower>(alloc: Global, lower: L, flags: Flags) -> ComponentEncoder<L>
    ensures { result ≡ begun L.Lower lower flags }
{
    let mut encoder = ComponentEncoder::new(alloc, lower);
    encoder.validate(flags.validate);
    encoder.debug_names(!flags.no_names);
    encoder.merge_imports_based_on_semver(!flags.no_merge);
    encoder.emit_canonical_names(flags.canonical);
    encoder
}

/// Gives an adapter to the encoder.
fn give_adapter<L: Lower>(
    encoder: &mut ComponentEncoder<L>,
    adapter: NamedModule,
) -> Result<(), EncodeFault<L::Fault>>
    ensures { (rest : List GivenModule)
        → Continues (AdaptersEncoded L.Lower encoder.old (adapter ∷ rest))
        (AdaptersEncoded L.Lower encoder.new rest) result }
{
    let NamedModule { name, bytes } = adapter;
    match encoder.add_adapter(name.as_str(), bytes.into_vec()) {
        Ok(()) => Ok(()),
        Err(fault) => Err(fault),
    }
}

/// Gives the adapters to the encoder, one after the other.
fn give_adapters<L: Lower>(
    encoder: &mut ComponentEncoder<L>,
    adapters: Seq<NamedModule>,
) -> Result<(), EncodeFault<L::Fault>>
    ensures { Continues (AdaptersEncoded L.Lower encoder.old adapters)
        (IsEncoded L.Lower encoder.new) result }
{
    for adapter in adapters.into_vec() {
        give_adapter(encoder, adapter)?;
    }
    Ok(())
}

/// Gives the main module to the encoder, and then the adapters.
fn give_modules<L: Lower>(
    encoder: &mut ComponentEncoder<L>,
    modules: Modules,
) -> Result<(), EncodeFault<L::Fault>>
    ensures { Continues (ModulesEncoded L.Lower encoder.old modules)
        (IsEncoded L.Lower encoder.new) result }
{
    let Modules { main, adapters } = modules;
    match encoder.add_module(main.into_vec()) {
        Ok(()) => give_adapters(encoder, adapters),
        Err(fault) => Err(fault),
    }
}

/// The component of a main module and adapters, as the flags ask for it.
fn encode<L: Lower + Drop>(
    alloc: Global,
    lower: L,
    flags: Flags,
    modules: Modules,
) -> Result<Bytes, EncodeFault<L::Fault>>
    ensures { ModulesEncoded L.Lower (begun L.Lower lower flags) modules result }
{
    let mut encoder = encoder_of(alloc, lower, flags);
    give_modules(&mut encoder, modules)?;
    match encoder.encode() {
        Ok(component) => Ok(Seq::from_vec(component)),
        Err(fault) => Err(fault),
    }
}

/// The component of a main module and adapters in files, as the flags ask for it.
fn component_of<L: Lower + Drop, S: Store>(
    alloc: Global,
    lower: L,
    main: Text,
    adapters: Seq<Adapter>,
    flags: Flags,
    store: &mut S,
) -> Result<Bytes, RunFault<L::Fault>>
    ensures composed { (es : List Event)
        × (S.events store.new ≡ happen (S.events store.old) es)
        × Composed L.Lower (begun L.Lower lower flags) main adapters es result }
    ensures files { Known Unchanged (S.files store.old) (S.files store.new) }
{
    let read = read_files(alloc, main, adapters, store)?;
    let modules = fit(alloc, read)?;
    match encode(alloc, lower, flags, modules) {
        Ok(component) => Ok(component),
        Err(fault) => Err(RunFault::Encode(fault)),
    }
}

/// Reads a main module and adapters, and puts their component.
pub(crate) fn make<L: Lower + Drop, S: Store>(
    alloc: Global,
    lower: L,
    arguments: Arguments,
    store: &mut S,
) -> Result<(), RunFault<L::Fault>>
    ensures made { (es : List Event)
        × (S.events store.new ≡ happen (S.events store.old) es)
        × Made L.Lower lower arguments es result }
    ensures files { IfErr result (λ _. Known Kept (S.files store.old) (S.files store.new)) }
{
    let Arguments {
        out,
        main,
        adapters,
        flags,
    } = arguments;
    let component = component_of(alloc, lower, main, adapters, flags, store)?;
    match store.put(out.as_str(), component.as_slice()) {
        Ok(()) => Ok(()),
        Err(fault) => Err(put_fault(fault, out)),
    }
}
