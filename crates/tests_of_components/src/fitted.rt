//! Components of modules that are fitted before they are encoded, as the program does it.

use crate::components::{encoder_with, layer_with, text_of};
use crate::inputs::{module_of, options_and_rest};
use comp_encoder::EncodeFault;
use comp_lists::{Seq, Text};
use comp_worlds::Lower;
use fitted_modules::{Modules, ModulesFault, NamedModule, fit_modules};
use std::alloc::{AllocError, Global};

/// An adapter of an input: its name, and its module.
fn adapter_of(alloc: Global, part: &str) -> Result<NamedModule, AllocError> {
    let (name, rest) = part.split_once(": ").unwrap_or((part, ""));
    let name = Text::from_str(alloc, name)?;
    let bytes = module_of(alloc, rest)?;
    Ok(NamedModule {
        name,
        bytes: Seq::from_vec(bytes),
    })
}

/// The adapters of an input.
fn adapters_of(alloc: Global, input: &str) -> Result<Seq<NamedModule>, AllocError> {
    let mut adapters = Seq::new(alloc);
    for part in input.split(" + ").skip(1) {
        adapters.push(adapter_of(alloc, part)?)?;
    }
    Ok(adapters)
}

/// The modules of an input, the first of which is main.
pub(crate) fn modules_of(alloc: Global, input: &str) -> Result<Modules, AllocError> {
    let (_, rest) = options_and_rest(input);
    let (main, _) = rest.split_once(" + ").unwrap_or((rest, ""));
    let adapters = adapters_of(alloc, rest)?;
    let main = Seq::from_vec(module_of(alloc, main)?);
    Ok(Modules { main, adapters })
}

/// The component of modules, the first of which is given as main.
fn component_of<L: Lower + Drop>(
    alloc: Global,
    layer: L,
    options: &str,
    modules: Modules,
) -> Result<Vec<u8>, EncodeFault<L::Fault>> {
    let Modules { main, adapters } = modules;
    let mut encoder = encoder_with(alloc, layer, options)?;
    encoder.add_module(main.into_vec())?;
    for adapter in adapters.into_vec() {
        let NamedModule { name, bytes } = adapter;
        encoder.add_adapter(name.as_str(), bytes.into_vec())?;
    }
    encoder.encode()
}

/// The component of the modules of an input as they are fitted, or the fault, as text.
pub(crate) fn answer(alloc: Global, input: &str) -> Result<String, AllocError> {
    let (options, _) = options_and_rest(input);
    let Modules { main, adapters } = modules_of(alloc, input)?;
    match fit_modules(alloc, main, adapters) {
        Ok(modules) => text_of(
            alloc,
            component_of(alloc, layer_with(input), options, modules),
        ),
        Err(ModulesFault::Memory) => Err(AllocError),
        Err(fault) => format!(in alloc; "{fault}"),
    }
}
