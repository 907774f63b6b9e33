//! The components of inputs.

use crate::inputs::{has, module_of, names_of, options_and_rest};
use argument_cases::{library_info, name_and_arguments};
use comp_encoder::{ComponentEncoder, EncodeFault};
use comp_worlds::Lower;
use package_lower::PackageLower;
use std::alloc::{AllocError, Global};
use std::fmt::Display;

/// An encoder with options.
pub(crate) fn encoder_with<L: Lower + Drop>(
    alloc: Global,
    layer: L,
    options: &str,
) -> Result<ComponentEncoder<L>, AllocError> {
    let names = names_of(alloc, options)?;
    let mut encoder = ComponentEncoder::new(alloc, layer);
    encoder.validate(!has(options, "unchecked"));
    encoder.debug_names(has(options, "debug-names"));
    encoder.merge_imports_based_on_semver(!has(options, "no-merge"));
    encoder.emit_canonical_names(has(options, "canonical"));
    encoder.realloc_via_memory_grow(has(options, "memory-grow"));
    encoder.import_name_map(names);
    Ok(encoder)
}

/// Gives a library to an encoder: its name, with its arguments behind it.
fn add_library<L: Lower>(
    alloc: Global,
    encoder: &mut ComponentEncoder<L>,
    text: &str,
    module: Vec<u8>,
) -> Result<(), EncodeFault<L::Fault>> {
    let (name, arguments) = name_and_arguments(text);
    let info = library_info(alloc, arguments)?;
    encoder.add_library(name, module, info)
}

/// Gives a further module of an input to an encoder, an adapter or a library.
fn add_part<L: Lower>(
    alloc: Global,
    encoder: &mut ComponentEncoder<L>,
    part: &str,
) -> Result<(), EncodeFault<L::Fault>> {
    let (name, rest) = part.split_once(": ").unwrap_or((part, ""));
    let module = module_of(alloc, rest)?;
    match name.strip_prefix("library ") {
        Some(library) => add_library(alloc, encoder, library, module),
        None => encoder.add_adapter(name, module),
    }
}

/// The component of the modules of an input, the first of which is given as main.
fn component_of<L: Lower + Drop>(
    alloc: Global,
    layer: L,
    input: &str,
) -> Result<Vec<u8>, EncodeFault<L::Fault>> {
    let (options, rest) = options_and_rest(input);
    let mut encoder = encoder_with(alloc, layer, options)?;
    let (main, _) = rest.split_once(" + ").unwrap_or((rest, ""));
    encoder.add_module(module_of(alloc, main)?)?;
    for part in rest.split(" + ").skip(1) {
        add_part(alloc, &mut encoder, part)?;
    }
    encoder.encode()
}

/// The lower layer by packages, with the options of an input.
pub(crate) fn layer_with(input: &str) -> PackageLower {
    let (options, _) = options_and_rest(input);
    PackageLower {
        reject_legacy_names: has(options, "reject-legacy"),
    }
}

/// A component, or the fault, as text.
pub(crate) fn text_of<F: Display + Drop>(
    alloc: Global,
    component: Result<Vec<u8>, EncodeFault<F>>,
) -> Result<String, AllocError> {
    match component {
        Ok(component) => hex::encode(alloc, &component),
        Err(EncodeFault::Memory) => Err(AllocError),
        Err(fault) => format!(in alloc; "{fault}"),
    }
}

/// The component of an input, or the fault, as text.
pub(crate) fn answer_by<L: Lower + Drop>(
    alloc: Global,
    layer: L,
    input: &str,
) -> Result<String, AllocError> {
    text_of(alloc, component_of(alloc, layer, input))
}
