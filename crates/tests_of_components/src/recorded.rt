//! Components of modules whose packages are replaced by records that say the same.

use crate::components::{answer_by, layer_with};
use crate::inputs::{module_of, options_and_rest};
use package_lower::PackageLower;
use plain_lower::PlainLower;
use recorded_modules::{RecordingFault, record_module};
use std::alloc::{AllocError, Global};

/// Appends a module of an input with its record, in hexadecimal digits.
fn push_recorded(
    alloc: Global,
    text: &mut String,
    layer: PackageLower,
    module: &str,
) -> Result<(), RecordingFault> {
    let module = record_module(alloc, layer, module_of(alloc, module)?)?;
    let digits = hex::encode(alloc, &module)?;
    text.push_str(digits.as_str())?;
    Ok(())
}

/// An input with records in the place of packages.
fn recorded_input(alloc: Global, input: &str) -> Result<String, RecordingFault> {
    let layer = layer_with(input);
    let (options, rest) = options_and_rest(input);
    let mut text = format!(in alloc; "[{options}] ")?;
    let (main, _) = rest.split_once(" + ").unwrap_or((rest, ""));
    push_recorded(alloc, &mut text, layer, main)?;
    for part in rest.split(" + ").skip(1) {
        let (name, module) = part.split_once(": ").unwrap_or((part, ""));
        text.push_str(" + ")?;
        text.push_str(name)?;
        text.push_str(": ")?;
        push_recorded(alloc, &mut text, layer, module)?;
    }
    Ok(text)
}

/// The component of the modules of an input with records in the place of packages, or the fault.
fn by_records(alloc: Global, input: &str) -> Result<String, AllocError> {
    match recorded_input(alloc, input) {
        Ok(input) => answer_by(alloc, PlainLower::new(), input.as_str()),
        Err(RecordingFault::Memory) => Err(AllocError),
        Err(fault) => format!(in alloc; "{fault}"),
    }
}

/// The component of the modules of an input, or the fault. Where records in the place of the
/// packages give another component, that follows.
pub(crate) fn answer(alloc: Global, input: &str) -> Result<String, AllocError> {
    let component = answer_by(alloc, layer_with(input), input)?;
    if !component.starts_with("0061736d") {
        return Ok(component);
    }
    let recorded = by_records(alloc, input)?;
    if recorded.as_str() == component.as_str() {
        return Ok(component);
    }
    format!(in alloc; "{component}, and by records {recorded}")
}
