//! The modules and options of inputs.

use comp_lists::{Keyed, Text};
use std::alloc::{AllocError, Global};
use test_cases::{bytes_of, word_and_rest};

/// Adds a record of less than 2^14 - 15 bytes, in a custom section. Its size is in two bytes.
fn add_record(module: &mut Vec<u8>, record: &str) -> Result<(), AllocError> {
    let size = record.len().saturating_add(15);
    module.extend_from_slice(&[0, (size % 128) as u8 + 128, (size / 128 % 128) as u8, 14])?;
    module.extend_from_slice(b"component-type")?;
    module.extend_from_slice(record.as_bytes())
}

/// The module of an input.
pub(crate) fn module_of(alloc: Global, input: &str) -> Result<Vec<u8>, AllocError> {
    let (digits, records) = word_and_rest(input);
    let mut module = bytes_of(alloc, digits)?;
    if !records.is_empty() {
        for record in records.split(" & ") {
            add_record(&mut module, record)?;
        }
    }
    Ok(module)
}

/// The options of an input, and what follows them.
pub(crate) fn options_and_rest(input: &str) -> (&str, &str) {
    match input.strip_prefix("[") {
        Some(rest) => rest.split_once("] ").unwrap_or(("", rest)),
        None => ("", input),
    }
}

/// The other names that options give.
pub(crate) fn names_of(alloc: Global, options: &str) -> Result<Keyed<Text, Text>, AllocError> {
    let mut names = Keyed::new(alloc);
    for option in options.split(", ") {
        if let Some(renaming) = option.strip_prefix("rename ") {
            let (name, other) = renaming.split_once(" to ").unwrap_or((renaming, ""));
            let name = Text::from_str(alloc, name)?;
            let other = Text::from_str(alloc, other)?;
            names.insert_if_absent(name, other)?;
        }
    }
    Ok(names)
}

/// Whether an option is given.
pub(crate) fn has(options: &str, wanted: &str) -> bool {
    for option in options.split(", ") {
        if option == wanted {
            return true;
        }
    }
    false
}
