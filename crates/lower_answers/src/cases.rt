//! The inputs of cases: records, or modules in hexadecimal digits.

use crate::answers::{Further, group_answer, module_answer, modules_answer, records_answer};
use argument_cases::{library_info, name_and_arguments};
use comp_lists::Text;
use comp_worlds::Lower;
use std::alloc::{AllocError, Global};

/// What an input is.
#[derive(Clone, Copy, Debug, PartialEq, Eq)]
pub enum Kind {
    /// The records of a module, with ` & ` between two of them.
    Records,
    /// Modules, in hexadecimal digits.
    Modules,
    /// Two modules, with ` & ` between them.
    Pairs,
    /// A module, and behind it adapters and libraries, each after ` & ` with its name: `NAME:
    /// MODULE` or `library NAME: MODULE`, where the name of a library may be followed by its
    /// arguments (`argument_cases`).
    Groups,
}

/// The result for a module in hexadecimal digits.
fn module_answer_of<L: Lower>(lower: &L, alloc: Global, text: &str) -> Result<String, AllocError> {
    match hex::decode(alloc, text.as_bytes()) {
        Ok(bytes) => module_answer(lower, alloc, &bytes),
        Err(_) => String::from_str(alloc, "no digits"),
    }
}

/// The result for two modules in hexadecimal digits.
fn pair_answer_of<L: Lower>(lower: &L, alloc: Global, text: &str) -> Result<String, AllocError> {
    let (first, second) = text.split_once(" & ").unwrap_or((text, ""));
    match hex::decode(alloc, first.as_bytes()) {
        Ok(first) => match hex::decode(alloc, second.as_bytes()) {
            Ok(second) => modules_answer(lower, alloc, &first, &second),
            Err(_) => String::from_str(alloc, "no digits"),
        },
        Err(_) => String::from_str(alloc, "no digits"),
    }
}

/// An adapter of this name, or a library with its arguments behind its name.
fn named_further(
    alloc: Global,
    text: &str,
    is_library: bool,
    bytes: Vec<u8>,
) -> Result<Further, AllocError> {
    let (name, arguments) = name_and_arguments(text);
    let name = Text::from_str(alloc, name)?;
    let library_info = if is_library {
        Some(library_info(alloc, arguments)?)
    } else {
        None
    };
    Ok(Further {
        name,
        library_info,
        bytes,
    })
}

/// An adapter or a library with its name; it is none where its digits aren't.
fn further_of(alloc: Global, text: &str) -> Result<Option<Further>, AllocError> {
    let (is_library, rest) = match text.strip_prefix("library ") {
        Some(rest) => (true, rest),
        None => (false, text),
    };
    let (name, digits) = rest.split_once(": ").unwrap_or((rest, ""));
    match hex::decode(alloc, digits.as_bytes()) {
        Ok(bytes) => {
            let further = named_further(alloc, name, is_library, bytes)?;
            Ok(Some(further))
        }
        Err(_) => Ok(None),
    }
}

/// All of these.
fn all_further(alloc: Global, text: &str) -> Result<Vec<Further>, AllocError> {
    let mut all = Vec::new(alloc);
    for part in text.split(" & ") {
        if let Some(further) = further_of(alloc, part)? {
            all.push(further)?;
        }
    }
    Ok(all)
}

/// The result for a module and those beside it.
fn group_answer_of<L: Lower>(lower: &L, alloc: Global, text: &str) -> Result<String, AllocError> {
    let (main, rest) = text.split_once(" & ").unwrap_or((text, ""));
    let further = all_further(alloc, rest)?;
    match hex::decode(alloc, main.as_bytes()) {
        Ok(main) => group_answer(lower, alloc, &main, further),
        Err(_) => String::from_str(alloc, "no digits"),
    }
}

/// The result of a layer for an input.
pub fn answer_of<L: Lower>(
    lower: &L,
    alloc: Global,
    kind: Kind,
    text: &str,
) -> Result<String, AllocError> {
    match kind {
        Kind::Records => records_answer(lower, alloc, text),
        Kind::Modules => module_answer_of(lower, alloc, text),
        Kind::Pairs => pair_answer_of(lower, alloc, text),
        Kind::Groups => group_answer_of(lower, alloc, text),
    }
}
