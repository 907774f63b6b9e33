//! Cases, one line each, and the words of their inputs.

use hex::FromHexError;
use std::alloc::{AllocError, Global};

/// A case.
#[derive(Clone, Copy)]
pub struct Case<'a> {
    pub name: &'a str,
    pub expected: &'a str,
    pub input: &'a str,
}

impl<'a> Case<'a> {
    /// The case of a line.
    pub fn of(line: &'a str) -> Case<'a> {
        let (name, rest) = line.split_once(": ").unwrap_or((line, ""));
        let (expected, input) = rest.split_once(" <- ").unwrap_or((rest, ""));
        Case {
            name,
            expected,
            input,
        }
    }
}

/// The text before the first space of a text, and the text after it.
pub fn word_and_rest(text: &str) -> (&str, &str) {
    text.split_once(" ").unwrap_or((text, ""))
}

/// A number; where the text is none, an index that is out of range.
pub fn number(text: &str) -> usize {
    text.parse::<usize>().unwrap_or(usize::MAX)
}

/// The bytes of hexadecimal digits; none for anything else.
pub fn bytes_of(alloc: Global, digits: &str) -> Result<Vec<u8>, AllocError> {
    match hex::decode(alloc, digits.as_bytes()) {
        Ok(bytes) => Ok(bytes),
        Err(FromHexError::OutOfMemory) => Err(AllocError),
        Err(_) => Ok(Vec::new(alloc)),
    }
}
