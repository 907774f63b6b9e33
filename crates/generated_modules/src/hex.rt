//! Bytes as hexadecimal digits.

use std::fmt;

/// Bytes that are shown by two digits each.
#[derive(Clone, Copy)]
pub(crate) struct Hex<'a> {
    bytes: &'a [u8],
}

impl<'a> Hex<'a> {
    pub(crate) fn new(bytes: &'a [u8]) -> Hex<'a> {
        Hex { bytes }
    }
}

impl<'a> fmt::Display for Hex<'a> {
    fn fmt<W: fmt::Write>(&self, f: &mut fmt::Formatter<W>) -> fmt::Result {
        for byte in self.bytes {
            write!(f, "{byte:02x}")?;
        }
        Ok(())
    }
}
