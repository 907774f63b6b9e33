//! Counts of the results of readings.

use crate::reading::read_back;
use std::alloc::{AllocError, Global};
use std::fmt;

/// How many readings ended with each result.
#[derive(Clone, Copy, Debug, PartialEq, Eq)]
pub(crate) struct Count {
    read: u32,
    refused: u32,
}

impl Count {
    pub(crate) fn new() -> Count {
        Count {
            read: 0,
            refused: 0,
        }
    }

    /// Reads bytes, and counts the result.
    pub(crate) fn add(&mut self, alloc: Global, bytes: &[u8]) -> Result<(), AllocError> {
        if read_back(alloc, bytes)? {
            self.read = self.read.saturating_add(1);
        } else {
            self.refused = self.refused.saturating_add(1);
        }
        Ok(())
    }
}

impl fmt::Display for Count {
    fn fmt<W: fmt::Write>(&self, f: &mut fmt::Formatter<W>) -> fmt::Result {
        write!(f, "{} read, {} refused", self.read, self.refused)
    }
}
