//! The lower layers of the tests, and their faults. The definitions of `specs/` name them, which
//! are read without the tests too.

use comp_lists::Text;
use thiserror::Error;

/// Why the stub refuses.
#[derive(Debug, Drop, PartialEq, Eq, Error)]
pub enum StubFault {
    /// An allocation failed.
    #[error("S1 Memory")]
    Memory,
    /// It is the refusing one, or a module is no core module, or there are adapters.
    #[error("S2 Refused")]
    Refused,
    /// It is the listing one, and these are the adapters.
    #[error("S3 Gathered adapters={adapters}")]
    Gathered { adapters: Text },
}

/// A layer that reads no metadata from a module.
#[derive(Clone, Copy, Debug, PartialEq, Eq)]
pub enum StubLower {
    /// Its world imports the root function `f`, which main imports as `f` of `$root`, and has no string
    /// encoding for it.
    NoEncoding,
    /// It prepares no world.
    Refusing,
    /// It takes core modules alone, and prepares no world: it reports the adapters that were gathered.
    Listing,
}
