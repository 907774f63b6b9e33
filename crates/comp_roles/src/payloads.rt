//! The streams and futures of intrinsics.

use comp_lists::Text;
use wit_data::{InterfaceId, TypeId, WorldKey};

/// A stream or a future (Canonical ABI: `stream.new`, `future.new` and the like).
#[derive(Debug, Drop, PartialEq, Eq)]
pub enum PayloadType {
    /// A type, and the function in which it occurs.
    Typed { id: TypeId, function: Text },
    /// A future without a value.
    UnitFuture,
    /// A stream without values.
    UnitStream,
}

/// The stream or the future of a core import.
#[derive(Debug, PartialEq, Eq)]
pub struct PayloadInfo {
    /// The field of the core import.
    pub name: Text,
    pub ty: PayloadType,
    /// The key of the world's item where it occurs; a unit has none.
    pub key: Option<WorldKey>,
    /// The interface there, or none at the root.
    pub interface: Option<InterfaceId>,
    /// Whether it occurs in an import.
    pub imported: bool,
}

impl Drop for PayloadInfo {
    fn drop(self) {
        let PayloadInfo {
            name: _,
            ty: _,
            key: _,
            interface: _,
            imported: _,
        } = self;
    }
}

/// Which end of a stream or a future is used, and how.
#[derive(Clone, Copy, Debug, PartialEq, Eq, Hash)]
pub enum PayloadFuncKind {
    FutureWrite,
    FutureRead,
    StreamWrite,
    StreamRead,
}
