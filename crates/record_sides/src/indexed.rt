//! What a record says of the world.

ghost use Rattle.std.specs.Prelude.{◌≡◌};

use comp_lists::{Keyed, Seq, Text};
use record_values::{InterfaceName, Wit};

/// An interface of a record, by its index there: its name, the sides of the world that have it, and its
/// types and functions by name.
pub struct IndexedInterface {
    pub name: InterfaceName,
    pub is_imported: bool,
    pub is_exported: bool,
    /// Its named types, and of each whether it is a resource itself.
    pub types: Keyed<Text, bool>,
    /// Its functions, and of each its index among them.
    pub functions: Keyed<Text, usize>,
}

impl Drop for IndexedInterface {
    fn drop(self) {
        let IndexedInterface {
            name: _,
            is_imported: _,
            is_exported: _,
            types: _,
            functions: _,
        } = self;
    }
}

/// What a record says of the world, and its interfaces by their indices in the record.
pub struct RecordWorld {
    pub wit: Wit,
    pub interfaces: Seq<IndexedInterface>,
}

impl Drop for RecordWorld {
    fn drop(self) {
        let RecordWorld {
            wit: _,
            interfaces: _,
        } = self;
    }
}

impl RecordWorld {
    /// What the record says of the world, without its interfaces by index.
    pub fn into_wit(self) -> Wit
        ensures { result ≡ self.wit }
    {
        let RecordWorld { wit, interfaces: _ } = self;
        wit
    }
}
