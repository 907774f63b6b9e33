//! How far a nested component has come.

use wit_data::TypeId;

/// How far a nested component has come: first it imports, and then it exports.
#[derive(Clone, Copy)]
pub enum Stage {
    /// Functions are imported, and the types of the interface of which they are made.
    Importing,
    /// Types and functions are exported. This is the last type that was.
    Exporting(Option<TypeId>),
}
