//! A type that a nested component imports.

use comp_lists::Text;
use wit_data::TypeId;

/// The name of an import of a type, and the type of the resolve that it stands for.
pub struct TypeImport {
    pub name: Text,
    pub id: TypeId,
}

impl Drop for TypeImport {
    fn drop(self) {
        let TypeImport { name: _, id: _ } = self;
    }
}
