//! The types that a nested component imports.

ghost use Rattle.std.specs.Prelude.{◌≡◌, ◌-◌, ◌++◌, ◌∷◌, [], length, take, OnOk, OnErr};

use crate::type_import::TypeImport;
use comp_lists::Seq;
use std::alloc::{AllocError, Global};
use std::marker::Model;

/// The types that were imported, in order.
pub(crate) struct ImportedTypes {
    list: Vec<TypeImport>,
}

impl Drop for ImportedTypes {
    fn drop(self) {
        let ImportedTypes { list: _ } = self;
    }
}

impl Model for ImportedTypes {
    ghost use Rattle.std.specs.Prelude.{List};
    ghost use Rattle.nested_components.specs.declared.type_import.TypeImport.{TypeImport};

    ghost Value = { List TypeImport };

    ghost view = { λ t. t.list.items };
}

impl ImportedTypes {
    /// None. It takes no memory.
    pub(crate) fn new(alloc: Global) -> ImportedTypes
        ensures { result ≡ [] }
    {
        ImportedTypes {
            list: Vec::new(alloc),
        }
    }

    /// Adds a type.
    pub(crate) fn push(&mut self, import: TypeImport) -> Result<(), AllocError>
        ensures ok { OnOk result (self.new ≡ self.old ++ import ∷ []) }
        ensures err { OnErr result (self.new ≡ self.old) }
    {
        self.list.push(import)?;
        Ok(())
    }

    /// Takes the last one back.
    pub(crate) fn take_back(&mut self)
        ensures { self.new ≡ take (length self.old - 1) self.old }
    {
        let count = self.list.len();
        if count > 0 {
            self.list.truncate(count - 1);
        }
    }

    /// The types.
    pub(crate) fn into_seq(self) -> Seq<TypeImport>
        ensures { result ≡ self }
    {
        let ImportedTypes { list } = self;
        Seq::from_vec(list)
    }
}
