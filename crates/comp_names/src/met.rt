//! The names that were met in a list.

ghost use Rattle.std.specs.Prelude.{◌≡◌, [], ◌∷◌, ◌++◌, false, IfOk, IfErr, OnOk};
ghost use Rattle.std.specs.List.{list_any};
ghost use Rattle.std.specs.Str.{bytes_eq};
ghost use Rattle.comp_names.specs.Judged.{IsMetBefore};

use crate::fault::NameFault;
use comp_lists::{Keyed, Text};
use std::alloc::Global;
use std::marker::Model;

/// The names that were met in a list, which contracts see as that list.
#[derive(Drop)]
pub(crate) struct Met<'a> {
    names: Keyed<&'a Text, ()>,
}

impl<'a> Model for Met<'a> {
    ghost use Rattle.std.specs.Prelude.{List, ℕ, map};

    ghost Value = { List (List ℕ) };

    ghost view = { λ m. map (λ e. e.0.now) m.names };
}

impl<'a> Met<'a> {
    /// No name. It allocates nothing.
    pub(crate) fn new(alloc: Global) -> Met<'a>
        ensures { result ≡ [] }
    {
        Met {
            names: Keyed::new(alloc),
        }
    }

    /// Adds a name. One that was met before is refused.
    pub(crate) fn note(&mut self, alloc: Global, name: &'a Text) -> Result<(), NameFault>
        ensures ok { OnOk result (self.new ≡ self.old ++ name.now ∷ []) }
        ensures other { OnOk result (list_any (bytes_eq name.now) self.old ≡ false) }
        ensures cause { IfErr result (IsMetBefore name.now self.old) }
    {
        if self.names.contains_key(&name) {
            return Err(NameFault::Twice {
                name: name.clone(alloc)?,
            });
        }
        self.names.insert(name, ())?;
        Ok(())
    }
}
