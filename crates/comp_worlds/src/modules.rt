//! User modules by name, and the realloc that a module uses.

ghost use Rattle.std.specs.Prelude.{◌≡◌};
ghost use Rattle.std.specs.Option.{option_copied};
ghost use Rattle.comp_lists.specs.Found.{found};
ghost use Rattle.comp_worlds.specs.Lookups.{is_library, module_name, resolved_realloc, lent_export, main_realloc_if};

use crate::world::{ComponentWorld, WorldAdapter};
use comp_lists::{Keyed, Text};

/// A user module: main, or an adapter by its name.
#[derive(Clone, Copy, Debug, PartialEq, Eq, Hash)]
pub enum CustomModule<'a> {
    Main,
    Adapter(&'a str),
}

impl ComponentWorld {
    /// The module that reallocates for a module, and the name of its export for that.
    ///
    /// `own` is the realloc that the module itself has for the calls in question: it is the result where
    /// there is one. Where there is none, an adapter that is a library takes main's general one;
    /// main, any other adapter and an unknown name have none.
    pub fn resolve_realloc<'a>(
        &'a self,
        which: CustomModule<'a>,
        own: Option<&'a str>,
    ) -> Option<(CustomModule<'a>, &'a str)>
        ensures { lent_export result
            ≡ resolved_realloc self.now (module_name which.entry) (option_copied own.entry) }
    {
        if let Some(name) = own {
            return Some((which, name));
        }
        match which {
            CustomModule::Main => None,
            CustomModule::Adapter(adapter) => self.library_realloc(adapter),
        }
    }

    fn library_realloc<'a>(&'a self, adapter: &str) -> Option<(CustomModule<'a>, &'a str)>
        ensures { lent_export result
            ≡ main_realloc_if (is_library self.now adapter.now) self.now.main.exports.exports }
    {
        if !self.is_library(adapter) {
            return None;
        }
        let name = self.main.exports.general_purpose_realloc()?;
        Some((CustomModule::Main, name))
    }

    fn is_library(&self, name: &str) -> bool
        ensures { result ≡ is_library self.now name.now }
    {
        match adapter(&self.adapters, name) {
            Some(adapter) => adapter.library_info.is_some(),
            None => false,
        }
    }
}

/// The adapter of a name.
fn adapter<'a>(adapters: &'a Keyed<Text, WorldAdapter>, name: &str) -> Option<&'a WorldAdapter>
    ensures { option_copied result ≡ found name.now adapters.now }
{
    for (other, adapter) in adapters.iter() {
        if name == other.as_str() {
            return Some(adapter);
        }
    }
    None
}
