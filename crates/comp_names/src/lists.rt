//! The lists of names that a component has.
//!
//! Component model, explainer: imports, exports, arguments of instantiations, entries of instances.

use crate::listing::Listing;
use comp_bytes::{Argument, CoreArgument, CoreInlineExport, Def, Item, Member};
use comp_lists::Text;

/// The names of imports.
pub(crate) struct Imports;

/// The names of exports.
pub(crate) struct Exports;

/// The names of arguments, or of the entries of an instance.
pub(crate) struct Entries;

impl Listing<Item> for Imports {
    ghost use Rattle.comp_bytes.specs.ScopeNames.{item_import};

    ghost listed = { item_import };

    fn name(entry: &Item) -> Option<&Text> {
        match entry {
            Item::Import { name, .. } => Some(&name.name),
            _ => None,
        }
    }
}

impl Listing<Item> for Exports {
    ghost use Rattle.comp_bytes.specs.ScopeNames.{item_export};

    ghost listed = { item_export };

    fn name(entry: &Item) -> Option<&Text> {
        match entry {
            Item::Export { name, .. } => Some(&name.name),
            _ => None,
        }
    }
}

impl Listing<Def> for Imports {
    ghost use Rattle.comp_bytes.specs.ScopeNames.{def_import};

    ghost listed = { def_import };

    fn name(entry: &Def) -> Option<&Text> {
        match entry {
            Def::Item(item) => <Imports as Listing<Item>>::name(item),
            Def::Component(_) => None,
        }
    }
}

impl Listing<Def> for Exports {
    ghost use Rattle.comp_bytes.specs.ScopeNames.{def_export};

    ghost listed = { def_export };

    fn name(entry: &Def) -> Option<&Text> {
        match entry {
            Def::Item(item) => <Exports as Listing<Item>>::name(item),
            Def::Component(_) => None,
        }
    }
}

impl Listing<Member> for Exports {
    ghost use Rattle.comp_bytes.specs.ScopeNames.{member_export};

    ghost listed = { member_export };

    fn name(entry: &Member) -> Option<&Text> {
        match entry {
            Member::Export { name, .. } => Some(&name.name),
            _ => None,
        }
    }
}

impl Listing<CoreArgument> for Entries {
    ghost use Rattle.std.specs.Prelude.{[], ◌∷◌};

    ghost listed = { λ a. a.name ∷ [] };

    fn name(entry: &CoreArgument) -> Option<&Text> {
        Some(&entry.name)
    }
}

impl Listing<CoreInlineExport> for Entries {
    ghost use Rattle.std.specs.Prelude.{[], ◌∷◌};

    ghost listed = { λ e. e.name ∷ [] };

    fn name(entry: &CoreInlineExport) -> Option<&Text> {
        Some(&entry.name)
    }
}

impl Listing<Argument> for Entries {
    ghost use Rattle.std.specs.Prelude.{[], ◌∷◌};

    ghost listed = { λ a. a.name ∷ [] };

    fn name(entry: &Argument) -> Option<&Text> {
        Some(&entry.name)
    }
}
