//! The items of a world.

ghost use Rattle.std.specs.Prelude.{◌≡◌};
ghost use Rattle.record_values.specs.Names.{key_kind, key_text};

use crate::names::InterfaceName;
use crate::types::{Func, Interface, Node};
use comp_lists::{Keyed, Seq, SharedText, Text};
use std::hash::{Hash, Hasher};

/// The key of an import or an export: a plain name, or an interface's id.
#[derive(Debug, Drop)]
pub enum ItemKey {
    Name(Text),
    Interface(SharedText),
}

/// What a world imports or exports. A type has its name in its key.
#[derive(Debug, PartialEq, Eq)]
pub enum Item {
    Interface(InterfaceName),
    Function(Func),
    Type(Seq<Node>),
}

impl Drop for Item {
    fn drop(self) {
        match self {
            Item::Interface(_) => {}
            Item::Function(_) => {}
            Item::Type(_) => {}
        }
    }
}

/// What records say of a world: its interfaces by name, and its imports and exports by key, in order.
#[derive(Drop)]
pub struct Wit {
    pub interfaces: Keyed<InterfaceName, Interface>,
    pub imports: Keyed<ItemKey, Item>,
    pub exports: Keyed<ItemKey, Item>,
}

impl ItemKey {
    fn kind(&self) -> u64
        ensures { result ≡ key_kind self.now }
    {
        match self {
            ItemKey::Name(_) => 0,
            ItemKey::Interface(_) => 1,
        }
    }

    /// The name or the id.
    pub fn text(&self) -> &Text
        ensures { result.now ≡ key_text self.now }
    {
        match self {
            ItemKey::Name(text) => text,
            ItemKey::Interface(text) => text.as_text(),
        }
    }
}

impl PartialEq for ItemKey {
    ghost use Rattle.std.proofs.Common.{rules};
    ghost use Rattle.std.specs.Cmp.Rules.{comparing};
    ghost use Rattle.record_values.specs.Names.{is_same_item};

    ghost eq = { is_same_item };

    ghost laws = { Prim.search (comparing, rules) };

    fn eq(&self, other: &Self) -> bool {
        self.kind() == other.kind() && self.text() == other.text()
    }
}

impl Eq for ItemKey {
    ghost use Rattle.std.proofs.Common.{rules};
    ghost use Rattle.std.specs.Cmp.Rules.{comparing};

    ghost laws = { Prim.search (comparing, rules) };
}

impl Hash for ItemKey {
    ghost use Rattle.std.proofs.Common.{rules};
    ghost use Rattle.std.specs.Prelude.{◌++◌};
    ghost use Rattle.std.specs.Cmp.Rules.{hashing};
    ghost use Rattle.record_values.specs.Names.{key_kind, key_text};
    ghost use Rattle.std.specs.Hash as fed;

    ghost hash_input = { λ k. fed.str (key_text k) ++ fed.u64 (key_kind k) };

    ghost respects_eq = { Prim.search (hashing, rules) };

    fn hash<H: Hasher>(&self, state: &mut H) {
        self.text().hash(state);
        self.kind().hash(state);
    }
}
