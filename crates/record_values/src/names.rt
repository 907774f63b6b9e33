//! Names of interfaces and of types.

ghost use Rattle.std.specs.Prelude.{◌≡◌};
ghost use Rattle.record_values.specs.Names.{name_kind, name_text, owner_kind, owner_text};

use comp_lists::{SharedText, Text};
use std::hash::{Hash, Hasher};

/// An interface: by its id, or by the name under which the world imports or exports it where it has
/// none. One without an id that the world lacks is identified by its index in its record, and nothing
/// that the world has can name it.
#[derive(Debug)]
pub enum InterfaceName {
    Id(SharedText),
    Imported(SharedText),
    Exported(SharedText),
    Unused(u32),
}

impl Drop for InterfaceName {
    fn drop(self) {
        match self {
            InterfaceName::Id(_) => {}
            InterfaceName::Imported(_) => {}
            InterfaceName::Exported(_) => {}
            InterfaceName::Unused(_) => {}
        }
    }
}

/// The owner of a type or a function.
#[derive(Debug, Drop)]
pub enum Owner {
    World,
    Interface(InterfaceName),
}

/// A named type, by its owner and its name.
#[derive(Debug, Drop)]
pub struct TypeName {
    pub owner: Owner,
    pub name: Text,
}

impl InterfaceName {
    /// The way of naming, as a number above zero.
    fn kind(&self) -> u64
        ensures { result ≡ name_kind self.now }
    {
        match self {
            InterfaceName::Id(_) => 1,
            InterfaceName::Imported(_) => 2,
            InterfaceName::Exported(_) => 3,
            InterfaceName::Unused(index) => 4 + *index as u64,
        }
    }

    /// The text that names the interface.
    pub fn text(&self) -> &str
        ensures { result.now ≡ name_text self.now }
    {
        match self {
            InterfaceName::Id(text) => text.as_str(),
            InterfaceName::Imported(text) => text.as_str(),
            InterfaceName::Exported(text) => text.as_str(),
            InterfaceName::Unused(_) => "",
        }
    }
}

impl PartialEq for InterfaceName {
    ghost use Rattle.std.proofs.Common.{rules};
    ghost use Rattle.std.specs.Cmp.Rules.{comparing};
    ghost use Rattle.record_values.specs.Names.{is_same_interface};

    ghost eq = { is_same_interface };

    ghost laws = { Prim.search (comparing, rules) };

    fn eq(&self, other: &Self) -> bool {
        self.kind() == other.kind() && self.text() == other.text()
    }
}

impl Eq for InterfaceName {
    ghost use Rattle.std.proofs.Common.{rules};
    ghost use Rattle.std.specs.Cmp.Rules.{comparing};

    ghost laws = { Prim.search (comparing, rules) };
}

impl Hash for InterfaceName {
    ghost use Rattle.std.proofs.Common.{rules};
    ghost use Rattle.std.specs.Prelude.{◌++◌};
    ghost use Rattle.std.specs.Cmp.Rules.{hashing};
    ghost use Rattle.record_values.specs.Names.{name_kind, name_text};
    ghost use Rattle.std.specs.Hash as fed;

    ghost hash_input = { λ n. fed.str (name_text n) ++ fed.u64 (name_kind n) };

    ghost respects_eq = { Prim.search (hashing, rules) };

    fn hash<H: Hasher>(&self, state: &mut H) {
        self.text().hash(state);
        self.kind().hash(state);
    }
}

impl Owner {
    fn kind(&self) -> u64
        ensures { result ≡ owner_kind self.now }
    {
        match self {
            Owner::World => 0,
            Owner::Interface(name) => name.kind(),
        }
    }

    fn text(&self) -> &str
        ensures { result.now ≡ owner_text self.now }
    {
        match self {
            Owner::World => "",
            Owner::Interface(name) => name.text(),
        }
    }
}

impl PartialEq for Owner {
    ghost use Rattle.std.proofs.Common.{rules};
    ghost use Rattle.std.specs.Cmp.Rules.{comparing};
    ghost use Rattle.record_values.specs.Names.{is_same_owner};

    ghost eq = { is_same_owner };

    ghost laws = { Prim.search (comparing, rules) };

    fn eq(&self, other: &Self) -> bool {
        self.kind() == other.kind() && self.text() == other.text()
    }
}

impl Eq for Owner {
    ghost use Rattle.std.proofs.Common.{rules};
    ghost use Rattle.std.specs.Cmp.Rules.{comparing};

    ghost laws = { Prim.search (comparing, rules) };
}

impl Hash for Owner {
    ghost use Rattle.std.proofs.Common.{rules};
    ghost use Rattle.std.specs.Prelude.{◌++◌};
    ghost use Rattle.std.specs.Cmp.Rules.{hashing};
    ghost use Rattle.record_values.specs.Names.{owner_kind, owner_text};
    ghost use Rattle.std.specs.Hash as fed;

    ghost hash_input = { λ o. fed.str (owner_text o) ++ fed.u64 (owner_kind o) };

    ghost respects_eq = { Prim.search (hashing, rules) };

    fn hash<H: Hasher>(&self, state: &mut H) {
        self.text().hash(state);
        self.kind().hash(state);
    }
}

impl PartialEq for TypeName {
    ghost use Rattle.std.proofs.Common.{rules};
    ghost use Rattle.std.specs.Cmp.Rules.{comparing};
    ghost use Rattle.record_values.specs.Names.{is_same_type};

    ghost eq = { is_same_type };

    ghost laws = { Prim.search (comparing, rules) };

    fn eq(&self, other: &Self) -> bool {
        self.owner == other.owner && self.name == other.name
    }
}

impl Eq for TypeName {
    ghost use Rattle.std.proofs.Common.{rules};
    ghost use Rattle.std.specs.Cmp.Rules.{comparing};

    ghost laws = { Prim.search (comparing, rules) };
}

impl Hash for TypeName {
    ghost use Rattle.std.proofs.Common.{rules};
    ghost use Rattle.std.specs.Prelude.{◌++◌};
    ghost use Rattle.std.specs.Cmp.Rules.{hashing};
    ghost use Rattle.record_values.specs.Names.{owner_kind, owner_text};
    ghost use Rattle.std.specs.Hash as fed;

    ghost hash_input = { λ t. (fed.str (owner_text t.owner) ++ fed.u64 (owner_kind t.owner)) ++ fed.str t.name };

    ghost respects_eq = { Prim.search (hashing, rules) };

    fn hash<H: Hasher>(&self, state: &mut H) {
        self.owner.hash(state);
        self.name.hash(state);
    }
}
