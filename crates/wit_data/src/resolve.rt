//! Interfaces, types and worlds together.

use crate::functions::Function;
use crate::ids::TypeId;
use crate::names::IdName;
use crate::types::TypeDef;
use crate::worlds::World;
use comp_lists::{Keyed, Seq, Text};

/// An interface: its name, where it has one, and its types and functions by name, in order.
pub struct Interface {
    pub id: Option<IdName>,
    pub types: Keyed<Text, TypeId>,
    pub functions: Keyed<Text, Function>,
}

impl Drop for Interface {
    fn drop(self) {
        let Interface {
            id: _,
            types: _,
            functions: _,
        } = self;
    }
}

/// All interfaces, types and worlds, which refer to one another by index.
pub struct Resolve {
    pub interfaces: Seq<Interface>,
    pub types: Seq<TypeDef>,
    pub worlds: Seq<World>,
}

impl Drop for Resolve {
    fn drop(self) {
        let Resolve {
            interfaces: _,
            types: _,
            worlds: _,
        } = self;
    }
}
