//! Which types of the world the root has at hand: those in its tables, and those that instances of
//! exported interfaces export.
#![tactic(auto)]

ghost use Rattle.std.specs.Prelude.{◌≡◌, None};
ghost use Rattle.comp_lists.specs.Tables.{with_first};
ghost use Rattle.wit_data.specs.contracts.ids.InterfaceIdPartialEq.TheImpl as same_id;
ghost use Rattle.root_imports.specs.Met.{nothing_met, has_types, has_instance, Leaves};

use comp_lists::Keyed;
use std::alloc::{AllocError, Global};
use wit_data::{InterfaceId, TypeId};

/// The types of the world that are in the tables of the root, and the instances of exported
/// interfaces, which export others.
#[derive(Drop)]
pub struct MetTypes {
    /// The last type of the world that was imported: it and those before it in the resolve are in the tables.
    pub last: Option<TypeId>,
    /// The exported interfaces whose types are all in the tables.
    pub interfaces: Keyed<InterfaceId, ()>,
    /// The last type of an exported interface whose types are entered one after the other: it and
    /// those of its interface that come before it in the resolve are in the tables.
    pub own: Option<TypeId>,
    /// The instances of the interfaces that were exported.
    pub exported: Keyed<InterfaceId, u32>,
}

impl MetTypes {
    /// No type. It allocates nothing.
    pub fn new(alloc: Global) -> MetTypes
        ensures { result ≡ nothing_met }
    {
        MetTypes {
            last: None,
            interfaces: Keyed::new(alloc),
            own: None,
            exported: Keyed::new(alloc),
        }
    }

    /// Whether all types of an exported interface are in the tables.
    pub fn has_types(&self, interface: InterfaceId) -> bool
        ensures { result ≡ has_types self.now interface }
    {
        self.interfaces.contains_key(&interface)
    }

    /// Whether an instance of an exported interface exports its types.
    pub(crate) fn has_instance(&self, interface: InterfaceId) -> bool
        ensures { result ≡ has_instance self.now interface }
    {
        self.exported.contains_key(&interface)
    }

    /// Takes an exported interface out of those whose types are in the tables.
    pub(crate) fn leave(&mut self, interface: InterfaceId)
        ensures { Leaves interface self.old self.new }
    {
        let _ = self.interfaces.iter();
        self.interfaces.remove(&interface);
        self.own = None;
    }
}
