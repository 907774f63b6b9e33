//! The interface that a nested component is made for.

ghost use Rattle.std.specs.Prelude.{◌≡◌, ◌∷◌, [], OnOk};
ghost use Rattle.std.specs.Map.{lookup};
ghost use Rattle.std.specs.Str.{bytes_eq};
ghost use Rattle.nested_components.specs.Homes.{new_home, with_foreign, with_resources};

use comp_lists::{Keyed, Seq, Text};
use std::alloc::{AllocError, Global};
use std::marker::Model;
use wit_data::{InterfaceId, Resolve, TypeId};

/// An interface, the types that it lists, and those of other interfaces and the resources of its
/// own that were imported for it.
pub struct OwnTypes<'a> {
    resolve: &'a Resolve,
    interface: InterfaceId,
    types: &'a Keyed<Text, TypeId>,
    foreign: Seq<TypeId>,
    resources: Seq<TypeId>,
}

impl<'a> Drop for OwnTypes<'a> {
    fn drop(self) {
        let OwnTypes {
            resolve: _,
            interface: _,
            types: _,
            foreign: _,
            resources: _,
        } = self;
    }
}

impl<'a> Model for OwnTypes<'a> {
    ghost use Rattle.nested_components.specs.Homes.{Home};

    ghost Value = { Home };

    ghost view = { λ o. record { types = o.resolve.now.types; here = o.interface; named = o.types.now; foreign = o.foreign; resources = o.resources } };
}

impl<'a> OwnTypes<'a> {
    /// The types that an interface of the resolve lists. None was imported.
    pub fn new(
        alloc: Global,
        resolve: &'a Resolve,
        interface: InterfaceId,
        types: &'a Keyed<Text, TypeId>,
    ) -> OwnTypes<'a>
        ensures { result ≡ new_home resolve.entry.now.types interface types.entry.now }
    {
        OwnTypes {
            resolve,
            interface,
            types,
            foreign: Seq::new(alloc),
            resources: Seq::new(alloc),
        }
    }

    /// A type of another interface was imported.
    pub fn add_foreign(&mut self, id: TypeId) -> Result<(), AllocError>
        ensures { OnOk result (self.new ≡ with_foreign self.old (id ∷ [])) }
    {
        self.foreign.push(id)?;
        Ok(())
    }

    /// A resource of the interface was imported.
    pub fn add_resource(&mut self, id: TypeId) -> Result<(), AllocError>
        ensures { OnOk result (self.new ≡ with_resources self.old (id ∷ [])) }
    {
        self.resources.push(id)?;
        Ok(())
    }

    /// The interface.
    pub fn interface(&self) -> InterfaceId
        ensures { result ≡ self.now.here }
    {
        self.interface
    }

    /// The type that is listed under a name.
    pub fn id_of(&self, name: &Text) -> Option<TypeId>
        ensures { result ≡ lookup (bytes_eq name.now) self.now.named }
    {
        self.types.get(name).copied()
    }
}
