//! What the outer scope offers to an instance type.

ghost use Rattle.std.specs.Prelude.{◌≡◌, Some};
ghost use Rattle.std.specs.Option.{IfSome};
ghost use Rattle.wit_data.specs.declared.types.Type.TheVariants.{Id};
ghost use Rattle.comp_trees.specs.WitTrees.{wit_tree};
ghost use Rattle.comp_trees.specs.DefinedTrees.{OfValues};
ghost use Rattle.comp_trees.specs.DefinedScopes.{Denotes};
ghost use Rattle.type_scopes.specs.Offers.{IsOffered, offered};

use crate::outer_type::OuterType;
use crate::placement::Placement;
use comp_lists::Keyed;
use std::marker::{Model, PhantomData};
use wit_data::{InterfaceId, Resolve, TypeId};

/// The types of other interfaces that the outer scope offers, each by its index there.
pub struct OuterTypes<'a, P: Placement> {
    resolve: &'a Resolve,
    table: &'a Keyed<OuterType, u32>,
    placement: PhantomData<P>,
}

impl<'a, P: Placement> Drop for OuterTypes<'a, P> {
    fn drop(self) {
        let OuterTypes {
            resolve: _,
            table: _,
            placement: _,
        } = self;
    }
}

impl<'a, P: Placement> Model for OuterTypes<'a, P> {
    ghost use Rattle.type_scopes.specs.Offers.{Offer, IsOffered};

    ghost Value = { Offer };

    ghost view = { λ o. record { types = o.resolve.now.types; table = o.table.now } };

    ghost invariant = { λ o. IsOffered P.surroundings P.origin (record { types = o.resolve.now.types; table = o.table.now }) };
}

impl<'a, P: Placement> OuterTypes<'a, P> {
    /// What a table offers, whose indices denote the types of the resolve in the outer scope.
    pub fn new(resolve: &'a Resolve, table: &'a Keyed<OuterType, u32>) -> OuterTypes<'a, P>
        requires { IsOffered P.surroundings P.origin
            (record { types = resolve.now.types; table = table.now }) }
        ensures { result ≡ record { types = resolve.entry.now.types; table = table.entry.now } }
    {
        OuterTypes {
            resolve,
            table,
            placement: PhantomData,
        }
    }

    /// The index in the outer scope of a type of another interface.
    pub fn index_of(&self, interface: InterfaceId, id: TypeId) -> Option<u32>
        ensures found { result ≡ offered self.now interface id }
        ensures denotes { IfSome result (λ index. Denotes P.surroundings.outer index
            (OfValues (wit_tree P.origin self.now.types (Some (Id id))))) }
    {
        self.table.get(&OuterType { interface, id }).copied()
    }
}
