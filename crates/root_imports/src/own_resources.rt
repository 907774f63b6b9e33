//! Resources that the component defines, in the tables of the root.
#![tactic(auto)]

ghost use Rattle.std.specs.Prelude.{◌≡◌, true, List, ℕ};
ghost use Rattle.std.specs.Option.{IsSomeAnd};
ghost use Rattle.comp_bytes.specs.declared.def.Def.{Def};
ghost use Rattle.comp_links.specs.Lists.{resource_of};
ghost use Rattle.comp_terms.specs.Terms as terms;
ghost use Rattle.comp_worlds.specs.Encodable.{IsEncodable};
ghost use Rattle.comp_worlds.specs.Worlds as worlds;
ghost use Rattle.comp_worlds.specs.declared.world.ComponentWorld.{ComponentWorld as World};
ghost use Rattle.root_imports.specs.Met.{is_met};
ghost use Rattle.root_imports.specs.RootScopes.{AreTablesRight};
ghost use Rattle.root_imports.specs.declared.met_types.MetTypes.{MetTypes};
ghost use Rattle.wit_data.specs.declared.ids.InterfaceId.{InterfaceId};

use crate::root_scope::RootScope;
use comp_worlds::ComponentWorld;
use wit_data::TypeId;
use wit_types::TypeEncodingMaps;

/// The index of a resource in these tables, where it is in them.
fn met_index(maps: &TypeEncodingMaps, id: TypeId) -> Option<u32>
    ensures { (w : World) (met : MetTypes) (instances : List (InterfaceId × ℕ)) (ds : List Def)
        → IsEncodable w
        → worlds.IsResource w.resolve.types id.index
        → is_met w met id ≡ true
        → AreTablesRight w met instances ds maps.now
        → IsSomeAnd result (λ index. terms.IsResource ds index (resource_of w id)) }
{
    maps.type_index(id)
}

impl RootScope<'_, ComponentWorld> {
    /// The index of a resource of an exported interface whose types are at hand.
    pub fn own_resource(&self, id: TypeId) -> u32
        requires valid { IsEncodable self.now.world.now }
        requires resource { worlds.IsResource self.now.world.now.resolve.types id.index }
        requires met { is_met self.now.world.now self.now.met id ≡ true }
        requires tables { AreTablesRight self.now.world.now self.now.met self.now.instances
            self.now.items.defs self.now.maps }
        ensures { terms.IsResource self.now.items.defs result (resource_of self.now.world.now id) }
    {
        met_index(&self.maps, id).unwrap()
    }
}
