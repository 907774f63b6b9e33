//! Types that instances of interfaces export, as aliases in the root.

ghost use Rattle.std.specs.Prelude.{◌≡◌, ◌<◌, length, true, IfErr, IsSome, Some};
ghost use Rattle.std.specs.Map.{lookup};
ghost use Rattle.comp_inventories.specs.Inventories.{scope_of};
ghost use Rattle.type_scopes.specs.Titles.{is_one_of};
ghost use Rattle.wit_types.specs.Denoting.{Makes, IsCause};
ghost use Rattle.comp_links.specs.Lists.{needed_types, type_of_world};
ghost use Rattle.comp_worlds.specs.WorldContents.{name_at};
ghost use Rattle.wit_data.specs.contracts.ids.InterfaceIdPartialEq.TheImpl as same_id;
ghost use Rattle.root_imports.specs.Interfaces.{FindsExports, FindsInterfaces};
ghost use Rattle.root_imports.specs.Met.{has_instance, is_named_of};
ghost use Rattle.root_imports.specs.RootScopes.{RootGrows, is_full};

use crate::root_scope::{HasWorld, RootScope};
use byte_encoding::BuildFault;
use comp_lists::Text;
use comp_worlds::ComponentWorld;
use wit_data::{InterfaceId, TypeId};

/// The name of a type that has one.
fn type_name(world: &ComponentWorld, id: TypeId) -> &Text
    requires present { id.index < length world.now.resolve.types }
    requires named { IsSome (name_at world.now.resolve.types id.index) }
    ensures { name_at world.now.resolve.types id.index ≡ Some result.now }
{
    match &world.resolve.types.as_slice()[id.index].name {
        Some(name) => name,
        None => unreachable!(),
    }
}

impl<'a, W: HasWorld> RootScope<'a, W> {
    /// Adds an alias of a type that the instance of an imported interface exports, and returns its
    /// index. Each call adds one.
    pub fn alias_type(&mut self, interface: InterfaceId, id: TypeId) -> Result<u32, BuildFault>
        requires finds { FindsInterfaces (W.world self.old.world.now) self.old.items.defs
            self.old.instances }
        requires found { IsSome (lookup (same_id.eq-value.it interface) self.old.instances) }
        requires needed { is_one_of (needed_types (W.world self.old.world.now) interface) id.index
            ≡ true }
        ensures same { self.new ≡ record self.old { items = self.new.items } }
        ensures grows { RootGrows (W.world self.old.world.now) self.old.items self.new.items }
        ensures makes { Makes (scope_of self.old.items.defs) (scope_of self.new.items.defs) result
            (type_of_world (W.world self.old.world.now) id) }
        ensures cause { IfErr result (IsCause is_full self.new.items.defs) }
    {
        let world = self.world;
        let name = type_name(world.as_world(), id);
        let instance = *self.instances.get(&interface).unwrap();
        let index = self.items.alias_type(instance, name)?;
        Ok(index)
    }

    /// Adds an alias of a type that the instance of an exported interface exports, and returns its
    /// index. Each call adds one.
    pub(crate) fn alias_exported_type(
        &mut self,
        interface: InterfaceId,
        id: TypeId,
    ) -> Result<u32, BuildFault>
        requires finds { FindsExports (W.world self.old.world.now) self.old.items.defs
            self.old.met.exported }
        requires found { has_instance self.old.met interface ≡ true }
        requires named { is_named_of (W.world self.old.world.now).resolve.types interface id.index
            ≡ true }
        ensures same { self.new ≡ record self.old { items = self.new.items } }
        ensures grows { RootGrows (W.world self.old.world.now) self.old.items self.new.items }
        ensures makes { Makes (scope_of self.old.items.defs) (scope_of self.new.items.defs) result
            (type_of_world (W.world self.old.world.now) id) }
        ensures cause { IfErr result (IsCause is_full self.new.items.defs) }
    {
        let world = self.world;
        let title = type_name(world.as_world(), id);
        let instance = *self.met.exported.get(&interface).unwrap();
        let index = self.items.alias_type(instance, title)?;
        Ok(index)
    }
}
