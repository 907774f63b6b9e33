//! The function of the world that a shim stands for.
#![tactic(auto, using(comp_items::proofs::Extending::extends_none, comp_items::proofs::Extending::extends_same, comp_items::proofs::Extending::extends_then))]

ghost use Rattle.std.specs.Prelude.{◌≡◌, Some, IfOk, IfErr, OnOk, IsSome, IsTrue};
ghost use Rattle.std.specs.Option.{option_copied, option_and_then};
ghost use Rattle.comp_items.specs.Items.{Extends};
ghost use Rattle.comp_links.specs.Roles.{is_used};
ghost use Rattle.comp_links.specs.Targets.{OfRoot, OfInterface};
ghost use Rattle.comp_terms.specs.Generated.{interface_in, interface_imported};
ghost use Rattle.comp_worlds.specs.Encodable.{IsEncodable};
ghost use Rattle.main_fixup.specs.Filling.{IsUsedOfInterface, IsUsedAt, IsFunctionAt, HasFillSources, GrowsInside};
ghost use Rattle.core_options.specs.MainOptions.{IsFunctionOf};
ghost use Rattle.root_imports.specs.RootScopes.{IsRefusal};

use crate::sources::FillSources;
use byte_encoding::BuildFault;
use comp_lists::Text;
use comp_worlds::ComponentWorld;
use root_imports::RootScope;
use wit_data::{InterfaceId, WorldItem, WorldKey};

/// The interface that an item is.
fn as_interface(item: Option<&WorldItem>) -> InterfaceId
    requires { IsSome (option_and_then interface_in (option_copied item)) }
    ensures { option_and_then interface_in (option_copied item.entry) ≡ Some result }
{
    match item.unwrap() {
        WorldItem::Interface(id) => *id,
        WorldItem::Function(_) => unreachable!(),
        WorldItem::NamedType(_) => unreachable!(),
    }
}

/// The interface that the world imports under a key.
fn interface_at(world: &ComponentWorld, key: &WorldKey) -> InterfaceId
    requires valid { IsEncodable world.now }
    requires present { IsSome (interface_imported world.now key.now) }
    ensures { interface_imported world.now key.now ≡ Some result }
{
    as_interface(world.items().imports.get(key))
}

/// The index of a root function that was imported.
fn root_function(
    root: &RootScope<'_, ComponentWorld>,
    sources: &FillSources<'_>,
    name: &Text,
) -> u32
    requires sources { HasFillSources root.now sources.now }
    requires used { IsTrue (is_used root.now.world.now name.now) }
    ensures { IsFunctionOf root.now.world.now root.now.items.defs result (OfRoot name.now) }
{
    *sources.functions.get(name).unwrap()
}

/// An alias of a function of an imported interface, as the interface's instance exports it.
fn interface_function(
    root: &mut RootScope<'_, ComponentWorld>,
    sources: &FillSources<'_>,
    interface: InterfaceId,
    name: &Text,
) -> Result<u32, BuildFault>
    requires sources { HasFillSources root.old sources.now }
    requires used { IsUsedOfInterface root.old.world.now interface name.now }
    ensures same { root.new ≡ record root.old { items = root.new.items } }
    ensures extends { Extends root.old.items root.new.items }
    ensures grows { OnOk result (GrowsInside root.old root.new) }
    ensures function { IfOk result (λ index. IsFunctionOf root.old.world.now root.new.items.defs
        index (OfInterface interface name.now)) }
    ensures cause { IfErr result IsRefusal }
{
    let instance = *root.instances.get(&interface).unwrap();
    let index = root.items.alias_function(instance, name)?;
    Ok(index)
}

/// The function of this name at the root, as it was imported, or an alias of that of an imported
/// interface, by the key of the interface.
pub(crate) fn imported_function(
    root: &mut RootScope<'_, ComponentWorld>,
    sources: &FillSources<'_>,
    interface: &Option<WorldKey>,
    name: &Text,
) -> Result<u32, BuildFault>
    requires sources { HasFillSources root.old sources.now }
    requires used { IsUsedAt root.old.world.now interface.now name.now }
    ensures same { root.new ≡ record root.old { items = root.new.items } }
    ensures extends { Extends root.old.items root.new.items }
    ensures grows { OnOk result (GrowsInside root.old root.new) }
    ensures function { IfOk result
        (IsFunctionAt root.old.world.now root.new.items.defs interface.now name.now) }
    ensures cause { IfErr result IsRefusal }
{
    match interface {
        None => {
            let index = root_function(root, sources, name);
            Ok(index)
        }
        Some(key) => {
            let id = interface_at(root.world, key);
            let index = interface_function(root, sources, id, name)?;
            Ok(index)
        }
    }
}
