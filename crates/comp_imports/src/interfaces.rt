//! The interfaces that are imported, each as an instance of a type of its own.
#![tactic(auto, using(root_imports::proofs::Growth::growing))]

ghost use Rattle.std.specs.Prelude.{◌≡◌, ◌≢◌, [], IfOk, IfErr, OnOk};
ghost use Rattle.std.specs.List.{AllByRecursion, flat_map};
ghost use Rattle.comp_bytes.specs.ScopeNames.{member_export};
ghost use Rattle.comp_trees.specs.Members.{AreMembersRight};
ghost use Rattle.type_scopes.specs.Places.{Place};
ghost use Rattle.comp_items.specs.Items.{Extends};
ghost use Rattle.comp_links.specs.Lists.{ImportedInterface, interface_entry, names_of_interface, needed_types, number_of_interface, import_entries};
ghost use Rattle.comp_terms.specs.Rules.{Grows, import_marked};
ghost use Rattle.comp_terms.specs.Terms.{imports_in};
ghost use Rattle.comp_worlds.specs.Encodable.{IsEncodable};
ghost use Rattle.comp_worlds.specs.Worlds.{IsNamedFunction};
ghost use Rattle.wit_data.specs.Sound.{HasInterface};
ghost use Rattle.wit_data.specs.declared.worlds.WorldItem.TheVariants as world_items;
ghost use Rattle.world_values.specs.Items.{functions_of};
ghost use Rattle.interface_needs.specs.Needs.{AreFunctionsApart, AreUsedNames, IsImported};
ghost use Rattle.comp_imports.specs.Interfaces.{AreInterfaceUses, AreTypesOffered, FindsInterfacesStill, IsFoundItem, IsNextInterface, IsNextInterfaceItem, interfaces_marked, next_place};
ghost use Rattle.root_imports.specs.Interfaces.{ExportsNeeded, ExportsUsed, FindsInterfaces, AreInstancesKnown, IsInterfaceImport};
ghost use Rattle.comp_imports.specs.Names.{naming_of};
ghost use Rattle.root_imports.specs.RootScopes.{IsRefusal};

use crate::import_names::ImportNames;
use crate::interface_function::InterfaceFunction;
use crate::interface_types::outer_types;
use crate::used::{interface_uses, is_unneeded, used_names};
use byte_encoding::BuildFault;
use comp_bytes::{ExternName, InstanceType};
use comp_lists::{Keyed, Text};
use comp_worlds::ComponentWorld;
use root_imports::RootScope;
use std::alloc::{AllocError, Global};
use type_scopes::{OuterType, encode_interface_type};
use wit_data::{InterfaceId, TypeId, WorldItem, WorldKey};

/// The types of an imported interface that the component needs.
fn needed_types(world: &ComponentWorld, interface: InterfaceId) -> &[TypeId]
    ensures { result.now ≡ needed_types world.now interface }
{
    match world.live_type_imports.get(&interface) {
        Some(types) => types.as_slice(),
        None => &[],
    }
}

/// The instance type of an imported interface, which exports those of its types that the component needs, and those of
/// its functions whose names are used. The types of other interfaces of which it is made are those of the table.
fn interface_type(
    root: &RootScope<'_, ComponentWorld>,
    interface: InterfaceId,
    used: &Keyed<Text, ()>,
    outer: &Keyed<OuterType, u32>,
) -> Result<InstanceType, BuildFault>
    ghost place: { Place }
    requires valid { IsEncodable root.now.world.now }
    requires place { place ≡ next_place root.now.world.now root.now.items.defs }
    requires number { number_of_interface interface (import_entries root.now.world.now)
        ≡ imports_in root.now.items.defs }
    requires imported { IsImported root.now.world.now interface }
    requires present { HasInterface root.now.world.now.resolve interface }
    requires plain { AllByRecursion IsNamedFunction
        (functions_of root.now.world.now.resolve interface) }
    requires used { AreUsedNames root.now.world.now interface used.now }
    requires functions { AreFunctionsApart root.now.world.now interface }
    requires offered { AreTypesOffered root.now.world.now root.now.items.defs interface used.now
        outer.now }
    ensures members { IfOk result (λ ty. AreMembersRight place.surroundings [] ty.members) }
    ensures functions { IfOk result
        (λ ty. ExportsUsed root.now.world.now interface place.surroundings ty.members) }
    ensures types { IfOk result
        (λ ty. ExportsNeeded root.now.world.now interface place.surroundings ty.members) }
    ensures names { IfOk result (λ ty. flat_map member_export ty.members
        ≡ names_of_interface root.now.world.now interface) }
    ensures cause { IfErr result IsRefusal }
{
    let alloc = root.items.allocator();
    let resolve = &root.world.resolve;
    let functions = &resolve.interfaces.as_slice()[interface.index].functions;
    let needed = needed_types(root.world, interface);
    encode_interface_type(alloc, resolve, outer, interface, needed, used, functions)
}

/// Imports an interface under the name that `names` gives it, as an instance whose type comes
/// before it, where the types of other interfaces of which this is made are those of the table.
/// Returns the instance's index.
fn add_instance(
    root: &mut RootScope<'_, ComponentWorld>,
    names: &ImportNames<'_>,
    key: &WorldKey,
    interface: InterfaceId,
    used: &Keyed<Text, ()>,
    outer: &Keyed<OuterType, u32>,
) -> Result<u32, BuildFault>
    requires valid { IsEncodable root.old.world.now }
    requires next { IsNextInterface root.old.world.now root.old.items.defs root.old.instances
        key.now interface }
    requires used { AreUsedNames root.old.world.now interface used.now }
    requires functions { AreFunctionsApart root.old.world.now interface }
    requires some { names_of_interface root.old.world.now interface ≢ [] }
    requires offered { AreTypesOffered root.old.world.now root.old.items.defs interface used.now
        outer.now }
    ensures same { root.new ≡ record root.old { items = root.new.items } }
    ensures extends { Extends root.old.items root.new.items }
    ensures grows { OnOk result (Grows root.old.world.now root.old.items.defs root.new.items.defs
        (import_marked (naming_of names.now) root.old.world.now
        (ImportedInterface key.now interface))) }
    ensures imported { IfOk result
        (IsInterfaceImport root.old.world.now root.new.items.defs interface) }
    ensures cause { IfErr result IsRefusal }
{
    let world = root.world;
    let alloc = root.items.allocator();
    let name = names.name(alloc, &world.resolve, key)?;
    let debug = debug_name(alloc, &name)?;
    let ty = interface_type(root, interface, used, outer)?;
    let index = root.items.instance_type(Some(debug.as_str()), ty)?;
    let instance = root.items.import_instance(name, index)?;
    Ok(instance)
}

/// Imports an interface under the name that `names` gives it, as an instance that exports those of
/// its types that the component needs, and those of its functions whose names are used. Returns the
/// instance's index. Before it come aliases of the types of other interfaces of which the type of
/// the instance is made, and this type.
fn import_instance(
    root: &mut RootScope<'_, ComponentWorld>,
    names: &ImportNames<'_>,
    key: &WorldKey,
    interface: InterfaceId,
    used: &Keyed<Text, ()>,
) -> Result<u32, BuildFault>
    requires valid { IsEncodable root.old.world.now }
    requires next { IsNextInterface root.old.world.now root.old.items.defs root.old.instances
        key.now interface }
    requires used { AreUsedNames root.old.world.now interface used.now }
    requires functions { AreFunctionsApart root.old.world.now interface }
    requires some { names_of_interface root.old.world.now interface ≢ [] }
    requires finds { FindsInterfaces root.old.world.now root.old.items.defs root.old.instances }
    ensures same { root.new ≡ record root.old { items = root.new.items } }
    ensures extends { Extends root.old.items root.new.items }
    ensures grows { OnOk result (Grows root.old.world.now root.old.items.defs root.new.items.defs
        (import_marked (naming_of names.now) root.old.world.now
        (ImportedInterface key.now interface))) }
    ensures imported { IfOk result
        (IsInterfaceImport root.old.world.now root.new.items.defs interface) }
    ensures cause { IfErr result IsRefusal }
{
    let needed = needed_types(root.world, interface);
    let outer = outer_types(root, interface, needed, used)?;
    let instance = add_instance(root, names, key, interface, used, &outer)?;
    Ok(instance)
}

/// Imports an interface, if the component needs one of its types, or imports of user modules use one of its functions.
fn import_interface(
    root: &mut RootScope<'_, ComponentWorld>,
    names: &ImportNames<'_>,
    uses: &Keyed<InterfaceFunction, ()>,
    key: &WorldKey,
    interface: InterfaceId,
) -> Result<(), BuildFault>
    requires valid { IsEncodable root.old.world.now }
    requires uses { AreInterfaceUses root.old.world.now uses.now }
    requires next { IsNextInterface root.old.world.now root.old.items.defs root.old.instances
        key.now interface }
    requires finds { FindsInterfaces root.old.world.now root.old.items.defs root.old.instances }
    ensures world { root.new.world ≡ root.old.world }
    ensures met { root.new.met ≡ root.old.met }
    ensures extends { Extends root.old.items root.new.items }
    ensures grows { OnOk result (Grows root.old.world.now root.old.items.defs root.new.items.defs
        (flat_map (import_marked (naming_of names.now) root.old.world.now)
        (interface_entry root.old.world.now (key.now, world_items.Interface interface)))) }
    ensures finds { OnOk result
        (FindsInterfaces root.old.world.now root.new.items.defs root.new.instances) }
    ensures still { FindsInterfacesStill root.old.instances root.new.instances }
    ensures found { OnOk result (IsFoundItem root.old.world.now root.new.instances
        (key.now, world_items.Interface interface)) }
    ensures cause { IfErr result IsRefusal }
{
    let used = used_names(root.items.allocator(), root.world, uses, interface)?;
    if is_unneeded(needed_types(root.world, interface), &used) {
        return Ok(());
    }
    let instance = import_instance(root, names, key, interface, &used)?;
    root.instances.insert_if_absent(interface, instance)?;
    Ok(())
}

/// Imports an item of the world, if it is an interface of which the component needs something.
#[tactic(auto, using(crate::proofs::InterfaceLoop::passing_over))]
fn import_interface_item(
    root: &mut RootScope<'_, ComponentWorld>,
    names: &ImportNames<'_>,
    uses: &Keyed<InterfaceFunction, ()>,
    key: &WorldKey,
    item: &WorldItem,
) -> Result<(), BuildFault>
    requires valid { IsEncodable root.old.world.now }
    requires uses { AreInterfaceUses root.old.world.now uses.now }
    requires next { IsNextInterfaceItem root.old.world.now root.old.items.defs root.old.instances
        (key.now, item.now) }
    requires finds { FindsInterfaces root.old.world.now root.old.items.defs root.old.instances }
    ensures world { root.new.world ≡ root.old.world }
    ensures met { root.new.met ≡ root.old.met }
    ensures extends { Extends root.old.items root.new.items }
    ensures grows { OnOk result (Grows root.old.world.now root.old.items.defs root.new.items.defs
        (flat_map (import_marked (naming_of names.now) root.old.world.now)
        (interface_entry root.old.world.now (key.now, item.now)))) }
    ensures finds { OnOk result
        (FindsInterfaces root.old.world.now root.new.items.defs root.new.instances) }
    ensures still { FindsInterfacesStill root.old.instances root.new.instances }
    ensures found { OnOk result
        (IsFoundItem root.old.world.now root.new.instances (key.now, item.now)) }
    ensures cause { IfErr result IsRefusal }
{
    match item {
        WorldItem::Interface(interface) => import_interface(root, names, uses, key, *interface),
        WorldItem::Function(_) => Ok(()),
        WorldItem::NamedType(_) => Ok(()),
    }
}

/// Imports the interfaces of which the component needs something, in the order of the world. They
/// are the first imports of the component.
pub(crate) fn import_interfaces(
    root: &mut RootScope<'_, ComponentWorld>,
    names: &ImportNames<'_>,
) -> Result<(), BuildFault>
    requires valid { IsEncodable root.old.world.now }
    requires first { imports_in root.old.items.defs ≡ 0 }
    ensures world { root.new.world ≡ root.old.world }
    ensures met { root.new.met ≡ root.old.met }
    ensures extends { Extends root.old.items root.new.items }
    ensures grows { OnOk result (Grows root.old.world.now root.old.items.defs root.new.items.defs
        (interfaces_marked (naming_of names.now) root.old.world.now)) }
    ensures known { OnOk result
        (AreInstancesKnown root.old.world.now root.new.items.defs root.new.instances) }
    ensures cause { IfErr result IsRefusal }
{
    let world = root.world;
    root.instances = Keyed::new(root.items.allocator());
    let uses = interface_uses(root.items.allocator(), world)?;
    for (key, item) in world.items().imports.iter() {
        import_interface_item(root, names, &uses, key, item)?;
    }
    Ok(())
}

/// The debug name of the type of an instance that is imported under a name.
fn debug_name(alloc: Global, name: &ExternName) -> Result<String, AllocError> {
    let mut debug = String::new(alloc);
    debug.push_str("ty-")?;
    debug.push_str(name.name.as_str())?;
    if let Some(suffix) = &name.version_suffix {
        debug.push_str(suffix.as_str())?;
    }
    Ok(debug)
}
