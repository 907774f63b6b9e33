//! Types that instances of imported interfaces export, as aliases in the root.
#![tactic(auto, using(root_imports::proofs::Growth::growing))]

ghost use Rattle.std.specs.Prelude.{◌≡◌, ◌<◌, [], true, IfOk, IfErr, OnOk, is_some};
ghost use Rattle.std.specs.List.{AllByRecursion};
ghost use Rattle.std.specs.Map.{lookup};
ghost use Rattle.comp_items.specs.Items.{Extends};
ghost use Rattle.comp_links.specs.Lists.{needed_types};
ghost use Rattle.comp_terms.specs.Rules.{Grows};
ghost use Rattle.comp_worlds.specs.Encodable.{IsEncodable};
ghost use Rattle.wit_data.specs.Sound.{HasInterface};
ghost use Rattle.interface_needs.specs.Needs.{AreFunctionsApart, AreUsedNames, IsImported};
ghost use Rattle.type_scopes.specs.contracts.outer_type.OuterTypePartialEq.TheImpl as same_type;
ghost use Rattle.comp_imports.specs.Interfaces.{AddsType, AreTypesOffered, AreOffered, IsOfferable, AreEarlierFound};
ghost use Rattle.root_imports.specs.Interfaces.{FindsInterfaces};
ghost use Rattle.root_imports.specs.RootScopes.{IsRefusal};

use byte_encoding::BuildFault;
use comp_lists::{Keyed, Text};
use comp_worlds::ComponentWorld;
use root_imports::RootScope;
use type_scopes::{OuterType, foreign_types};
use wit_data::{InterfaceId, TypeId};

/// Adds an alias of a type of an interface that is imported, and its index to a table.
fn add_outer_type(
    root: &mut RootScope<'_, ComponentWorld>,
    table: &mut Keyed<OuterType, u32>,
    ty: OuterType,
) -> Result<(), BuildFault>
    requires finds { FindsInterfaces root.old.world.now root.old.items.defs root.old.instances }
    requires ty { IsOfferable root.old.world.now root.old.instances ty }
    requires offered { AreOffered root.old.world.now root.old.items.defs table.old }
    ensures same { root.new ≡ record root.old { items = root.new.items } }
    ensures extends { Extends root.old.items root.new.items }
    ensures grows { OnOk result
        (Grows root.old.world.now root.old.items.defs root.new.items.defs []) }
    ensures finds { FindsInterfaces root.old.world.now root.new.items.defs root.old.instances }
    ensures offered { OnOk result (AreOffered root.old.world.now root.new.items.defs table.new) }
    ensures added { OnOk result (AddsType table.old table.new ty) }
    ensures cause { IfErr result IsRefusal }
{
    let index = root.alias_type(ty.interface, ty.id)?;
    table.insert_if_absent(ty, index)?;
    Ok(())
}

/// Adds an alias of each of the types, in their order, and returns the table of their indices.
fn add_outer_types(
    root: &mut RootScope<'_, ComponentWorld>,
    met: &Keyed<OuterType, ()>,
) -> Result<Keyed<OuterType, u32>, BuildFault>
    requires offerable { AllByRecursion (λ e. IsOfferable root.old.world.now root.old.instances e.0)
        met.now }
    requires finds { FindsInterfaces root.old.world.now root.old.items.defs root.old.instances }
    ensures same { root.new ≡ record root.old { items = root.new.items } }
    ensures extends { Extends root.old.items root.new.items }
    ensures grows { OnOk result
        (Grows root.old.world.now root.old.items.defs root.new.items.defs []) }
    ensures finds { FindsInterfaces root.old.world.now root.new.items.defs root.old.instances }
    ensures offered { IfOk result (AreOffered root.old.world.now root.new.items.defs) }
    ensures all { IfOk result (λ table. AllByRecursion
        (λ e. is_some (lookup (same_type.eq-value.it e.0) table) ≡ true) met.now) }
    ensures cause { IfErr result IsRefusal }
{
    let mut table = Keyed::new(root.items.allocator());
    for (ty, _) in met.iter() {
        add_outer_type(root, &mut table, *ty)?;
    }
    Ok(table)
}

/// The types of other interfaces of which the instance type of an imported interface is made, each with the index of an
/// alias in the root. The aliases are added in the order in which the instance type meets them.
pub(crate) fn outer_types(
    root: &mut RootScope<'_, ComponentWorld>,
    interface: InterfaceId,
    needed: &[TypeId],
    used: &Keyed<Text, ()>,
) -> Result<Keyed<OuterType, u32>, BuildFault>
    requires valid { IsEncodable root.old.world.now }
    requires imported { IsImported root.old.world.now interface }
    requires present { HasInterface root.old.world.now.resolve interface }
    requires needed { needed.now ≡ needed_types root.old.world.now interface }
    requires used { AreUsedNames root.old.world.now interface used.now }
    requires functions { AreFunctionsApart root.old.world.now interface }
    requires earlier { AreEarlierFound root.old.world.now root.old.instances interface }
    requires finds { FindsInterfaces root.old.world.now root.old.items.defs root.old.instances }
    ensures same { root.new ≡ record root.old { items = root.new.items } }
    ensures extends { Extends root.old.items root.new.items }
    ensures grows { OnOk result
        (Grows root.old.world.now root.old.items.defs root.new.items.defs []) }
    ensures finds { FindsInterfaces root.old.world.now root.new.items.defs root.old.instances }
    ensures offered { IfOk result
        (AreTypesOffered root.old.world.now root.new.items.defs interface used.now) }
    ensures cause { IfErr result IsRefusal }
{
    let alloc = root.items.allocator();
    let resolve = &root.world.resolve;
    let functions = &resolve.interfaces.as_slice()[interface.index].functions;
    let met = foreign_types(alloc, resolve, interface, needed, used, functions)?;
    let table = add_outer_types(root, &met)?;
    Ok(table)
}
