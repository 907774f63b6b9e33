//! The live types of imported interfaces, and the exported interfaces that exported ones name.

ghost use Rattle.std.specs.Prelude.{◌≡◌, [], ◌==◌, ◌&&◌, not, length, map, filter, get_or, false, IfOk, OnOk};
ghost use Rattle.std.specs.List.{flat_map, AllByRecursion};
ghost use Rattle.wit_data.specs.Live.{named_types};
ghost use Rattle.wit_data.specs.Sound.{IsSound, HasInterface, HasItem, HasEntry};
ghost use Rattle.world_values.specs.Tables.{with_all};
ghost use Rattle.world_values.specs.Mentions.{same_interface, interface_in, interfaces_of, live_entry, names_interface, used_entry, exports_used};
ghost use Rattle.world_tables.specs.Placing.{ArePlaces};

use crate::meeting::owners_among;
use crate::mentions::{interface_of, interface_types};
use crate::places::{Places, at_places, places_among, places_of};
use comp_lists::{Keyed, Seq};
use std::alloc::{AllocError, Global};
use wit_data::{InterfaceId, Resolve, TypeId, World, WorldItem, WorldKey, marked_of};

/// The types of an interface that are marked.
fn live_in(
    alloc: Global,
    resolve: &Resolve,
    marks: &[bool],
    id: InterfaceId,
) -> Result<Vec<TypeId>, AllocError>
    requires sound { IsSound resolve.now }
    requires present { HasInterface resolve.now id }
    requires long { length marks.now ≡ length resolve.now.types }
    ensures { IfOk result (λ v. v.items
        ≡ filter (λ t. get_or marks.now t.index false)
        (map (λ e. e.1) (named_types resolve.now id))) }
{
    let interface = interface_of(resolve, id);
    marked_of(alloc, marks, &interface.types)
}

/// Adds an imported interface with its marked types.
fn add_live(
    alloc: Global,
    table: &mut Keyed<InterfaceId, Seq<TypeId>>,
    resolve: &Resolve,
    marks: &[bool],
    item: &WorldItem,
) -> Result<(), AllocError>
    requires sound { IsSound resolve.now }
    requires present { HasItem resolve.now item.now }
    requires long { length marks.now ≡ length resolve.now.types }
    ensures { OnOk result (table.new
        ≡ with_all same_interface table.old
        (live_entry (λ n. get_or marks.now n false) resolve.now item.now)) }
{
    let WorldItem::Interface(id) = item else {
        return Ok(());
    };
    let live = live_in(alloc, resolve, marks, *id)?;
    table.insert_if_absent(*id, Seq::from_vec(live))
}

/// The marked types of each imported interface.
#[tactic(auto, using(crate::proofs::Entering::after_item))]
pub(crate) fn live_imports(
    alloc: Global,
    resolve: &Resolve,
    marks: &[bool],
    entries: &Keyed<WorldKey, WorldItem>,
) -> Result<Keyed<InterfaceId, Seq<TypeId>>, AllocError>
    requires sound { IsSound resolve.now }
    requires all_present { AllByRecursion (HasEntry resolve.now) entries.now }
    requires long { length marks.now ≡ length resolve.now.types }
    ensures { IfOk result (λ t. t
        ≡ with_all same_interface [] (flat_map
        (λ e. live_entry (λ n. get_or marks.now n false) resolve.now e.1)
        entries.now)) }
{
    let mut table = Keyed::new(alloc);
    for (_, item) in entries.iter() {
        add_live(alloc, &mut table, resolve, marks, item)?;
    }
    Ok(table)
}

/// The interface of an item, if it is one.
fn interface_in(item: &WorldItem) -> Option<InterfaceId>
    ensures { result ≡ interface_in item.now }
{
    match item {
        WorldItem::Interface(id) => Some(*id),
        WorldItem::Function(_) | WorldItem::NamedType(_) => None,
    }
}

/// The interfaces among exports, in order.
fn interfaces_of(
    alloc: Global,
    entries: &Keyed<WorldKey, WorldItem>,
) -> Result<Vec<InterfaceId>, AllocError>
    ensures { IfOk result (λ v. v.items ≡ interfaces_of entries.now) }
{
    let mut list = Vec::new(alloc);
    for (_, item) in entries.iter() {
        if let Some(id) = interface_in(item) {
            list.push(id)?;
        }
    }
    Ok(list)
}

/// The exported interfaces that an exported one names, except for itself.
fn named_by(
    alloc: Global,
    resolve: &Resolve,
    id: InterfaceId,
    all: &[InterfaceId],
    places: &Places,
) -> Result<Vec<InterfaceId>, AllocError>
    requires sound { IsSound resolve.now }
    requires present { HasInterface resolve.now id }
    requires placed { ArePlaces all.now places.now }
    ensures { IfOk result (λ v. v.items
        ≡ filter
        (λ other. names_interface resolve.now id other && not (other.index == id.index))
        all.now) }
{
    let given = interface_types(alloc, resolve, id)?;
    let owners = owners_among(alloc, resolve.types.as_slice(), given.as_slice())?;
    let found = places_among(alloc, places, id, &owners)?;
    let named = at_places(alloc, all, &found)?;
    Ok(named)
}

/// Adds an exported interface with the other exported ones that it names.
fn add_used(
    alloc: Global,
    table: &mut Keyed<InterfaceId, Seq<InterfaceId>>,
    resolve: &Resolve,
    all: &[InterfaceId],
    places: &Places,
    item: &WorldItem,
) -> Result<(), AllocError>
    requires sound { IsSound resolve.now }
    requires present { HasItem resolve.now item.now }
    requires placed { ArePlaces all.now places.now }
    ensures { OnOk result
        (table.new ≡ with_all same_interface table.old (used_entry resolve.now all.now item.now)) }
{
    let WorldItem::Interface(id) = item else {
        return Ok(());
    };
    let named = named_by(alloc, resolve, *id, all, places)?;
    table.insert_if_absent(*id, Seq::from_vec(named))
}

/// For each exported interface, the other exported ones that it names.
#[tactic(auto, using(crate::proofs::Entering::after_item))]
fn used_among(
    alloc: Global,
    resolve: &Resolve,
    all: &[InterfaceId],
    places: &Places,
    entries: &Keyed<WorldKey, WorldItem>,
) -> Result<Keyed<InterfaceId, Seq<InterfaceId>>, AllocError>
    requires sound { IsSound resolve.now }
    requires all_present { AllByRecursion (HasEntry resolve.now) entries.now }
    requires placed { ArePlaces all.now places.now }
    ensures { IfOk result (λ t. t
        ≡ with_all same_interface []
        (flat_map (λ e. used_entry resolve.now all.now e.1) entries.now)) }
{
    let mut table = Keyed::new(alloc);
    for (_, item) in entries.iter() {
        add_used(alloc, &mut table, resolve, all, places, item)?;
    }
    Ok(table)
}

/// For each exported interface, the other exported ones that it names. Each takes time linear in
/// the number of what its functions and types name, of the types that these reach, and of their
/// parts, and, up to a logarithm, of the interfaces that it names.
pub(crate) fn exports_used(
    alloc: Global,
    resolve: &Resolve,
    world: &World,
) -> Result<Keyed<InterfaceId, Seq<InterfaceId>>, AllocError>
    requires sound { IsSound resolve.now }
    requires all_present { AllByRecursion (HasEntry resolve.now) world.now.exports }
    ensures { IfOk result (λ t. t ≡ exports_used resolve.now world.now) }
{
    let all = interfaces_of(alloc, &world.exports)?;
    let places = places_of(alloc, all.as_slice())?;
    used_among(alloc, resolve, all.as_slice(), &places, &world.exports)
}
