//! The places of exported interfaces among the exports.

ghost use Rattle.std.specs.Prelude.{◌≡◌, ◌==◌, ◌&&◌, ◌||◌, not, nat_eq, Bool, false, ℕ, filter, IfOk, OnOk, if◌then◌else◌};
ghost use Rattle.std.specs.BTreeSet.{contains};
ghost use Rattle.std.specs.List.{list_any, slice_get};
ghost use Rattle.std.specs.Ordering.{nat_cmp};
ghost use Rattle.wit_data.specs.declared.ids.InterfaceId.{InterfaceId};
ghost use Rattle.world_tables.specs.Placing.{passes_at, is_place, ArePlaces};

use comp_lists::{Keyed, Seq};
use std::alloc::{AllocError, Global};
use std::collections::{BTreeSet, HashMap};
use wit_data::InterfaceId;

/// The places of interfaces in a list, by their numbers.
pub(crate) type Places = HashMap<usize, Seq<usize>>;

/// Takes the places of an interface out of the table.
fn take_places(alloc: Global, places: &mut Places, id: InterfaceId) -> Seq<usize>
    ensures list { (q : ℕ) → list_any (nat_eq q) result ≡ is_place places.old id.index q }
    ensures others { (n q : ℕ)
        → is_place places.new n q ≡ (if nat_eq id.index n then false else is_place places.old n q) }
{
    match places.remove(&id.index) {
        Some(list) => list,
        None => Seq::new(alloc),
    }
}

/// Adds a place of an interface.
fn add_place(
    alloc: Global,
    places: &mut Places,
    id: InterfaceId,
    place: usize,
) -> Result<(), AllocError>
    ensures { OnOk result ((n q : ℕ)
        → is_place places.new n q
        ≡ ((nat_eq id.index n && nat_eq q place) || is_place places.old n q)) }
{
    let mut list = take_places(alloc, places, id);
    list.push(place)?;
    places.insert(id.index, list)?;
    Ok(())
}

/// The places of each of these interfaces. The time is linear in their number.
pub(crate) fn places_of(alloc: Global, ids: &[InterfaceId]) -> Result<Places, AllocError>
    ensures { IfOk result (ArePlaces ids.now) }
{
    let mut places = HashMap::new(alloc);
    for place in 0..ids.len() {
        add_place(alloc, &mut places, ids[place], place)?;
    }
    Ok(places)
}

/// Adds places to others.
fn add_all(found: &mut BTreeSet<usize>, places: &[usize]) -> Result<(), AllocError>
    ensures { OnOk result ((q : ℕ)
        → contains nat_cmp found.new q
        ≡ (contains nat_cmp found.old q || list_any (nat_eq q) places.now)) }
{
    for place in places {
        found.insert(*place)?;
    }
    Ok(())
}

/// Adds the places of an interface to others, unless it is this one.
fn add_other(
    found: &mut BTreeSet<usize>,
    places: &Places,
    id: InterfaceId,
    other: usize,
) -> Result<(), AllocError>
    ensures { OnOk result ((q : ℕ)
        → contains nat_cmp found.new q
        ≡ (contains nat_cmp found.old q
        || (not (other == id.index) && is_place places.now other q))) }
{
    if other == id.index {
        return Ok(());
    }
    match places.get(&other) {
        Some(list) => add_all(found, list.as_slice()),
        None => Ok(()),
    }
}

/// The places of these interfaces, except for this one.
pub(crate) fn places_among(
    alloc: Global,
    places: &Places,
    id: InterfaceId,
    others: &Keyed<usize, ()>,
) -> Result<BTreeSet<usize>, AllocError>
    ensures { IfOk result (λ s. (q : ℕ)
        → contains nat_cmp s q
        ≡ list_any (λ e. not (e.0 == id.index) && is_place places.now e.0 q) others.now) }
{
    let mut found = BTreeSet::new(alloc);
    for (other, _) in others.iter() {
        add_other(&mut found, places, id, *other)?;
    }
    Ok(found)
}

/// The interface at a place, if there is one.
fn id_at(ids: &[InterfaceId], place: usize) -> Option<InterfaceId>
    ensures { result ≡ slice_get ids.now place }
{
    ids.get(place).copied()
}

/// The interfaces at places, in their order.
pub(crate) fn at_places(
    alloc: Global,
    ids: &[InterfaceId],
    places: &BTreeSet<usize>,
) -> Result<Vec<InterfaceId>, AllocError>
    ensures { IfOk result (λ v. (test : InterfaceId → Bool)
        → ((q : ℕ) → contains nat_cmp places.now q ≡ passes_at test ids.now q)
        → v.items ≡ filter test ids.now) }
{
    let mut list = Vec::new(alloc);
    for place in places.iter() {
        if let Some(id) = id_at(ids, *place) {
            list.push(id)?;
        }
    }
    Ok(list)
}
