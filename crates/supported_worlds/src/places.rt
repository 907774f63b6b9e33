//! The places of imported interfaces and of types: how many imports come before that of an interface.
//!
//! Both tables are made once for a world: that of the interfaces from the first import on, and that
//! of the types from the first type on, since types name earlier types alone.

ghost use Rattle.std.specs.Prelude.{◌≡◌, ◌<◌, length, map, IfOk};
ghost use Rattle.wit_data.specs.Parts.{parts, RefersBack};
ghost use Rattle.wit_data.specs.Sizes.{greatest};
ghost use Rattle.wit_data.specs.Values.{kind_at};
ghost use Rattle.world_values.specs.Mentions.{interface_in};
ghost use Rattle.supported_worlds.specs.Placed.{place_at};
ghost use Rattle.supported_worlds.specs.PlaceTables.{is_fresh, with_place, AreApartPlaces, place_by, place_of_type, next_place, IsInterfaceTable, HasTypePlaces, HasAllPlaces};

use comp_lists::{Keyed, Seq};
use std::alloc::{AllocError, Global};
use wit_data::{
    InterfaceId, Type, TypeDef, TypeOwner, WorldItem, WorldKey, part_count_of, part_of,
};

/// The places of the interfaces that a world imports.
pub(crate) struct InterfacePlaces {
    pub by_id: Keyed<InterfaceId, usize>,
    /// The place of the root: how many imports there are.
    pub root: usize,
    /// The place of an interface that is not imported.
    pub behind: usize,
}

impl Drop for InterfacePlaces {
    fn drop(self) {
        let InterfacePlaces {
            by_id: _,
            root: _,
            behind: _,
        } = self;
    }
}

/// The places of the interfaces that a world imports, and of all types of its resolve.
pub(crate) struct Places {
    pub interfaces: InterfacePlaces,
    pub types: Seq<usize>,
}

impl Drop for Places {
    fn drop(self) {
        let Places {
            interfaces: _,
            types: _,
        } = self;
    }
}

// ---- interfaces

fn interface_in(item: &WorldItem) -> Option<InterfaceId>
    ensures { result ≡ interface_in item.now }
{
    match item {
        WorldItem::Interface(id) => Some(*id),
        WorldItem::Function(_) | WorldItem::NamedType(_) => None,
    }
}

/// For each import, the interface that it is, if it is one.
fn interfaces_among(
    alloc: Global,
    imports: &Keyed<WorldKey, WorldItem>,
) -> Result<Vec<Option<InterfaceId>>, AllocError>
    ensures { IfOk result (λ line. line.items ≡ map (λ e. interface_in e.1) imports.now) }
{
    let mut line = Vec::new(alloc);
    for (_, item) in imports.iter() {
        line.push(interface_in(item))?;
    }
    Ok(line)
}

/// Puts an interface at a place, unless it has one. Whether it had none.
fn put_place(
    places: &mut Keyed<InterfaceId, usize>,
    interface: Option<InterfaceId>,
    place: usize,
) -> Result<bool, AllocError>
    ensures fresh { IfOk result (λ fresh. fresh ≡ is_fresh places.old interface) }
    ensures put { IfOk result (λ fresh. places.new ≡ with_place places.old interface place) }
{
    match interface {
        Some(id) => {
            let fresh = !places.contains_key(&id);
            places.insert_if_absent(id, place)?;
            Ok(fresh)
        }
        None => Ok(true),
    }
}

/// The places of these interfaces, unless one occurs twice.
#[tactic(auto, using(crate::proofs::InterfacePlaces::places_start, crate::proofs::InterfacePlaces::places_step, crate::proofs::InterfacePlaces::places_twice, crate::proofs::InterfacePlaces::places_end))]
fn places_by_id(
    alloc: Global,
    line: &[Option<InterfaceId>],
) -> Result<Option<Keyed<InterfaceId, usize>>, AllocError>
    ensures { IfOk result (IsInterfaceTable line.now) }
{
    let mut places = Keyed::new(alloc);
    for n in 0..line.len() {
        if !put_place(&mut places, line[n], n)? {
            return Ok(None);
        }
    }
    Ok(Some(places))
}

/// The places of the interfaces among the imports, unless one occurs twice.
#[tactic(auto, using(crate::proofs::InterfacePlaces::not_apart, crate::proofs::InterfacePlaces::all_apart))]
pub(crate) fn interface_places(
    alloc: Global,
    imports: &Keyed<WorldKey, WorldItem>,
) -> Result<Option<InterfacePlaces>, AllocError>
    ensures { IfOk result (AreApartPlaces imports.now) }
{
    let line = interfaces_among(alloc, imports)?;
    match places_by_id(alloc, line.as_slice())? {
        Some(by_id) => Ok(Some(InterfacePlaces {
            by_id,
            root: line.len(),
            behind: line.len() + 1,
        })),
        None => Ok(None),
    }
}

/// The place of an interface.
pub(crate) fn place_of_interface(interfaces: &InterfacePlaces, id: InterfaceId) -> usize
    ensures { result ≡ place_by interfaces.now id }
{
    interfaces
        .by_id
        .get(&id)
        .copied()
        .unwrap_or(interfaces.behind)
}

// ---- types

/// The place of a part of a type, by those of all earlier types.
#[tactic(auto, using(crate::proofs::TypePlaces::some_place, crate::proofs::TypePlaces::no_place))]
pub(crate) fn place_at(places: &[usize], part: Option<Type>) -> usize
    ensures { result ≡ place_at places.now part }
{
    match part {
        None => 0,
        Some(Type::Primitive(_)) => 0,
        Some(Type::Id(id)) => match places.get(id.index) {
            Some(place) => *place,
            None => 0,
        },
    }
}

/// The last place of the parts of the type with an index.
#[tactic(auto, using(crate::proofs::TypePlaces::greatest_start, crate::proofs::TypePlaces::greatest_step, crate::proofs::TypePlaces::greatest_end))]
fn last_place(types: &[TypeDef], places: &[usize], id: usize) -> usize
    requires back { RefersBack types.now }
    requires present { id < length types.now }
    ensures { result ≡ greatest (map (place_at places.now) (parts (kind_at types.now id))) }
{
    let mut last: usize = 0;
    for n in 0..part_count_of(types, id) {
        let place = place_at(places, part_of(types, id, n));
        last = last.max(place);
    }
    last
}

/// The place of a type, by the last place of its parts.
fn place_of_type(def: &TypeDef, interfaces: &InterfacePlaces, last: usize) -> usize
    ensures { result ≡ place_of_type def.now interfaces.now last }
{
    match (def.owner, &def.name) {
        (TypeOwner::Interface(id), _) => place_of_interface(interfaces, id),
        (_, Some(_)) => interfaces.root,
        (_, None) => last,
    }
}

/// The place of the type with an index, by those of all earlier types.
#[tactic(auto, using(crate::proofs::TypePlaces::type_there))]
fn next_place(types: &[TypeDef], interfaces: &InterfacePlaces, places: &[usize], id: usize) -> usize
    requires back { RefersBack types.now }
    requires present { id < length types.now }
    ensures { result ≡ next_place types.now interfaces.now places.now id }
{
    let last = last_place(types, places, id);
    let place = place_of_type(&types[id], interfaces, last);
    place
}

/// The places of all types. The time is linear in the number of the types and of their parts.
#[tactic(auto, using(crate::proofs::TypePlaces::places_start, crate::proofs::TypePlaces::places_step, crate::proofs::TypePlaces::places_end))]
fn type_places(
    alloc: Global,
    types: &[TypeDef],
    interfaces: &InterfacePlaces,
) -> Result<Vec<usize>, AllocError>
    requires { RefersBack types.now }
    ensures { IfOk result (λ places. HasTypePlaces types.now interfaces.now places.items) }
{
    let mut places = Vec::new(alloc);
    for n in 0..types.len() {
        let place = next_place(types, interfaces, places.as_slice(), n);
        places.push(place)?;
    }
    Ok(places)
}

/// The places of these interfaces, and of all types.
#[tactic(auto, using(crate::proofs::TypePlaces::all_places))]
pub(crate) fn with_types(
    alloc: Global,
    types: &[TypeDef],
    interfaces: InterfacePlaces,
) -> Result<Places, AllocError>
    requires { RefersBack types.now }
    ensures { IfOk result (HasAllPlaces types.now interfaces) }
{
    let types = Seq::from_vec(type_places(alloc, types, &interfaces)?);
    Ok(Places { interfaces, types })
}
