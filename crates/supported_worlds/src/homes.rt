//! Where the types of a resolve are at home: in one exported interface, in any, or in none.
//!
//! The table is made once for a world, from the first type on, since types name earlier types
//! alone. Whether an exported interface is made of types that are at home in it is then one look-up
//! a type that it names.

ghost use Rattle.std.specs.Prelude.{◌≡◌, ◌<◌, ◌&&◌, Some, is_some, length, IfOk};
ghost use Rattle.std.specs.List.{list_all};
ghost use Rattle.wit_data.specs.Parts.{parts, RefersBack};
ghost use Rattle.wit_data.specs.Values.{kind_at};
ghost use Rattle.comp_worlds.specs.Encodable.{is_lent};
ghost use Rattle.supported_worlds.specs.Homes.{fits, home_at, is_at_home, is_unowned, AreJoined, IsOwnedHome, IsUnownedHome, IsOwnHome, IsHomeOfParts, IsNextHome, AreHomes};
ghost use Rattle.supported_worlds.specs.Lent.{lends};

use crate::lent::{Lent, lends, lent_interfaces};
use crate::resources::is_resource;
use std::alloc::{AllocError, Global};
use wit_data::{InterfaceId, Type, TypeDef, TypeOwner, World, part_count_of, part_of};

/// Which exported interfaces may be made of a type.
#[derive(Clone, Copy)]
pub(crate) enum Home {
    /// Any: the type is one of values that has no name and belongs to no interface, or it has a
    /// name and belongs to an interface that is imported or exported.
    Anywhere,
    /// This one, to which the type belongs, or a part of it.
    Interface(InterfaceId),
    /// None: a type of the world, a resource without a name, or a type with parts of two such interfaces.
    Nowhere,
}

/// Whether an interface may be made of types of this home.
pub(crate) fn fits(here: InterfaceId, home: Home) -> bool
    ensures { result ≡ fits here home }
{
    match home {
        Home::Anywhere => true,
        Home::Interface(id) => here.index == id.index,
        Home::Nowhere => false,
    }
}

/// The home of two types together.
#[tactic(auto, using(crate::proofs::AtHome::with_anywhere, crate::proofs::AtHome::with_nowhere, crate::proofs::AtHome::both_nowhere, crate::proofs::AtHome::both_anywhere, crate::proofs::AtHome::one_interface, crate::proofs::AtHome::two_interfaces))]
fn joined(one: Home, other: Home) -> Home
    ensures { AreJoined one other result }
{
    match (one, other) {
        (Home::Anywhere, _) => other,
        (Home::Nowhere, _) => Home::Nowhere,
        (Home::Interface(_), Home::Anywhere) => one,
        (Home::Interface(_), Home::Nowhere) => Home::Nowhere,
        (Home::Interface(a), Home::Interface(b)) => {
            if a.index == b.index {
                one
            } else {
                Home::Nowhere
            }
        }
    }
}

/// The home of a part of a type, by those of all earlier types.
#[tactic(auto, using(crate::proofs::AtHome::some_home, crate::proofs::AtHome::no_home))]
fn home_at(homes: &[Home], part: Option<Type>) -> Home
    ensures { result ≡ home_at homes.now part }
{
    match part {
        None => Home::Anywhere,
        Some(Type::Primitive(_)) => Home::Anywhere,
        Some(Type::Id(id)) => match homes.get(id.index) {
            Some(home) => *home,
            None => Home::Anywhere,
        },
    }
}

/// Whether these types are at home in an interface.
pub(crate) fn are_at_home(homes: &[Home], here: InterfaceId, types: &[Type]) -> bool
    ensures { result ≡ list_all (λ t. is_at_home homes.now here (Some t)) types.now }
{
    for ty in types {
        if !fits(here, home_at(homes, Some(*ty))) {
            return false;
        }
    }
    true
}

/// The home of all parts of the type with an index.
#[tactic(auto, using(crate::proofs::AtHome::parts_start, crate::proofs::AtHome::parts_step, crate::proofs::AtHome::parts_end))]
fn home_of_parts(types: &[TypeDef], homes: &[Home], id: usize) -> Home
    requires back { RefersBack types.now }
    requires present { id < length types.now }
    ensures { IsHomeOfParts homes.now (parts (kind_at types.now id)) result }
{
    let mut all = Home::Anywhere;
    for n in 0..part_count_of(types, id) {
        let home = home_at(homes, part_of(types, id, n));
        all = joined(all, home);
    }
    all
}

/// Whether other interfaces may use a type that belongs to this one.
fn is_lent_type(lent: &Lent, id: InterfaceId, def: &TypeDef) -> bool
    ensures { result ≡ (lends lent.now id && is_some def.now.name) }
{
    lends(lent, id) && def.name.is_some()
}

/// The home of a type that belongs to an interface.
#[tactic(auto, using(crate::proofs::AtHome::lent_type, crate::proofs::AtHome::own_type))]
fn home_of_owned(lent: &Lent, id: InterfaceId, def: &TypeDef) -> Home
    ensures { IsOwnedHome (lends lent.now id) id def.now result }
{
    if is_lent_type(lent, id, def) {
        Home::Anywhere
    } else {
        Home::Interface(id)
    }
}

/// Whether any interface may be made of a type that belongs to none: it has no name and is no resource.
fn is_unowned(def: &TypeDef) -> bool
    ensures { result ≡ is_unowned def.now }
{
    def.name.is_none() && !is_resource(def)
}

/// The home of a type that belongs to no interface.
#[tactic(auto, using(crate::proofs::AtHome::unowned))]
fn home_of_unowned(def: &TypeDef) -> Home
    ensures { IsUnownedHome def.now result }
{
    if is_unowned(def) {
        Home::Anywhere
    } else {
        Home::Nowhere
    }
}

/// The home of a type, whatever its parts are.
#[tactic(auto, using(crate::proofs::AtHome::of_interface, crate::proofs::AtHome::of_none))]
fn own_home(lent: &Lent, def: &TypeDef) -> Home
    ensures { IsOwnHome (lends lent.now) def.now result }
{
    match def.owner {
        TypeOwner::Interface(id) => home_of_owned(lent, id, def),
        TypeOwner::World(_) => home_of_unowned(def),
        TypeOwner::None => home_of_unowned(def),
    }
}

/// The home of the type with an index, by those of all earlier types.
#[tactic(auto, using(crate::proofs::AtHome::next_home_is))]
fn next_home(types: &[TypeDef], lent: &Lent, homes: &[Home], id: usize) -> Home
    requires back { RefersBack types.now }
    requires present { id < length types.now }
    ensures { IsNextHome types.now (lends lent.now) homes.now id result }
{
    let own = own_home(lent, &types[id]);
    let parts = home_of_parts(types, homes, id);
    let home = joined(own, parts);
    home
}

/// The homes of all types, where the types of some interfaces may be used.
#[tactic(auto, using(crate::proofs::AtHome::homes_start, crate::proofs::AtHome::homes_step, crate::proofs::AtHome::homes_end))]
fn homes_by(alloc: Global, types: &[TypeDef], lent: &Lent) -> Result<Vec<Home>, AllocError>
    requires { RefersBack types.now }
    ensures { IfOk result (λ homes. AreHomes types.now (lends lent.now) homes.items) }
{
    let mut homes = Vec::new(alloc);
    for n in 0..types.len() {
        let home = next_home(types, lent, homes.as_slice(), n);
        homes.push(home)?;
    }
    Ok(homes)
}

/// The homes of all types, for the exported interfaces of a world. The time is linear in the number
/// of the types and of their parts, and of the world's imports and exports.
#[tactic(auto, using(crate::proofs::AtHome::in_world))]
pub(crate) fn type_homes(
    alloc: Global,
    types: &[TypeDef],
    world: &World,
) -> Result<Vec<Home>, AllocError>
    requires { RefersBack types.now }
    ensures { IfOk result (λ homes. AreHomes types.now (is_lent world.now) homes.items) }
{
    let lent = lent_interfaces(alloc, world)?;
    let homes = homes_by(alloc, types, &lent)?;
    Ok(homes)
}
