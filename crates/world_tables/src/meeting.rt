//! A walk through types and all of which they are made. Each type is entered once: the time is
//! linear in the number of the types that are met and of their parts.

ghost use Rattle.std.specs.Prelude.{◌≡◌, ◌<◌, nat_eq, length, Some, OnOk, IfOk, ℕ};
ghost use Rattle.std.specs.List.{AllByRecursion};
ghost use Rattle.wit_data.specs.Live.{is_live};
ghost use Rattle.wit_data.specs.Parts.{RefersBack, IsBelow};
ghost use Rattle.wit_data.specs.declared.types.Type.TheVariants.{Id};
ghost use Rattle.world_values.specs.Mentions.{owner_in, owners_from};
ghost use Rattle.world_values.specs.Tables.{with_all};
ghost use Rattle.world_tables.specs.Walking.{has, reaches, parts_reach, IsWalk, Enters};

use crate::walk::Walk;
use comp_lists::Keyed;
use std::alloc::{AllocError, Global};
use wit_data::{Type, TypeDef, TypeId, TypeOwner, part_count_of, part_of};

/// Adds the interface to which a type belongs, if it belongs to one.
fn add_owner(owners: &mut Keyed<usize, ()>, owner: TypeOwner) -> Result<(), AllocError>
    ensures { OnOk result (owners.new ≡ with_all nat_eq owners.old (owner_in owner)) }
{
    match owner {
        TypeOwner::Interface(id) => owners.insert_if_absent(id.index, ()),
        TypeOwner::World(_) | TypeOwner::None => Ok(()),
    }
}

/// Enters a part of a type and all that it reaches, if there is one.
#[cycle(meeting)]
fn meet_part(types: &[TypeDef], walk: &mut Walk, part: Option<Type>) -> Result<(), AllocError>
    requires back { RefersBack types.now }
    requires present { IsBelow (length types.now) part }
    requires right { IsWalk types.now walk.old }
    ensures right { OnOk result (IsWalk types.now walk.new) }
    ensures enters { OnOk result (Enters walk.old walk.new (reaches types.now part)) }
{
    match part {
        None => Ok(()),
        Some(Type::Primitive(_)) => Ok(()),
        Some(Type::Id(id)) => meet_type(types, walk, id),
    }
}

/// Enters the type with an index and all that it reaches, unless it was entered.
#[cycle(meeting)]
fn meet_type(types: &[TypeDef], walk: &mut Walk, id: TypeId) -> Result<(), AllocError>
    requires back { RefersBack types.now }
    requires present { id.index < length types.now }
    requires right { IsWalk types.now walk.old }
    ensures right { OnOk result (IsWalk types.now walk.new) }
    ensures enters { OnOk result (Enters walk.old walk.new (reaches types.now (Some (Id id)))) }
{
    if walk.entered.contains_key(&id.index) {
        return Ok(());
    }
    enter_type(types, walk, id)
}

/// Enters all that the type with an index reaches, and then itself.
#[cycle(meeting)]
fn enter_type(types: &[TypeDef], walk: &mut Walk, id: TypeId) -> Result<(), AllocError>
    requires back { RefersBack types.now }
    requires present { id.index < length types.now }
    requires right { IsWalk types.now walk.old }
    ensures right { OnOk result (IsWalk types.now walk.new) }
    ensures enters { OnOk result (Enters walk.old walk.new (reaches types.now (Some (Id id)))) }
{
    meet_parts(types, walk, id)?;
    add_owner(&mut walk.owners, types[id.index].owner)?;
    walk.entered.insert_if_absent(id.index, ())?;
    Ok(())
}

/// Enters the parts of the type with an index, and all that they reach.
#[cycle(meeting)]
fn meet_parts(types: &[TypeDef], walk: &mut Walk, id: TypeId) -> Result<(), AllocError>
    requires back { RefersBack types.now }
    requires present { id.index < length types.now }
    requires right { IsWalk types.now walk.old }
    ensures right { OnOk result (IsWalk types.now walk.new) }
    ensures enters { OnOk result (Enters walk.old walk.new (parts_reach types.now id.index)) }
{
    for n in 0..part_count_of(types, id.index) {
        meet_part(types, walk, part_of(types, id.index, n))?;
    }
    Ok(())
}

/// Enters types and all that they reach.
fn meet_given(types: &[TypeDef], walk: &mut Walk, given: &[Type]) -> Result<(), AllocError>
    requires back { RefersBack types.now }
    requires present { AllByRecursion (λ t. IsBelow (length types.now) (Some t)) given.now }
    requires right { IsWalk types.now walk.old }
    ensures right { OnOk result (IsWalk types.now walk.new) }
    ensures enters { OnOk result (Enters walk.old walk.new (is_live types.now given.now)) }
{
    for given_type in given {
        meet_part(types, walk, Some(*given_type))?;
    }
    Ok(())
}

/// The interfaces to which the types belong that are reached from the given ones.
pub(crate) fn owners_among(
    alloc: Global,
    types: &[TypeDef],
    given: &[Type],
) -> Result<Keyed<usize, ()>, AllocError>
    requires back { RefersBack types.now }
    requires present { AllByRecursion (λ t. IsBelow (length types.now) (Some t)) given.now }
    ensures { IfOk result
        (λ t. (n : ℕ) → has t n ≡ has (owners_from (is_live types.now given.now) 0 types.now) n) }
{
    let mut walk = Walk::new(alloc);
    meet_given(types, &mut walk, given)?;
    Ok(walk.into_owners())
}
