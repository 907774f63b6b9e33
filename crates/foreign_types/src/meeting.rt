//! A walk through a type and all of which it is made.

ghost use Rattle.std.specs.Prelude.{◌≡◌, ◌<◌, length, true, false, Some, OnOk};
ghost use Rattle.wit_data.specs.Parts.{RefersBack, IsBelow};
ghost use Rattle.wit_data.specs.declared.types.Type.TheVariants.{Id};
ghost use Rattle.foreign_types.specs.Foreign.{is_covered, is_parts_covered};
ghost use Rattle.foreign_types.specs.Walking.{IsWalk, is_entered, Lists, Passes, PartsPass};

use crate::walk::Walk;
use std::alloc::AllocError;
use wit_data::{InterfaceId, Type, TypeDef, TypeId, part_count_of, part_of};
use wit_types::{foreign, owner_of};

/// Walks through a part of a type, if there is one.
#[cycle(meeting)]
pub(crate) fn meet_part(
    types: &[TypeDef],
    here: InterfaceId,
    walk: &mut Walk,
    part: Option<Type>,
) -> Result<(), AllocError>
    requires back { RefersBack types.now }
    requires present { IsBelow (length types.now) part }
    requires right { IsWalk types.now here walk.old }
    ensures right { OnOk result (IsWalk types.now here walk.new) }
    ensures covered { OnOk result (is_covered types.now here walk.new.listed part ≡ true) }
    ensures lists { OnOk result
        (Lists types.now walk.old.listed walk.new.listed (Passes types.now part)) }
{
    match part {
        None => Ok(()),
        Some(Type::Primitive(_)) => Ok(()),
        Some(Type::Id(id)) => meet_type(types, here, walk, id),
    }
}

/// Walks through the type with an index, unless it was entered.
#[cycle(meeting)]
pub(crate) fn meet_type(
    types: &[TypeDef],
    here: InterfaceId,
    walk: &mut Walk,
    id: TypeId,
) -> Result<(), AllocError>
    requires back { RefersBack types.now }
    requires present { id.index < length types.now }
    requires right { IsWalk types.now here walk.old }
    ensures right { OnOk result (IsWalk types.now here walk.new) }
    ensures covered { OnOk result
        (is_covered types.now here walk.new.listed (Some (Id id)) ≡ true) }
    ensures lists { OnOk result
        (Lists types.now walk.old.listed walk.new.listed (Passes types.now (Some (Id id)))) }
{
    if walk.entered.contains_key(&id) {
        return Ok(());
    }
    enter_type(types, here, walk, id)
}

/// Walks through all of which the type with an index is made; lists it then, if another interface owns it.
#[cycle(meeting)]
fn enter_type(
    types: &[TypeDef],
    here: InterfaceId,
    walk: &mut Walk,
    id: TypeId,
) -> Result<(), AllocError>
    requires back { RefersBack types.now }
    requires present { id.index < length types.now }
    requires unmet { is_entered walk.old id ≡ false }
    requires right { IsWalk types.now here walk.old }
    ensures right { OnOk result (IsWalk types.now here walk.new) }
    ensures covered { OnOk result
        (is_covered types.now here walk.new.listed (Some (Id id)) ≡ true) }
    ensures lists { OnOk result
        (Lists types.now walk.old.listed walk.new.listed (Passes types.now (Some (Id id)))) }
{
    meet_parts(types, here, walk, id)?;
    walk.entered.insert_if_absent(id, ())?;
    match foreign(Some(here), owner_of(types, id)) {
        Some(_) => {
            walk.listed.push(id)?;
            Ok(())
        }
        None => Ok(()),
    }
}

/// Walks through the parts of the type with an index.
#[cycle(meeting)]
fn meet_parts(
    types: &[TypeDef],
    here: InterfaceId,
    walk: &mut Walk,
    id: TypeId,
) -> Result<(), AllocError>
    requires back { RefersBack types.now }
    requires present { id.index < length types.now }
    requires right { IsWalk types.now here walk.old }
    ensures right { OnOk result (IsWalk types.now here walk.new) }
    ensures covered { OnOk result
        (is_parts_covered types.now here walk.new.listed id.index ≡ true) }
    ensures lists { OnOk result
        (Lists types.now walk.old.listed walk.new.listed (PartsPass types.now id.index)) }
{
    for n in 0..part_count_of(types, id.index) {
        meet_part(types, here, walk, part_of(types, id.index, n))?;
    }
    Ok(())
}
