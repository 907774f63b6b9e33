//! What a role names: an owner, and a function or a resource that it has.

ghost use Rattle.std.specs.Prelude.{◌≡◌, is_some, IfOk};
ghost use Rattle.serde_json.specs.View.{view};
ghost use Rattle.json_paths.specs.Faults.{Gives};
ghost use Rattle.record_sides.specs.Sides.{function_at};
ghost use Rattle.record_sides.specs.Named.{interface_of, some_interface, owner_of, owner_among, has_name, name_of, named_of, resource_of, world_function_of, interface_function_of};

use crate::arguments::{read_abi, three_arguments, two_arguments};
use crate::indexed::RecordWorld;
use crate::sides::{Side, function_at, is_present, owner_at, resource_at};
use comp_lists::Text;
use json_paths::{Failure, fault_here, read_number, read_text, under};
use record_values::{Owner, TypeName};
use serde_json::Value;
use std::alloc::{AllocError, Global};
use wit_data::AbiVariant;

/// The owners that a role may name.
#[derive(Clone, Copy, PartialEq, Eq)]
pub enum Owners {
    /// Interfaces, by their indices.
    Interfaces,
    /// Interfaces, and the world itself.
    All,
}

/// What an owner has by a name.
#[derive(Clone, Copy, PartialEq, Eq)]
pub enum Named {
    Function,
    Resource,
}

/// A function, and how it is called.
#[derive(Drop)]
pub struct Called {
    pub owner: Owner,
    pub name: Text,
    pub abi: AbiVariant,
}

/// The index of an interface that a side has.
#[tactic(auto, unfolding(crate::specs::Named::interface_of))]
fn read_interface(
    alloc: Global,
    world: &RecordWorld,
    side: Side,
    value: &Value,
) -> Result<usize, Failure>
    ensures { Gives (λ i. i) result (interface_of world.now side (view value.now)) }
{
    let index = read_number(alloc, 1 << 32, value)? as usize;
    if is_present(world, side, index) {
        Ok(index)
    } else {
        Err(fault_here(alloc))
    }
}

fn read_some_interface(
    alloc: Global,
    world: &RecordWorld,
    side: Side,
    value: &Value,
) -> Result<Option<usize>, Failure>
    ensures { Gives (λ o. o) result (some_interface world.now side (view value.now)) }
{
    let index = read_interface(alloc, world, side, value)?;
    Ok(Some(index))
}

/// The index of an interface that a side has, or none for the world itself.
#[tactic(auto, unfolding(crate::specs::Named::owner_of))]
pub fn read_owner(
    alloc: Global,
    world: &RecordWorld,
    side: Side,
    value: &Value,
) -> Result<Option<usize>, Failure>
    ensures { Gives (λ o. o) result (owner_of world.now side (view value.now)) }
{
    if value.is_null() {
        return Ok(None);
    }
    read_some_interface(alloc, world, side, value)
}

fn read_owner_among(
    alloc: Global,
    world: &RecordWorld,
    side: Side,
    among: Owners,
    value: &Value,
) -> Result<Option<usize>, Failure>
    ensures { Gives (λ o. o) result (owner_among among world.now side (view value.now)) }
{
    match among {
        Owners::Interfaces => read_some_interface(alloc, world, side, value),
        Owners::All => read_owner(alloc, world, side, value),
    }
}

fn has_function(
    alloc: Global,
    world: &RecordWorld,
    side: Side,
    index: Option<usize>,
    name: &Text,
) -> Result<bool, AllocError>
    ensures { IfOk result (λ b. b ≡ is_some (function_at world.now side index name.now)) }
{
    let function = function_at(alloc, world, side, index, name)?;
    Ok(function.is_some())
}

/// Whether the owner at an index has this by a name.
fn has_name(
    alloc: Global,
    world: &RecordWorld,
    side: Side,
    what: Named,
    index: Option<usize>,
    name: &Text,
) -> Result<bool, AllocError>
    ensures { IfOk result (λ b. b ≡ has_name world.now side what index name.now) }
{
    match what {
        Named::Function => has_function(alloc, world, side, index, name),
        Named::Resource => resource_at(alloc, world, side, index, name),
    }
}

/// The name of a function or a resource that the owner at an index has.
#[tactic(auto, unfolding(crate::specs::Named::name_of))]
pub fn read_name(
    alloc: Global,
    world: &RecordWorld,
    side: Side,
    what: Named,
    index: Option<usize>,
    value: &Value,
) -> Result<Text, Failure>
    ensures { Gives (λ n. n) result (name_of world.now side what index (view value.now)) }
{
    let name = read_text(alloc, value)?;
    if has_name(alloc, world, side, what, index, &name)? {
        Ok(name)
    } else {
        Err(fault_here(alloc))
    }
}

/// The two arguments of a role that names a function or a resource: its owner, and its name there.
#[tactic(auto, unfolding(crate::specs::Named::named_of))]
pub fn read_named(
    alloc: Global,
    world: &RecordWorld,
    side: Side,
    among: Owners,
    what: Named,
    value: &Value,
) -> Result<(Owner, Text), Failure>
    ensures { Gives (λ n. n) result (named_of world.now side among what (view value.now)) }
{
    let (owner, name) = two_arguments(alloc, value)?;
    let owner = read_owner_among(alloc, world, side, among, owner);
    let index = under(alloc, "1", owner)?;
    let name = read_name(alloc, world, side, what, index, name);
    let name = under(alloc, "2", name)?;
    let owner = owner_at(alloc, world, index)?;
    Ok((owner, name))
}

/// The two arguments of a role that names a resource: its owner, and its name there.
pub fn read_resource(
    alloc: Global,
    world: &RecordWorld,
    side: Side,
    among: Owners,
    value: &Value,
) -> Result<TypeName, Failure>
    ensures { Gives (λ t. t) result (resource_of world.now side among (view value.now)) }
{
    let (owner, name) = read_named(alloc, world, side, among, Named::Resource, value)?;
    Ok(TypeName { owner, name })
}

/// The two arguments of a role that calls a function of the world itself: its name, and how it is called.
#[tactic(auto, unfolding(crate::specs::Named::world_function_of))]
pub fn read_world_function(
    alloc: Global,
    world: &RecordWorld,
    side: Side,
    value: &Value,
) -> Result<Called, Failure>
    ensures { Gives (λ f. f) result (world_function_of world.now side (view value.now)) }
{
    let (name, abi) = two_arguments(alloc, value)?;
    let name = read_name(alloc, world, side, Named::Function, None, name);
    let name = under(alloc, "1", name)?;
    let abi = under(alloc, "2", read_abi(alloc, side, abi))?;
    let owner = Owner::World;
    Ok(Called { owner, name, abi })
}

/// The three arguments of a role that calls a function of an interface: the interface, the function's name,
/// and how it is called.
#[tactic(auto, unfolding(crate::specs::Named::interface_function_of))]
pub fn read_interface_function(
    alloc: Global,
    world: &RecordWorld,
    side: Side,
    value: &Value,
) -> Result<Called, Failure>
    ensures { Gives (λ f. f) result (interface_function_of world.now side (view value.now)) }
{
    let (owner, name, abi) = three_arguments(alloc, value)?;
    let owner = read_some_interface(alloc, world, side, owner);
    let index = under(alloc, "1", owner)?;
    let name = read_name(alloc, world, side, Named::Function, index, name);
    let name = under(alloc, "2", name)?;
    let abi = under(alloc, "3", read_abi(alloc, side, abi))?;
    let owner = owner_at(alloc, world, index)?;
    Ok(Called { owner, name, abi })
}
