//! The roles of the exports of a core module.

ghost use Rattle.std.specs.Prelude.{◌≡◌};
ghost use Rattle.serde_json.specs.View.{view};
ghost use Rattle.json_paths.specs.Faults.{Gives};
ghost use Rattle.record_sides.specs.Named.{world_function_of, interface_function_of};
ghost use Rattle.record_sides.specs.declared.sides.Side.TheVariants as sides;
ghost use Rattle.record_export_roles.specs.ExportRoles.{function_of, world_name_of, world_post_return_of, world_callback_of, interface_name_of, interface_post_return_of, interface_callback_of, destructor_of, plain_of, export_role_of_kind, some_export_role, export_role_of};

use crate::kinds::{ExportRoleKind, export_kind};
use comp_lists::Text;
use json_paths::{Failure, fault_at, under};
use record_sides::{
    Called, Named, Owners, RecordWorld, Side, no_argument, one_argument, read_interface_function,
    read_kind, read_name, read_named, read_resource, read_world_function,
};
use record_values::{ExportRole, Owner, PlainExport};
use serde_json::Value;
use std::alloc::Global;

fn read_world_func(alloc: Global, world: &RecordWorld, value: &Value) -> Result<ExportRole, Failure>
    ensures { Gives (λ r. r) result
        (function_of (world_function_of world.now sides.Export (view value.now))) }
{
    let Called { owner, name, abi } = read_world_function(alloc, world, Side::Export, value)?;
    Ok(ExportRole::Function { owner, name, abi })
}

fn read_interface_func(
    alloc: Global,
    world: &RecordWorld,
    value: &Value,
) -> Result<ExportRole, Failure>
    ensures { Gives (λ r. r) result
        (function_of (interface_function_of world.now sides.Export (view value.now))) }
{
    let Called { owner, name, abi } = read_interface_function(alloc, world, Side::Export, value)?;
    Ok(ExportRole::Function { owner, name, abi })
}

/// The name of a function of the world.
#[tactic(auto, unfolding(crate::specs::ExportRoles::world_name_of))]
fn read_world_name(alloc: Global, world: &RecordWorld, value: &Value) -> Result<Text, Failure>
    ensures { Gives (λ n. n) result (world_name_of world.now (view value.now)) }
{
    let name = one_argument(alloc, value)?;
    let name = read_name(alloc, world, Side::Export, Named::Function, None, name);
    under(alloc, "1", name)
}

fn read_world_post_return(
    alloc: Global,
    world: &RecordWorld,
    value: &Value,
) -> Result<ExportRole, Failure>
    ensures { Gives (λ r. r) result (world_post_return_of world.now (view value.now)) }
{
    let function = read_world_name(alloc, world, value)?;
    let owner = Owner::World;
    Ok(ExportRole::PostReturn { owner, function })
}

fn read_world_callback(
    alloc: Global,
    world: &RecordWorld,
    value: &Value,
) -> Result<ExportRole, Failure>
    ensures { Gives (λ r. r) result (world_callback_of world.now (view value.now)) }
{
    let function = read_world_name(alloc, world, value)?;
    let owner = Owner::World;
    Ok(ExportRole::Callback { owner, function })
}

/// The owner and the name of a function of an interface.
fn read_interface_name(
    alloc: Global,
    world: &RecordWorld,
    value: &Value,
) -> Result<(Owner, Text), Failure>
    ensures { Gives (λ n. n) result (interface_name_of world.now (view value.now)) }
{
    read_named(
        alloc,
        world,
        Side::Export,
        Owners::Interfaces,
        Named::Function,
        value,
    )
}

fn read_interface_post_return(
    alloc: Global,
    world: &RecordWorld,
    value: &Value,
) -> Result<ExportRole, Failure>
    ensures { Gives (λ r. r) result (interface_post_return_of world.now (view value.now)) }
{
    let (owner, function) = read_interface_name(alloc, world, value)?;
    Ok(ExportRole::PostReturn { owner, function })
}

fn read_interface_callback(
    alloc: Global,
    world: &RecordWorld,
    value: &Value,
) -> Result<ExportRole, Failure>
    ensures { Gives (λ r. r) result (interface_callback_of world.now (view value.now)) }
{
    let (owner, function) = read_interface_name(alloc, world, value)?;
    Ok(ExportRole::Callback { owner, function })
}

fn read_destructor(alloc: Global, world: &RecordWorld, value: &Value) -> Result<ExportRole, Failure>
    ensures { Gives (λ r. r) result (destructor_of world.now (view value.now)) }
{
    let named = read_resource(alloc, world, Side::Export, Owners::Interfaces, value)?;
    Ok(ExportRole::Destructor(named))
}

fn read_plain(alloc: Global, export: PlainExport, value: &Value) -> Result<ExportRole, Failure>
    ensures { Gives (λ r. r) result (plain_of export (view value.now)) }
{
    no_argument(alloc, value)?;
    Ok(ExportRole::Plain(export))
}

fn read_export_kind(
    alloc: Global,
    world: &RecordWorld,
    value: &Value,
    kind: ExportRoleKind,
) -> Result<ExportRole, Failure>
    ensures { Gives (λ r. r) result (export_role_of_kind world.now (view value.now) kind) }
{
    match kind {
        ExportRoleKind::WorldFunc => read_world_func(alloc, world, value),
        ExportRoleKind::InterfaceFunc => read_interface_func(alloc, world, value),
        ExportRoleKind::WorldPostReturn => read_world_post_return(alloc, world, value),
        ExportRoleKind::WorldCallback => read_world_callback(alloc, world, value),
        ExportRoleKind::InterfacePostReturn => read_interface_post_return(alloc, world, value),
        ExportRoleKind::InterfaceCallback => read_interface_callback(alloc, world, value),
        ExportRoleKind::Destructor => read_destructor(alloc, world, value),
        ExportRoleKind::Plain(export) => read_plain(alloc, export, value),
    }
}

/// The role of a core export.
#[tactic(auto, unfolding(crate::specs::ExportRoles::export_role_of))]
pub(crate) fn read_export_role(
    alloc: Global,
    world: &RecordWorld,
    value: &Value,
) -> Result<ExportRole, Failure>
    ensures { Gives (λ r. r) result (export_role_of world.now (view value.now)) }
{
    let name = read_kind(alloc, value)?;
    match export_kind(name.as_str()) {
        Some(kind) => read_export_kind(alloc, world, value, kind),
        None => Err(fault_at(alloc, "0")),
    }
}
