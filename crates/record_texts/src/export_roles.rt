//! The roles of core exports.

ghost use Rattle.std.specs.Prelude.{◌≡◌, map, IfOk};
ghost use Rattle.serde_json.specs.View.{view};
ghost use Rattle.record_texts.specs.ExportRoles.{plain_name, beside_data, export_role_data, core_export_data};

use crate::import_roles::{function_role, type_role};
use crate::names::{Indices, owner_value};
use crate::values::{alone, append, named_pair};
use comp_lists::{Keyed, Text};
use record_values::{ExportRole, Owner, PlainExport};
use serde_json::{Value, json};
use std::alloc::{AllocError, Global};

fn plain_name(export: PlainExport) -> &'static str
    ensures { result.now ≡ plain_name export }
{
    match export {
        PlainExport::Memory => "memory",
        PlainExport::Realloc => "realloc",
        PlainExport::ImportRealloc => "import-realloc",
        PlainExport::ExportRealloc => "export-realloc",
        PlainExport::AdapterRealloc => "adapter-realloc",
        PlainExport::Initialize => "initialize",
        PlainExport::TaskHook => "task-hook",
    }
}

/// What belongs to a function, of the world or of an interface.
fn beside_value(
    alloc: Global,
    indices: &Indices,
    of_world: &str,
    of_interface: &str,
    owner: &Owner,
    function: &str,
) -> Result<Value, AllocError>
    ensures { IfOk result (λ v. view v
        ≡ beside_data indices.now of_world.now of_interface.now owner.now function.now) }
{
    match owner {
        Owner::World => json!(in alloc; [of_world, function]),
        Owner::Interface(_) => {
            let function = Value::try_from_str(alloc, function)?;
            named_pair(alloc, of_interface, owner_value(indices, owner), function)
        }
    }
}

/// The role of a core export.
fn export_role_value(
    alloc: Global,
    indices: &Indices,
    role: &ExportRole,
) -> Result<Value, AllocError>
    ensures { IfOk result (λ v. view v ≡ export_role_data indices.now role.now) }
{
    match role {
        ExportRole::Function { owner, name, abi } => {
            function_role(alloc, indices, owner, name.as_str(), *abi)
        }
        ExportRole::PostReturn { owner, function } => {
            let (world, interface) = ("world-post-return", "interface-post-return");
            beside_value(alloc, indices, world, interface, owner, function.as_str())
        }
        ExportRole::Callback { owner, function } => {
            let (world, interface) = ("world-callback", "interface-callback");
            beside_value(alloc, indices, world, interface, owner, function.as_str())
        }
        ExportRole::Destructor(named) => type_role(alloc, indices, "dtor", named),
        ExportRole::Plain(export) => alone(alloc, plain_name(*export)),
    }
}

fn core_export_value(
    alloc: Global,
    indices: &Indices,
    field: &Text,
    role: &ExportRole,
) -> Result<Value, AllocError>
    ensures { IfOk result (λ v. view v ≡ core_export_data indices.now (field.now, role.now)) }
{
    let role = export_role_value(alloc, indices, role)?;
    let field = field.as_str();
    json!(in alloc; {"field": field, "role": role})
}

/// The roles of all core exports.
pub(crate) fn core_export_values(
    alloc: Global,
    indices: &Indices,
    roles: &Keyed<Text, ExportRole>,
) -> Result<Vec<Value>, AllocError>
    ensures { IfOk result (λ vs. map view vs.items
        ≡ map (core_export_data indices.now) roles.now) }
{
    let mut values = Vec::new(alloc);
    for (field, role) in roles.iter() {
        append(&mut values, core_export_value(alloc, indices, field, role)?)?;
    }
    Ok(values)
}
