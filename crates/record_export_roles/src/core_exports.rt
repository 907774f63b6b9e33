//! The roles of all core exports.

ghost use Rattle.std.specs.Prelude.{◌≡◌, option_map};
ghost use Rattle.std.specs.Fmt.{decimal};
ghost use Rattle.serde_json.specs.View.{view, items_view};
ghost use Rattle.json_paths.specs.Faults.{Gives};
ghost use Rattle.json_paths.specs.Reading.{under, items_from};
ghost use Rattle.record_export_roles.specs.CoreExports.{export_role_at, core_export_of, core_exports_of, core_exports_if};

use crate::export_roles::read_export_role;
use comp_lists::{Seq, Text};
use json_paths::{Failure, check_members, fault_here, required, text_member, under, under_index};
use record_sides::RecordWorld;
use record_values::{Assigned, ExportRole};
use serde_json::Value;
use std::alloc::Global;

fn export_role_member(
    alloc: Global,
    world: &RecordWorld,
    value: &Value,
) -> Result<ExportRole, Failure>
    ensures { Gives (λ r. r) result (export_role_at world.now (view value.now)) }
{
    let member = required(alloc, value, "role")?;
    under(alloc, "role", read_export_role(alloc, world, member))
}

#[tactic(auto, unfolding(crate::specs::CoreExports::core_export_of))]
fn read_core_export(
    alloc: Global,
    world: &RecordWorld,
    value: &Value,
) -> Result<Assigned<Text, ExportRole>, Failure>
    ensures { Gives (λ a. a) result (core_export_of world.now (view value.now)) }
{
    check_members(alloc, value, &["field", "role"])?;
    let key = text_member(alloc, value, "field")?;
    let role = export_role_member(alloc, world, value)?;
    Ok(Assigned { key, role })
}

/// The core export at an index.
fn export_at(
    alloc: Global,
    world: &RecordWorld,
    index: usize,
    value: &Value,
) -> Result<Assigned<Text, ExportRole>, Failure>
    ensures { Gives (λ a. a) result
        (under (decimal index) (core_export_of world.now (view value.now))) }
{
    let export = read_core_export(alloc, world, value);
    under_index(alloc, index, export)
}

/// The roles of these core exports; a refusal has the export's index in its path.
fn read_exports(
    alloc: Global,
    world: &RecordWorld,
    values: &[Value],
) -> Result<Seq<Assigned<Text, ExportRole>>, Failure>
    ensures { Gives (λ x. x) result
        (items_from (core_export_of world.now) 0 (items_view values.now)) }
{
    let mut items = Seq::new(alloc);
    for (index, value) in values.iter().enumerate() {
        let item = export_at(alloc, world, index, value)?;
        items.push(item)?;
    }
    Ok(items)
}

#[tactic(auto, unfolding(crate::specs::CoreExports::core_exports_of))]
fn read_array(
    alloc: Global,
    world: &RecordWorld,
    value: &Value,
) -> Result<Seq<Assigned<Text, ExportRole>>, Failure>
    ensures { Gives (λ x. x) result (core_exports_of world.now (view value.now)) }
{
    match value.as_array() {
        Some(values) => read_exports(alloc, world, values),
        None => Err(fault_here(alloc)),
    }
}

/// The role of each core export, from the member `core-exports` of a record of this world, if it is there.
pub fn read_core_exports(
    alloc: Global,
    world: &RecordWorld,
    member: Option<Value>,
) -> Result<Seq<Assigned<Text, ExportRole>>, Failure>
    ensures { Gives (λ x. x) result (core_exports_if world.now (option_map view member)) }
{
    match member {
        None => Ok(Seq::new(alloc)),
        Some(member) => under(alloc, "core-exports", read_array(alloc, world, &member)),
    }
}
