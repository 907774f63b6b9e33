//! A record: what a section that describes a component says of one module, as JSON.

ghost use Rattle.std.specs.Prelude.{◌≡◌, codes, option_map};
ghost use Rattle.serde_json.specs.Find.{get};
ghost use Rattle.serde_json.specs.View.{view};
ghost use Rattle.json_paths.specs.Faults.{Gives};
ghost use Rattle.records.specs.Records.{version_of, encoding_if, only_known, with_world, with_parts, record_of, record_in};
ghost use Rattle.records.specs.Equalities.{same_interface};
ghost use Rattle.record_worlds.specs.Worlds.{world_of};

use comp_lists::{Seq, Text};
use json_paths::{Failure, bool_member, check_members, fault_at, read_value, take_member, under};
use record_export_roles::read_core_exports;
use record_import_roles::read_core_imports;
use record_sides::{RecordWorld, read_encoding};
use record_values::{Assigned, ExportRole, ImportName, ImportRole, Record};
use record_worlds::read_world;
use serde_json::Value;
use standard_kinds::StringEncoding;
use std::alloc::Global;

/// An object that has only known members.
#[tactic(auto, unfolding(crate::specs::Records::only_known))]
fn check_known(alloc: Global, value: &Value) -> Result<(), Failure>
    ensures { Gives (λ x. x) result (only_known (view value.now)) }
{
    check_members(
        alloc,
        value,
        &[
            "version",
            "encoding",
            "context-slot-1",
            "interfaces",
            "imports",
            "exports",
            "core-imports",
            "core-exports",
        ],
    )
}

fn check_version(alloc: Global, value: &Value) -> Result<(), Failure>
    ensures { Gives (λ x. x) result (version_of (view value.now)) }
{
    match value.get("version").and_then(Value::as_u64) {
        Some(1) => Ok(()),
        _ => Err(fault_at(alloc, "version")),
    }
}

fn encoding_member(alloc: Global, value: &Value) -> Result<StringEncoding, Failure>
    ensures { Gives (λ e. e) result (encoding_if (get (codes "encoding") (view value.now))) }
{
    match value.get("encoding") {
        None => Ok(StringEncoding::UTF8),
        Some(member) => under(alloc, "encoding", read_encoding(alloc, member)),
    }
}

/// A record of this world, with these roles.
fn with_roles(
    world: RecordWorld,
    encoding: StringEncoding,
    context_slot_1: bool,
    import_roles: Seq<Assigned<ImportName, ImportRole>>,
    export_roles: Seq<Assigned<Text, ExportRole>>,
) -> Record
    ensures { result
        ≡ record {
          wit = world.wit;
          encoding = encoding;
          context_slot_1 = context_slot_1;
          import_roles = import_roles;
          export_roles = export_roles;
        } }
{
    Record {
        wit: world.into_wit(),
        encoding,
        context_slot_1,
        import_roles,
        export_roles,
    }
}

/// What a record says, after its world was read.
#[tactic(auto, unfolding(crate::specs::Records::with_world))]
fn add_world(
    alloc: Global,
    encoding: StringEncoding,
    context_slot_1: bool,
    core_imports: Option<Value>,
    core_exports: Option<Value>,
    world: RecordWorld,
) -> Result<Record, Failure>
    ensures { Gives (λ r. r) result (with_world encoding context_slot_1
        (option_map view core_imports) (option_map view core_exports) world) }
{
    let import_roles = read_core_imports(alloc, &world, core_imports)?;
    let export_roles = read_core_exports(alloc, &world, core_exports)?;
    Ok(with_roles(world, encoding, context_slot_1, import_roles, export_roles))
}

/// The world of a record, and its other long members.
#[derive(Drop)]
struct Parts {
    core_imports: Option<Value>,
    core_exports: Option<Value>,
    world: Value,
}

/// Takes the roles out of a record, so that its world can be given back before they are read.
fn parts_of(value: Value) -> Parts
    ensures imports { option_map view result.core_imports
        ≡ get (codes "core-imports") (view value) }
    ensures exports { option_map view result.core_exports
        ≡ get (codes "core-exports") (view value) }
    ensures world { world_of same_interface (view result.world)
        ≡ world_of same_interface (view value) }
{
    let mut value = value;
    let core_imports = take_member(&mut value, "core-imports");
    let core_exports = take_member(&mut value, "core-exports");
    Parts {
        core_imports,
        core_exports,
        world: value,
    }
}

/// What the long members of a record say.
fn read_parts(
    alloc: Global,
    encoding: StringEncoding,
    context_slot_1: bool,
    parts: Parts,
) -> Result<Record, Failure>
    ensures { Gives (λ r. r) result (with_parts encoding context_slot_1
        (option_map view parts.core_imports) (option_map view parts.core_exports)
        (world_of same_interface (view parts.world))) }
{
    let Parts {
        core_imports,
        core_exports,
        world,
    } = parts;
    let world = read_world(alloc, world)?;
    add_world(
        alloc,
        encoding,
        context_slot_1,
        core_imports,
        core_exports,
        world,
    )
}

#[tactic(auto, unfolding(crate::specs::Records::record_of))]
fn record_of(alloc: Global, value: Value) -> Result<Record, Failure>
    ensures { Gives (λ r. r) result (record_of (view value)) }
{
    check_known(alloc, &value)?;
    check_version(alloc, &value)?;
    let encoding = encoding_member(alloc, &value)?;
    let context_slot_1 = bool_member(alloc, &value, "context-slot-1")?;
    read_parts(alloc, encoding, context_slot_1, parts_of(value))
}

/// The record of a text of JSON.
#[tactic(auto, unfolding(crate::specs::Records::record_in))]
pub fn read_record(alloc: Global, bytes: &[u8]) -> Result<Record, Failure>
    ensures { Gives (λ r. r) result (record_in bytes.now) }
{
    let value = read_value(alloc, bytes)?;
    record_of(alloc, value)
}
