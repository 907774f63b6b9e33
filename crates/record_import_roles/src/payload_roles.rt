//! Roles on streams and futures.

ghost use Rattle.std.specs.Prelude.{◌≡◌, ◌<◌, ◌^◌, IfOk, codes};
ghost use Rattle.serde_json.specs.View.{view};
ghost use Rattle.json_paths.specs.Faults.{Gives};
ghost use Rattle.record_import_roles.specs.ImportRoles.{kind_name, unit_of, bool_at, owner_member, function_member, index_member, met_payload, met_of, payload_of, can_be_async, sync_payload_of, async_payload_of, payload_role_of};

use crate::met_world::{FunctionName, MetWorld, side_of};
use crate::values::read_flag;
use comp_lists::Text;
use json_paths::{
    Failure, check_members, fault_at, read_bool, read_number, required, text_member, under,
};
use record_sides::{
    Named, RecordWorld, Side, one_argument, owner_at, read_name, read_owner, two_arguments,
};
use record_values::{ImportRole, Payload, PayloadKind, PayloadOperation};
use serde_json::Value;
use std::alloc::Global;

fn kind_name(kind: PayloadKind) -> &'static str
    ensures { result.now ≡ kind_name kind }
{
    match kind {
        PayloadKind::Stream => "stream",
        PayloadKind::Future => "future",
    }
}

/// A stream without values, or a future without one.
fn read_unit(alloc: Global, kind: PayloadKind, value: &Value) -> Result<Payload, Failure>
    ensures { Gives (λ p. p) result (unit_of kind (view value.now)) }
{
    check_members(alloc, value, &["unit"])?;
    let name = text_member(alloc, value, "unit")?;
    if name.as_str() == kind_name(kind) {
        Ok(Payload::Unit)
    } else {
        Err(fault_at(alloc, "unit"))
    }
}

fn imported_member(alloc: Global, value: &Value) -> Result<bool, Failure>
    ensures { Gives (λ b. b) result (bool_at (codes "imported") (view value.now)) }
{
    let member = required(alloc, value, "imported")?;
    under(alloc, "imported", read_bool(alloc, member))
}

fn owner_member(
    alloc: Global,
    world: &RecordWorld,
    side: Side,
    value: &Value,
) -> Result<Option<usize>, Failure>
    ensures { Gives (λ o. o) result (owner_member world.now side (view value.now)) }
{
    let member = required(alloc, value, "interface")?;
    under(alloc, "interface", read_owner(alloc, world, side, member))
}

fn function_member(
    alloc: Global,
    world: &RecordWorld,
    side: Side,
    owner_index: Option<usize>,
    value: &Value,
) -> Result<Text, Failure>
    ensures { Gives (λ f. f) result (function_member world.now side owner_index (view value.now)) }
{
    let member = required(alloc, value, "function")?;
    let name = read_name(alloc, world, side, Named::Function, owner_index, member);
    under(alloc, "function", name)
}

fn index_member(alloc: Global, value: &Value) -> Result<u64, Failure>
    ensures exact { Gives (λ i. i) result (index_member (view value.now)) }
    ensures below { IfOk result (λ i. i < 2 ^ 32) }
{
    let member = required(alloc, value, "index")?;
    under(alloc, "index", read_number(alloc, 1 << 32, member))
}

fn met_payload(
    alloc: Global,
    met: &mut MetWorld<'_>,
    kind: PayloadKind,
    function: FunctionName,
    index: u32,
) -> Result<Payload, Failure>
    ensures exact { Gives (λ p. p) result (met_payload met.old.world met.old.types kind
        function.imported function.owner_index function.name index) }
    ensures same { met.new ≡ met.old }
{
    if !met.is_met(alloc, kind, &function, index as usize)? {
        return Err(fault_at(alloc, "index"));
    }
    let owner = owner_at(alloc, met.world(), function.owner_index)?;
    Ok(Payload::Met {
        imported: function.imported,
        owner,
        function: function.name,
        index,
    })
}

/// A stream or a future that occurs in a function.
#[tactic(auto, unfolding(crate::specs::ImportRoles::met_of))]
fn read_met(
    alloc: Global,
    met: &mut MetWorld<'_>,
    kind: PayloadKind,
    value: &Value,
) -> Result<Payload, Failure>
    ensures exact { Gives (λ p. p) result
        (met_of met.old.world met.old.types kind (view value.now)) }
    ensures same { met.new ≡ met.old }
{
    check_members(
        alloc,
        value,
        &["imported", "interface", "function", "index"],
    )?;
    let world = met.world();
    let imported = imported_member(alloc, value)?;
    let side = side_of(imported);
    let owner_index = owner_member(alloc, world, side, value)?;
    let name = function_member(alloc, world, side, owner_index, value)?;
    let index = index_member(alloc, value)? as u32;
    let function = FunctionName {
        imported,
        owner_index,
        name,
    };
    met_payload(alloc, met, kind, function, index)
}

#[tactic(auto, unfolding(crate::specs::ImportRoles::payload_of))]
fn read_payload(
    alloc: Global,
    met: &mut MetWorld<'_>,
    kind: PayloadKind,
    value: &Value,
) -> Result<Payload, Failure>
    ensures exact { Gives (λ p. p) result
        (payload_of met.old.world met.old.types kind (view value.now)) }
    ensures same { met.new ≡ met.old }
{
    if value.get("unit").is_some() {
        read_unit(alloc, kind, value)
    } else {
        read_met(alloc, met, kind, value)
    }
}

#[tactic(auto, unfolding(crate::specs::ImportRoles::sync_payload_of))]
fn read_sync(
    alloc: Global,
    met: &mut MetWorld<'_>,
    kind: PayloadKind,
    operation: PayloadOperation,
    value: &Value,
) -> Result<ImportRole, Failure>
    ensures exact { Gives (λ r. r) result
        (sync_payload_of met.old.world met.old.types kind operation (view value.now)) }
    ensures same { met.new ≡ met.old }
{
    let argument = one_argument(alloc, value)?;
    let payload = read_payload(alloc, met, kind, argument);
    let payload = under(alloc, "1", payload)?;
    Ok(ImportRole::Payload {
        kind,
        operation,
        payload,
        is_async: false,
    })
}

#[tactic(auto, unfolding(crate::specs::ImportRoles::async_payload_of))]
fn read_async(
    alloc: Global,
    met: &mut MetWorld<'_>,
    kind: PayloadKind,
    operation: PayloadOperation,
    value: &Value,
) -> Result<ImportRole, Failure>
    ensures exact { Gives (λ r. r) result
        (async_payload_of met.old.world met.old.types kind operation (view value.now)) }
    ensures same { met.new ≡ met.old }
{
    let (payload, flag) = two_arguments(alloc, value)?;
    let payload = read_payload(alloc, met, kind, payload);
    let payload = under(alloc, "1", payload)?;
    let is_async = under(alloc, "2", read_flag(alloc, flag))?;
    Ok(ImportRole::Payload {
        kind,
        operation,
        payload,
        is_async,
    })
}

fn can_be_async(operation: PayloadOperation) -> bool
    ensures { result ≡ can_be_async operation }
{
    match operation {
        PayloadOperation::Read
        | PayloadOperation::Write
        | PayloadOperation::CancelRead
        | PayloadOperation::CancelWrite => true,
        PayloadOperation::New | PayloadOperation::DropReadable | PayloadOperation::DropWritable => {
            false
        }
    }
}

pub(crate) fn read_payload_role(
    alloc: Global,
    met: &mut MetWorld<'_>,
    kind: PayloadKind,
    operation: PayloadOperation,
    value: &Value,
) -> Result<ImportRole, Failure>
    ensures exact { Gives (λ r. r) result
        (payload_role_of met.old.world met.old.types kind operation (view value.now)) }
    ensures same { met.new ≡ met.old }
{
    if can_be_async(operation) {
        read_async(alloc, met, kind, operation, value)
    } else {
        read_sync(alloc, met, kind, operation, value)
    }
}
