//! Parts of JSON values, taken out of them: what was read of a part can be kept while the part itself is given back.

ghost use Rattle.std.specs.Prelude.{◌≡◌, None, option_map, ok_or};
ghost use Rattle.serde_json.specs.Find.{get, as_array};
ghost use Rattle.serde_json.specs.View.{view, items_view};
ghost use Rattle.json_paths.specs.Faults.{Gives};
ghost use Rattle.json_paths.specs.Reading.{here, at_member};
ghost use Rattle.json_paths.specs.Taking.{without, KeepsOthers};

use crate::fault::Failure;
use crate::members::{fault_at, fault_here};
use serde_json::Value;
use std::alloc::Global;

/// Takes a member out of an object. The others stay, and so does a value that is no object.
pub fn take_member(value: &mut Value, key: &str) -> Option<Value>
    ensures taken { option_map view result ≡ get key.now (view value.old) }
    ensures left { view value.new ≡ without key.now (view value.old) }
    ensures gone { get key.now (view value.new) ≡ None }
    ensures others { KeepsOthers key.now (view value.old) (view value.new) }
{
    match value.take() {
        Value::Object(members) => {
            let mut members = members;
            let member = members.remove(key);
            *value = Value::Object(members);
            member
        }
        other => {
            *value = other;
            None
        }
    }
}

/// A required member, which was taken out of its object.
pub fn found(alloc: Global, key: &str, member: Option<Value>) -> Result<Value, Failure>
    ensures { Gives view result (ok_or (option_map view member) (at_member key.now)) }
{
    match member {
        Some(member) => Ok(member),
        None => Err(fault_at(alloc, key)),
    }
}

/// The items of an array.
pub fn take_items(alloc: Global, value: Value) -> Result<Vec<Value>, Failure>
    ensures { Gives (λ v. items_view v.items) result (ok_or (as_array (view value)) here) }
{
    match value {
        Value::Array(items) => Ok(items),
        _ => Err(fault_here(alloc)),
    }
}
