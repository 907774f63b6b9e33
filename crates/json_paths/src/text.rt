//! The JSON value of a text.

ghost use Rattle.serde_json.specs.View.{view};
ghost use Rattle.json_paths.specs.Faults.{Gives};
ghost use Rattle.json_paths.specs.Reading.{data_of};

use crate::fault::{Failure, Refusal};
use serde_json::{Category, Value};
use std::alloc::Global;

/// The value of JSON that bytes encode (RFC 8259). Of a member that occurs twice, the last counts. The
/// refusal is `Json`, also of bytes that are not UTF-8.
pub fn read_value(alloc: Global, bytes: &[u8]) -> Result<Value, Failure>
    ensures { Gives view result (data_of bytes.now) }
{
    match Value::from_slice(alloc, bytes) {
        Ok(value) => Ok(value),
        Err(e) => match e.classify() {
            Category::Memory => Err(Failure::Memory),
            _ => Err(Failure::Refused(Refusal::Json)),
        },
    }
}
