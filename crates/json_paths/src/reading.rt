//! Values that are read from JSON.

ghost use Rattle.std.specs.Prelude.{◌≡◌};
ghost use Rattle.std.specs.Fmt.{decimal};
ghost use Rattle.serde_json.specs.View.{view};
ghost use Rattle.json_paths.specs.Faults.{Gives};
ghost use Rattle.json_paths.specs.Reading.{under, list_of, list_at};

use crate::fault::Failure;
use crate::members::{fault_here, under};
use comp_lists::Seq;
use serde_json::Value;
use std::alloc::Global;

/// A type that is read from a value of JSON.
pub trait FromJson: Drop {
    ghost use Rattle.std.specs.Prelude.{Result};
    ghost use Rattle.serde_json.specs.Data.{Data};
    ghost use Rattle.json_paths.specs.declared.fault.Failure.{Failure as Fault};

    ghost of_data: { Data → Result Self Fault };

    fn from_json(alloc: Global, value: &Value) -> Result<Self, Failure>
        ensures { Gives (λ x. x) result (of_data (view value.now)) };
}

/// What was read of the item at an index.
pub fn under_index<T>(alloc: Global, index: usize, read: Result<T, Failure>) -> Result<T, Failure>
    ensures { Gives (λ x. x) result (under (decimal index) read) }
{
    match read {
        Ok(x) => Ok(x),
        Err(failure) => {
            let part = format!(in alloc; "{index}")?;
            under(alloc, part.as_str(), Err(failure))
        }
    }
}

/// The items of an array.
#[tactic(auto, unfolding(crate::specs::Reading::list_of))]
pub fn read_list<T: FromJson>(alloc: Global, value: &Value) -> Result<Seq<T>, Failure>
    ensures { Gives (λ x. x) result (list_of T.of_data (view value.now)) }
{
    let Some(values) = value.as_array() else {
        return Err(fault_here(alloc));
    };
    let mut items = Seq::new(alloc);
    for (index, value) in values.iter().enumerate() {
        let item = under_index(alloc, index, T::from_json(alloc, value))?;
        items.push(item)?;
    }
    Ok(items)
}

/// An array that may be left out, and is empty then.
pub fn list_member<T: FromJson>(alloc: Global, value: &Value, key: &str) -> Result<Seq<T>, Failure>
    ensures { Gives (λ t. t) result (list_at T.of_data key.now (view value.now)) }
{
    match value.get(key) {
        None => Ok(Seq::new(alloc)),
        Some(member) => under(alloc, key, read_list(alloc, member)),
    }
}
