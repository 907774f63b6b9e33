//! Members of JSON objects, with the path of the first fault.

ghost use Rattle.std.specs.Prelude.{◌≡◌, ◌≢◌, ◌<◌, ◌∷◌, ◌++◌, Ok, IfOk, map, option_map, option_and_then};
ghost use Rattle.std.specs.List.{list_any};
ghost use Rattle.std.specs.Str.{bytes_eq};
ghost use Rattle.serde_json.specs.Find.{get, as_array};
ghost use Rattle.serde_json.specs.View.{view, members_view, items_view};
ghost use Rattle.json_paths.specs.Faults.{Gives};
ghost use Rattle.json_paths.specs.Reading.{under_failure, under, here, at_member, left_out, required, text_of, only, text_at, bool_of, bool_if, number_of, single, pair_of};

use crate::fault::{Failure, Refusal};
use crate::paths::under_part;
use comp_lists::Text;
use serde_json::Value;
use std::alloc::Global;

/// A fault at the value itself.
pub fn fault_here(alloc: Global) -> Failure
    ensures { result ≡ here }
{
    Failure::Refused(Refusal::Record {
        path: Text::new(alloc),
    })
}

/// A fault at a member.
#[tactic(auto, unfolding(crate::specs::Reading::under_refusal))]
pub fn fault_at(alloc: Global, key: &str) -> Failure
    ensures { result ≢ Failure.Memory → result ≡ at_member key.now }
{
    fault_under(alloc, key, fault_here(alloc))
}

/// The fault, its path seen from the value above.
#[tactic(auto, unfolding(crate::specs::Reading::under_refusal))]
pub fn fault_under(alloc: Global, part: &str, failure: Failure) -> Failure
    ensures { result ≢ Failure.Memory → result ≡ under_failure part.now failure }
{
    match failure {
        Failure::Refused(Refusal::Record { path }) => match under_part(alloc, part, &path) {
            Ok(path) => Failure::Refused(Refusal::Record { path }),
            Err(_) => Failure::Memory,
        },
        other => other,
    }
}

/// A refusal of what isn't supported yet.
pub fn left_out(alloc: Global, what: &str) -> Failure
    ensures { result ≢ Failure.Memory → result ≡ left_out what.now }
{
    match Text::from_str(alloc, what) {
        Ok(what) => Failure::Refused(Refusal::LeftOut { what }),
        Err(_) => Failure::Memory,
    }
}

/// What was read below a part.
pub fn under<T>(alloc: Global, part: &str, read: Result<T, Failure>) -> Result<T, Failure>
    ensures { Gives (λ x. x) result (under part.now read) }
{
    match read {
        Ok(x) => Ok(x),
        Err(failure) => Err(fault_under(alloc, part, failure)),
    }
}

/// A required member.
#[tactic(auto, unfolding(crate::specs::Reading::required))]
pub fn required<'v>(alloc: Global, value: &'v Value, key: &str) -> Result<&'v Value, Failure>
    ensures { Gives (λ v. view v.now) result (required key.now (view value.now)) }
{
    match value.get(key) {
        Some(member) => Ok(member),
        None => Err(fault_at(alloc, key)),
    }
}

#[tactic(auto, unfolding(crate::specs::Reading::text_of))]
pub fn read_text(alloc: Global, value: &Value) -> Result<Text, Failure>
    ensures { Gives (λ t. t) result (text_of (view value.now)) }
{
    match value.as_str() {
        Some(text) => Ok(Text::from_str(alloc, text)?),
        None => Err(fault_here(alloc)),
    }
}

/// Whether a text is one of these.
pub fn is_one_of(key: &str, keys: &[&str]) -> bool
    ensures { result ≡ list_any (bytes_eq key.now) (map (λ k. k.now) keys.now) }
{
    for other in keys {
        if key == *other {
            return true;
        }
    }
    false
}

/// An object all of whose members have one of these names.
#[tactic(auto, unfolding(crate::specs::Reading::only))]
pub fn check_members(alloc: Global, value: &Value, keys: &[&str]) -> Result<(), Failure>
    ensures { Gives (λ x. x) result (only (map (λ k. k.now) keys.now) (view value.now)) }
{
    let Some(members) = value.as_object() else {
        return Err(fault_here(alloc));
    };
    for (key, _) in members {
        if !is_one_of(key.as_str(), keys) {
            return Err(fault_at(alloc, key.as_str()));
        }
    }
    Ok(())
}

/// A required text.
pub fn text_member(alloc: Global, value: &Value, key: &str) -> Result<Text, Failure>
    ensures { Gives (λ t. t) result (text_at key.now (view value.now)) }
{
    let member = required(alloc, value, key)?;
    under(alloc, key, read_text(alloc, member))
}

#[tactic(auto, unfolding(crate::specs::Reading::bool_of))]
pub fn read_bool(alloc: Global, value: &Value) -> Result<bool, Failure>
    ensures { Gives (λ b. b) result (bool_of (view value.now)) }
{
    value.as_bool().ok_or(fault_here(alloc))
}

/// A truth value; false where the member is left out.
pub fn bool_member(alloc: Global, value: &Value, key: &str) -> Result<bool, Failure>
    ensures { Gives (λ b. b) result (bool_if key.now (get key.now (view value.now))) }
{
    match value.get(key) {
        None => Ok(false),
        Some(member) => under(alloc, key, read_bool(alloc, member)),
    }
}

/// A whole number below a limit.
#[tactic(auto, unfolding(crate::specs::Reading::number_of))]
pub fn read_number(alloc: Global, limit: u64, value: &Value) -> Result<u64, Failure>
    ensures exact { Gives (λ n. n) result (number_of limit (view value.now)) }
    ensures below { IfOk result (λ n. n < limit) }
{
    match value.as_u64() {
        Some(number) => {
            if number < limit {
                Ok(number)
            } else {
                Err(fault_here(alloc))
            }
        }
        None => Err(fault_here(alloc)),
    }
}

/// The one member of an object that has one.
pub fn only_member(value: &Value) -> Option<(&str, &Value)>
    ensures { option_map (λ m. (m.0.now, view m.1.now)) result ≡ single (view value.now) }
{
    let members = value.as_object()?;
    let mut all = members.iter();
    match (all.next(), all.next()) {
        (Some((key, member)), None) => Some((key.as_str(), member)),
        _ => None,
    }
}

/// The items of an array of two.
#[tactic(auto, using(crate::proofs::Arrays::few_are_no_pair, crate::proofs::Arrays::many_are_no_pair))]
pub fn pair_items(value: &Value) -> Option<(&Value, &Value)>
    ensures { option_map (λ v. (view v.0.now, view v.1.now)) result
        ≡ option_and_then pair_of (as_array (view value.now)) }
{
    match value.as_array()?.as_slice() {
        [first, second] => Some((first, second)),
        _ => None,
    }
}
