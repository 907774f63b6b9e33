//! The arguments of a role, which follow its kind.

ghost use Rattle.std.specs.Prelude.{◌≡◌, option_map, option_and_then};
ghost use Rattle.serde_json.specs.Find.{as_array};
ghost use Rattle.serde_json.specs.View.{view};
ghost use Rattle.json_paths.specs.Faults.{Gives};
ghost use Rattle.record_sides.specs.Arguments.{none_of, one_of, two_of, three_of, first_of, kind_of, no_argument, one_argument, two_arguments, three_arguments, encoding_of, import_abi_of, export_abi_of, abi_of};

use crate::sides::Side;
use comp_lists::Text;
use json_paths::{Failure, fault_here, read_text, under};
use serde_json::Value;
use standard_kinds::StringEncoding;
use std::alloc::Global;
use wit_data::AbiVariant;

#[tactic(auto, using(crate::proofs::Lengths::few_for_none, crate::proofs::Lengths::many_for_none))]
fn only_kind(value: &Value) -> Option<&Value>
    ensures { option_map (λ v. view v.now) result
        ≡ option_and_then none_of (as_array (view value.now)) }
{
    match value.as_array()?.as_slice() {
        [kind] => Some(kind),
        _ => None,
    }
}

#[tactic(auto, using(crate::proofs::Lengths::few_for_one, crate::proofs::Lengths::many_for_one))]
fn one(value: &Value) -> Option<&Value>
    ensures { option_map (λ v. view v.now) result
        ≡ option_and_then one_of (as_array (view value.now)) }
{
    match value.as_array()?.as_slice() {
        [_, first] => Some(first),
        _ => None,
    }
}

#[tactic(auto, using(crate::proofs::Lengths::few_for_two, crate::proofs::Lengths::many_for_two))]
fn two(value: &Value) -> Option<(&Value, &Value)>
    ensures { option_map (λ v. (view v.0.now, view v.1.now)) result
        ≡ option_and_then two_of (as_array (view value.now)) }
{
    match value.as_array()?.as_slice() {
        [_, first, second] => Some((first, second)),
        _ => None,
    }
}

#[tactic(auto, using(crate::proofs::Lengths::few_for_three, crate::proofs::Lengths::many_for_three))]
fn three(value: &Value) -> Option<(&Value, &Value, &Value)>
    ensures { option_map (λ v. (view v.0.now, view v.1.now, view v.2.now)) result
        ≡ option_and_then three_of (as_array (view value.now)) }
{
    match value.as_array()?.as_slice() {
        [_, first, second, third] => Some((first, second, third)),
        _ => None,
    }
}

fn first(value: &Value) -> Option<&Value>
    ensures { option_map (λ v. view v.now) result
        ≡ option_and_then first_of (as_array (view value.now)) }
{
    match value.as_array()?.as_slice() {
        [] => None,
        [first, ..] => Some(first),
    }
}

/// The name of the kind of a role, which is its first item.
#[tactic(auto, unfolding(crate::specs::Arguments::kind_of))]
pub fn read_kind(alloc: Global, value: &Value) -> Result<Text, Failure>
    ensures { Gives (λ n. n) result (kind_of (view value.now)) }
{
    match first(value) {
        Some(kind) => under(alloc, "0", read_text(alloc, kind)),
        None => Err(fault_here(alloc)),
    }
}

/// The kind of a role without arguments.
#[tactic(auto, unfolding(crate::specs::Arguments::no_argument))]
pub fn no_argument(alloc: Global, value: &Value) -> Result<&Value, Failure>
    ensures { Gives (λ v. view v.now) result (no_argument (view value.now)) }
{
    only_kind(value).ok_or(fault_here(alloc))
}

/// The one argument of a role.
#[tactic(auto, unfolding(crate::specs::Arguments::one_argument))]
pub fn one_argument(alloc: Global, value: &Value) -> Result<&Value, Failure>
    ensures { Gives (λ v. view v.now) result (one_argument (view value.now)) }
{
    one(value).ok_or(fault_here(alloc))
}

/// The two arguments of a role.
#[tactic(auto, unfolding(crate::specs::Arguments::two_arguments))]
pub fn two_arguments(alloc: Global, value: &Value) -> Result<(&Value, &Value), Failure>
    ensures { Gives (λ v. (view v.0.now, view v.1.now)) result (two_arguments (view value.now)) }
{
    two(value).ok_or(fault_here(alloc))
}

#[tactic(auto, unfolding(crate::specs::Arguments::three_arguments))]
pub(crate) fn three_arguments(
    alloc: Global,
    value: &Value,
) -> Result<(&Value, &Value, &Value), Failure>
    ensures { Gives (λ v. (view v.0.now, view v.1.now, view v.2.now)) result
        (three_arguments (view value.now)) }
{
    three(value).ok_or(fault_here(alloc))
}

/// A string encoding, by its name.
#[tactic(auto, unfolding(crate::specs::Arguments::encoding_of))]
pub fn read_encoding(alloc: Global, value: &Value) -> Result<StringEncoding, Failure>
    ensures { Gives (λ e. e) result (encoding_of (view value.now)) }
{
    let text = read_text(alloc, value)?;
    match text.as_str() {
        "utf8" => Ok(StringEncoding::UTF8),
        "utf16" => Ok(StringEncoding::UTF16),
        "compact" => Ok(StringEncoding::CompactUTF16),
        _ => Err(fault_here(alloc)),
    }
}

/// How an imported function is called.
#[tactic(auto, unfolding(crate::specs::Arguments::import_abi_of))]
fn read_import_abi(alloc: Global, value: &Value) -> Result<AbiVariant, Failure>
    ensures { Gives (λ a. a) result (import_abi_of (view value.now)) }
{
    let text = read_text(alloc, value)?;
    match text.as_str() {
        "sync" => Ok(AbiVariant::GuestImport),
        "async" => Ok(AbiVariant::GuestImportAsync),
        _ => Err(fault_here(alloc)),
    }
}

/// How an exported function is called.
#[tactic(auto, unfolding(crate::specs::Arguments::export_abi_of))]
fn read_export_abi(alloc: Global, value: &Value) -> Result<AbiVariant, Failure>
    ensures { Gives (λ a. a) result (export_abi_of (view value.now)) }
{
    let text = read_text(alloc, value)?;
    match text.as_str() {
        "sync" => Ok(AbiVariant::GuestExport),
        "async" => Ok(AbiVariant::GuestExportAsync),
        "stackful" => Ok(AbiVariant::GuestExportAsyncStackful),
        _ => Err(fault_here(alloc)),
    }
}

/// How a function of a side is called.
pub(crate) fn read_abi(alloc: Global, side: Side, value: &Value) -> Result<AbiVariant, Failure>
    ensures { Gives (λ a. a) result (abi_of side (view value.now)) }
{
    match side {
        Side::Import => read_import_abi(alloc, value),
        Side::Export => read_export_abi(alloc, value),
    }
}
