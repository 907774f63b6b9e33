//! The values that roles of core imports take.

ghost use Rattle.std.specs.Prelude.{◌≡◌};
ghost use Rattle.serde_json.specs.View.{view};
ghost use Rattle.json_paths.specs.Faults.{Gives};
ghost use Rattle.record_import_roles.specs.Values.{flag_of, address_of, sort_of};

use core_types::ValType;
use json_paths::{Failure, fault_here, read_number, read_text};
use serde_json::Value;
use standard_kinds::ExportKind;
use std::alloc::Global;

/// Whether a role is asynchronous.
#[tactic(auto, unfolding(crate::specs::Values::flag_of))]
pub(crate) fn read_flag(alloc: Global, value: &Value) -> Result<bool, Failure>
    ensures { Gives (λ b. b) result (flag_of (view value.now)) }
{
    let number = read_number(alloc, 2, value)?;
    Ok(number == 1)
}

/// The type of an address.
#[tactic(auto, unfolding(crate::specs::Values::address_of))]
pub(crate) fn read_address(alloc: Global, value: &Value) -> Result<ValType, Failure>
    ensures { Gives (λ t. t) result (address_of (view value.now)) }
{
    let text = read_text(alloc, value)?;
    match text.as_str() {
        "i32" => Ok(ValType::I32),
        "i64" => Ok(ValType::I64),
        _ => Err(fault_here(alloc)),
    }
}

/// The sort of a core export.
#[tactic(auto, unfolding(crate::specs::Values::sort_of))]
pub(crate) fn read_sort(alloc: Global, value: &Value) -> Result<ExportKind, Failure>
    ensures { Gives (λ k. k) result (sort_of (view value.now)) }
{
    let text = read_text(alloc, value)?;
    match text.as_str() {
        "func" => Ok(ExportKind::Func),
        "table" => Ok(ExportKind::Table),
        "memory" => Ok(ExportKind::Memory),
        "global" => Ok(ExportKind::Global),
        _ => Err(fault_here(alloc)),
    }
}
