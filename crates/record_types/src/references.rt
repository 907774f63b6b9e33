//! References to named types.

ghost use Rattle.std.specs.Prelude.{◌≡◌, option_map, option_copied};
ghost use Rattle.serde_json.specs.View.{view};
ghost use Rattle.json_paths.specs.Faults.{Gives};
ghost use Rattle.record_types.specs.Scopes.{names_in};
ghost use Rattle.record_types.specs.References.{table_at, interface_at, owner_of, reference_of};

use crate::known::{Scope, TypeFacts};
use comp_lists::{Keyed, Text};
use json_paths::{Failure, fault_at, fault_here, pair_items, read_text, under};
use record_values::{InterfaceName, Owner, TypeName};
use serde_json::Value;
use std::alloc::Global;

/// The named types of the interface at an index.
fn table_at<'s>(scope: &'s Scope<'_>, index: u32) -> Option<&'s Keyed<Text, TypeFacts>>
    ensures { option_map (λ t. t.now) result ≡ table_at (names_in scope.now) index }
{
    match scope.done.get(index as usize) {
        Some(interface) => Some(&interface.known),
        None => {
            if index as usize == scope.done.len() && !scope.is_world {
                Some(scope.current)
            } else {
                None
            }
        }
    }
}

fn read_interface_at<'s>(
    alloc: Global,
    scope: &'s Scope<'_>,
    index: u32,
) -> Result<(Owner, &'s Keyed<Text, TypeFacts>), Failure>
    ensures { Gives (λ p. (p.0, p.1.now)) result (interface_at (names_in scope.now) index) }
{
    match table_at(scope, index) {
        Some(table) => Ok((Owner::Interface(InterfaceName::Unused(index)), table)),
        None => Err(fault_here(alloc)),
    }
}

/// The owner of the types that a reference names, and these types.
#[tactic(auto, unfolding(crate::specs::References::owner_of))]
fn read_owner<'s>(
    alloc: Global,
    scope: &'s Scope<'_>,
    value: &Value,
) -> Result<(Owner, &'s Keyed<Text, TypeFacts>), Failure>
    ensures { Gives (λ p. (p.0, p.1.now)) result (owner_of (names_in scope.now) (view value.now)) }
{
    if value.is_null() {
        if scope.is_world {
            return Ok((Owner::World, scope.current));
        }
        return Err(fault_here(alloc));
    }
    let Some(index) = value.as_u64() else {
        return Err(fault_here(alloc));
    };
    if index < 1 << 32 {
        return read_interface_at(alloc, scope, index as u32);
    }
    Err(fault_here(alloc))
}

/// A named type: an array of the index of its interface, or null for the world, and its name.
#[tactic(auto, unfolding(crate::specs::References::reference_of))]
pub(crate) fn read_reference(
    alloc: Global,
    scope: &Scope<'_>,
    value: &Value,
) -> Result<(TypeName, TypeFacts), Failure>
    ensures { Gives (λ r. r) result (reference_of (names_in scope.now) (view value.now)) }
{
    let Some((index, name)) = pair_items(value) else {
        return Err(fault_here(alloc));
    };
    let (owner, table) = under(alloc, "0", read_owner(alloc, scope, index))?;
    let name = under(alloc, "1", read_text(alloc, name))?;
    match table.get(&name) {
        Some(facts) => Ok((TypeName { owner, name }, *facts)),
        None => Err(fault_at(alloc, "1")),
    }
}
