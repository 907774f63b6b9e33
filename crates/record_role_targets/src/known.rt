//! Tables of the streams and futures that roles name, by function and number.
//!
//! They are made once of all roles: each function that roles name is walked through once, whatever
//! the number of its roles.

ghost use Rattle.std.specs.Prelude.{◌≡◌, IfOk};
ghost use Rattle.std.specs.Option.{option_copied, IfSome};
ghost use Rattle.wit_data.specs.Sound.{IsSound, HasFunction};
ghost use Rattle.record_role_targets.specs.Known.{function_named, types_met, type_known, AreTables, AreKnown};
ghost use Rattle.record_role_targets.specs.Walks.{FindsNumbers};

use crate::payloads::side_of;
use crate::positions::{function_at, position_of};
use crate::walks::numbers_met;
use crate::wanted::{FunctionName, Functions, Wanted, wanted_functions};
use comp_lists::Keyed;
use record_resolve::Resolved;
use record_values::{ImportName, ImportRole};
use std::alloc::{AllocError, Global};
use wit_data::{Function, TypeId};

/// Functions, each with some of its streams and futures by their numbers.
pub(crate) type Tables<'a> = Keyed<FunctionName<'a>, Keyed<u32, TypeId>>;

/// The function of this name, if the world has it.
#[tactic(auto, using(crate::proofs::Existence::function_exists))]
fn function_named<'a>(
    alloc: Global,
    resolved: &'a Resolved,
    name: &FunctionName<'_>,
) -> Result<Option<&'a Function>, AllocError>
    requires { IsSound resolved.now.resolve }
    ensures exact { IfOk result (λ f. option_copied f ≡ function_named resolved.now name.now) }
    ensures present { IfOk result (λ f. IfSome f (λ g. HasFunction resolved.now.resolve g.now)) }
{
    let side = side_of(name.imported);
    match position_of(alloc, resolved, side, name.owner, name.name)? {
        Some(position) => Ok(function_at(resolved, side, &position, name.name)),
        None => Ok(None),
    }
}

/// The streams and futures that are wanted of a function.
fn table_of(
    alloc: Global,
    resolved: &Resolved,
    name: &FunctionName<'_>,
    wanted: &Wanted,
) -> Result<Keyed<u32, TypeId>, AllocError>
    requires { IsSound resolved.now.resolve }
    ensures { IfOk result (FindsNumbers (types_met resolved.now name.now) wanted.now) }
{
    match function_named(alloc, resolved, name)? {
        Some(function) => numbers_met(alloc, &resolved.resolve, function, wanted),
        None => Ok(Keyed::new(alloc)),
    }
}

/// The table of each function.
fn tables_of<'a>(
    alloc: Global,
    resolved: &Resolved,
    functions: &Functions<'a>,
) -> Result<Tables<'a>, AllocError>
    requires { IsSound resolved.now.resolve }
    ensures { IfOk result (AreTables resolved.now functions.now) }
{
    let mut tables = Keyed::new(alloc);
    for (name, wanted) in functions.iter() {
        let table = table_of(alloc, resolved, name, wanted)?;
        tables.insert(name.copied(), table)?;
    }
    Ok(tables)
}

/// The streams and futures that these roles name.
pub(crate) fn known_types<'a>(
    alloc: Global,
    resolved: &Resolved,
    roles: &'a Keyed<ImportName, ImportRole>,
) -> Result<Tables<'a>, AllocError>
    requires { IsSound resolved.now.resolve }
    ensures { IfOk result (λ t. AreKnown resolved.now t roles.now) }
{
    let functions = wanted_functions(alloc, roles)?;
    let tables = tables_of(alloc, resolved, &functions)?;
    Ok(tables)
}

/// What the tables have under a function and a number.
pub(crate) fn type_known(
    tables: &Tables<'_>,
    name: &FunctionName<'_>,
    number: u32,
) -> Option<TypeId>
    ensures { result ≡ type_known tables.now name.now number }
{
    let table = tables.get(name)?;
    table.get(&number).copied()
}
