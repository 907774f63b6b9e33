//! Interfaces.

ghost use Rattle.std.specs.Prelude.{◌≡◌, OnOk, codes, ok_or, option_map};
ghost use Rattle.serde_json.specs.View.{view};
ghost use Rattle.json_paths.specs.Faults.{Gives};
ghost use Rattle.json_paths.specs.Reading.{at_member, required};
ghost use Rattle.record_types.specs.Scopes.{names_in};
ghost use Rattle.record_types.specs.Named.{named_type_of};
ghost use Rattle.record_types.specs.Interfaces.{inside, Becomes, with_known, with_name, next_type, next_function, types_of, new_function, functions_of, members_of, interface_of, interfaces_of};

use crate::functions::read_function;
use crate::ids::read_id;
use crate::known::{ReadInterface, Scope, TypeFacts};
use crate::named::read_named_type;
use comp_lists::{Keyed, Seq, Text};
use json_paths::{
    Failure, check_members, fault_at, found, take_items, take_member, under, under_index,
};
use record_values::{Func, Typed};
use serde_json::Value;
use std::alloc::{AllocError, Global};

/// The next type of an interface with these types so far.
fn read_next_type(
    alloc: Global,
    done: &[ReadInterface],
    known: &Keyed<Text, TypeFacts>,
    value: &Value,
) -> Result<(Typed, TypeFacts), Failure>
    ensures { Gives (λ x. x) result (named_type_of (inside done.now known.now) (view value.now)) }
{
    let scope = Scope {
        done,
        current: known,
        is_world: false,
    };
    read_named_type(alloc, &scope, value)
}

/// Adds a name and what is known of it.
#[tactic(auto, unfolding(crate::specs::Interfaces::with_known))]
fn add_known(
    alloc: Global,
    known: &mut Keyed<Text, TypeFacts>,
    name: &Text,
    facts: TypeFacts,
) -> Result<(), AllocError>
    ensures { OnOk result (known.new ≡ with_known known.old name.now facts) }
{
    known.insert_if_absent(name.clone(alloc)?, facts)?;
    Ok(())
}

/// Adds a name to those so far.
#[tactic(auto, unfolding(crate::specs::Interfaces::with_name))]
fn add_name(alloc: Global, seen: &mut Keyed<Text, ()>, name: &Text) -> Result<(), AllocError>
    ensures { OnOk result (seen.new ≡ with_name seen.old name.now) }
{
    seen.insert_if_absent(name.clone(alloc)?, ())?;
    Ok(())
}

/// The type at an index, after these.
#[tactic(auto, unfolding(crate::specs::Interfaces::next_type))]
fn push_type(
    alloc: Global,
    done: &[ReadInterface],
    index: usize,
    value: &Value,
    types: &mut Seq<Typed>,
    known: &mut Keyed<Text, TypeFacts>,
) -> Result<(), Failure>
    ensures { Becomes result (types.new, known.new)
        (next_type done.now index (view value.now) (types.old, known.old)) }
{
    let next = read_next_type(alloc, done, known, value);
    let (typed, facts) = under_index(alloc, index, next)?;
    add_known(alloc, known, &typed.name, facts)?;
    types.push(typed)?;
    Ok(())
}

/// The types of an interface, and what is known of them.
#[tactic(auto, unfolding(crate::specs::Interfaces::types_of))]
fn read_types(
    alloc: Global,
    done: &[ReadInterface],
    value: Value,
) -> Result<(Seq<Typed>, Keyed<Text, TypeFacts>), Failure>
    ensures { Gives (λ x. x) result (types_of done.now (view value)) }
{
    let values = take_items(alloc, value)?;
    let mut types = Seq::new(alloc);
    let mut known = Keyed::new(alloc);
    for (index, value) in values.into_iter().enumerate() {
        push_type(alloc, done, index, &value, &mut types, &mut known)?;
    }
    Ok((types, known))
}

/// A function whose name is none of these.
#[tactic(auto, unfolding(crate::specs::Interfaces::new_function))]
fn read_new_function(
    alloc: Global,
    scope: &Scope<'_>,
    seen: &Keyed<Text, ()>,
    value: &Value,
) -> Result<Func, Failure>
    ensures { Gives (λ x. x) result (new_function (names_in scope.now) seen.now (view value.now)) }
{
    let function = read_function(alloc, scope, value)?;
    if seen.contains_key(&function.name) {
        return Err(fault_at(alloc, "name"));
    }
    Ok(function)
}

/// The function at an index, after these.
#[tactic(auto, unfolding(crate::specs::Interfaces::next_function))]
fn push_function(
    alloc: Global,
    scope: &Scope<'_>,
    index: usize,
    value: &Value,
    functions: &mut Seq<Func>,
    seen: &mut Keyed<Text, ()>,
) -> Result<(), Failure>
    ensures { Becomes result (functions.new, seen.new)
        (next_function (names_in scope.now) index (view value.now) (functions.old, seen.old)) }
{
    let next = read_new_function(alloc, scope, seen, value);
    let function = under_index(alloc, index, next)?;
    add_name(alloc, seen, &function.name)?;
    functions.push(function)?;
    Ok(())
}

#[tactic(auto, unfolding(crate::specs::Interfaces::functions_of))]
fn read_functions(alloc: Global, scope: &Scope<'_>, value: Value) -> Result<Seq<Func>, Failure>
    ensures { Gives (λ x. x) result (functions_of (names_in scope.now) (view value)) }
{
    let values = take_items(alloc, value)?;
    let mut functions = Seq::new(alloc);
    let mut seen = Keyed::new(alloc);
    for (index, value) in values.into_iter().enumerate() {
        push_function(alloc, scope, index, &value, &mut functions, &mut seen)?;
    }
    Ok(functions)
}

/// The functions of an interface with these types.
fn read_inside(
    alloc: Global,
    done: &[ReadInterface],
    known: &Keyed<Text, TypeFacts>,
    value: Value,
) -> Result<Seq<Func>, Failure>
    ensures { Gives (λ x. x) result (functions_of (inside done.now known.now) (view value)) }
{
    let scope = Scope {
        done,
        current: known,
        is_world: false,
    };
    read_functions(alloc, &scope, value)
}

/// The id, the types and the functions of an interface, as far as they are there.
#[derive(Drop)]
struct Members {
    id: Option<Value>,
    types: Option<Value>,
    functions: Option<Value>,
}

/// Takes the members out of an interface.
fn take_members(value: Value) -> Members
    ensures id { ok_or (option_map view result.id) (at_member (codes "id"))
        ≡ required (codes "id") (view value) }
    ensures types { ok_or (option_map view result.types) (at_member (codes "types"))
        ≡ required (codes "types") (view value) }
    ensures functions { ok_or (option_map view result.functions) (at_member (codes "functions"))
        ≡ required (codes "functions") (view value) }
{
    let mut value = value;
    let id = take_member(&mut value, "id");
    let types = take_member(&mut value, "types");
    let functions = take_member(&mut value, "functions");
    Members {
        id,
        types,
        functions,
    }
}

/// The id, the types and the functions.
#[tactic(auto, unfolding(crate::specs::Interfaces::members_of))]
fn members_of(alloc: Global, value: Value) -> Result<(Value, Value, Value), Failure>
    ensures { Gives (λ m. (view m.0, view m.1, view m.2)) result (members_of (view value)) }
{
    check_members(alloc, &value, &["id", "types", "functions"])?;
    let Members {
        id,
        types,
        functions,
    } = take_members(value);
    let id = found(alloc, "id", id)?;
    let types = found(alloc, "types", types)?;
    let functions = found(alloc, "functions", functions)?;
    Ok((id, types, functions))
}

/// An interface after these.
#[tactic(auto, unfolding(crate::specs::Interfaces::interface_of))]
fn read_interface(
    alloc: Global,
    done: &[ReadInterface],
    value: Value,
) -> Result<ReadInterface, Failure>
    ensures { Gives (λ x. x) result (interface_of done.now (view value)) }
{
    let (id, types, functions) = members_of(alloc, value)?;
    let id = under(alloc, "id", read_id(alloc, &id))?;
    let (types, known) = under(alloc, "types", read_types(alloc, done, types))?;
    let read = read_inside(alloc, done, &known, functions);
    let functions = under(alloc, "functions", read)?;
    Ok(ReadInterface {
        id,
        types,
        functions,
        known,
    })
}

/// Interfaces, each of which may name the types of those before it. The JSON of each is given back
/// before the next is read.
#[tactic(auto, unfolding(crate::specs::Interfaces::interfaces_of))]
pub fn read_interfaces(alloc: Global, value: Value) -> Result<Seq<ReadInterface>, Failure>
    ensures { Gives (λ x. x) result (interfaces_of (view value)) }
{
    let values = take_items(alloc, value)?;
    let mut done = Seq::new(alloc);
    for (index, value) in values.into_iter().enumerate() {
        let next = read_interface(alloc, done.as_slice(), value);
        let one = under_index(alloc, index, next)?;
        done.push(one)?;
    }
    Ok(done)
}
