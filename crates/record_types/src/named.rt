//! Named types.

ghost use Rattle.std.specs.Prelude.{◌≡◌, true, Some};
ghost use Rattle.serde_json.specs.View.{view};
ghost use Rattle.serde_json.specs.Find.{as_bool};
ghost use Rattle.json_paths.specs.Faults.{Gives};
ghost use Rattle.record_types.specs.Scopes.{names_in};
ghost use Rattle.record_types.specs.Named.{value_facts, primitive_name, other_name, resource_by, new_type, meaning_of, new_name, named_type_of};

use crate::known::{Scope, Size, TypeFacts};
use crate::primitives::primitive;
use crate::references::read_reference;
use crate::sizes::{above, simple};
use crate::types::read_type;
use comp_lists::{Keyed, Seq, Text};
use json_paths::{Failure, check_members, fault_here, only_member, read_text, required, under};
use record_values::{Node, Typed};
use serde_json::Value;
use std::alloc::Global;

/// What is known of a type that is no resource.
fn value_facts(size: Size) -> TypeFacts
    ensures { result ≡ value_facts size }
{
    TypeFacts {
        size,
        is_resource: false,
        ends_at_resource: false,
    }
}

/// Another name for a primitive type.
#[tactic(auto, unfolding(crate::specs::Named::primitive_name))]
fn read_primitive_name(alloc: Global, name: &str) -> Result<(Seq<Node>, TypeFacts), Failure>
    ensures { Gives (λ x. x) result (primitive_name name.now) }
{
    let Some(primitive) = primitive(name) else {
        return Err(fault_here(alloc));
    };
    let size = above(alloc, simple())?;
    let mut nodes = Seq::new(alloc);
    nodes.push(Node::Primitive(primitive))?;
    Ok((nodes, value_facts(size)))
}

/// Another name for a named type.
#[tactic(auto, unfolding(crate::specs::Named::other_name))]
fn read_other_name(
    alloc: Global,
    scope: &Scope<'_>,
    value: &Value,
) -> Result<(Seq<Node>, TypeFacts), Failure>
    ensures { Gives (λ x. x) result (other_name (names_in scope.now) (view value.now)) }
{
    let (named, facts) = read_reference(alloc, scope, value)?;
    let size = above(alloc, facts.size)?;
    let mut nodes = Seq::new(alloc);
    nodes.push(Node::Named(named))?;
    Ok((
        nodes,
        TypeFacts {
            size,
            is_resource: false,
            ends_at_resource: facts.ends_at_resource,
        },
    ))
}

fn make_resource(alloc: Global) -> Result<(Seq<Node>, TypeFacts), Failure>
    ensures { Gives (λ x. x) result (resource_by (Some true)) }
{
    let mut nodes = Seq::new(alloc);
    nodes.push(Node::Resource)?;
    Ok((
        nodes,
        TypeFacts {
            size: simple(),
            is_resource: true,
            ends_at_resource: true,
        },
    ))
}

/// A new resource, which is written as true.
fn read_resource(alloc: Global, value: &Value) -> Result<(Seq<Node>, TypeFacts), Failure>
    ensures { Gives (λ x. x) result (resource_by (as_bool (view value.now))) }
{
    match value.as_bool() {
        Some(true) => make_resource(alloc),
        Some(false) => Err(fault_here(alloc)),
        None => Err(fault_here(alloc)),
    }
}

/// A type that isn't another name for one.
#[tactic(auto, unfolding(crate::specs::Named::new_type))]
fn read_new_type(
    alloc: Global,
    scope: &Scope<'_>,
    value: &Value,
) -> Result<(Seq<Node>, TypeFacts), Failure>
    ensures { Gives (λ x. x) result (new_type (names_in scope.now) (view value.now)) }
{
    let mut nodes = Seq::new(alloc);
    let size = read_type(alloc, 100, scope, value, &mut nodes)?;
    Ok((nodes, value_facts(size)))
}

/// The type of a name.
#[tactic(auto, unfolding(crate::specs::Named::meaning_of))]
fn read_meaning(
    alloc: Global,
    scope: &Scope<'_>,
    value: &Value,
) -> Result<(Seq<Node>, TypeFacts), Failure>
    ensures { Gives (λ x. x) result (meaning_of (names_in scope.now) (view value.now)) }
{
    if let Some(name) = value.as_str() {
        return read_primitive_name(alloc, name);
    }
    let Some((key, member)) = only_member(value) else {
        return Err(fault_here(alloc));
    };
    match key {
        "resource" => under(alloc, key, read_resource(alloc, member)),
        "ref" => under(alloc, key, read_other_name(alloc, scope, member)),
        _ => read_new_type(alloc, scope, value),
    }
}

/// A name that the table lacks.
#[tactic(auto, unfolding(crate::specs::Named::new_name))]
fn read_new_name(
    alloc: Global,
    table: &Keyed<Text, TypeFacts>,
    value: &Value,
) -> Result<Text, Failure>
    ensures { Gives (λ x. x) result (new_name table.now (view value.now)) }
{
    let name = read_text(alloc, value)?;
    if table.contains_key(&name) {
        return Err(fault_here(alloc));
    }
    Ok(name)
}

/// A named type, whose name is new, and what is known of it.
#[tactic(auto, unfolding(crate::specs::Named::named_type_of))]
pub fn read_named_type(
    alloc: Global,
    scope: &Scope<'_>,
    value: &Value,
) -> Result<(Typed, TypeFacts), Failure>
    ensures { Gives (λ x. x) result (named_type_of (names_in scope.now) (view value.now)) }
{
    check_members(alloc, value, &["name", "type"])?;
    let name = required(alloc, value, "name")?;
    let ty = required(alloc, value, "type")?;
    let name = under(alloc, "name", read_new_name(alloc, scope.current, name))?;
    let (nodes, facts) = under(alloc, "type", read_meaning(alloc, scope, ty))?;
    Ok((Typed { name, nodes }, facts))
}
