//! Functions.

ghost use Rattle.std.specs.Prelude.{◌≡◌};
ghost use Rattle.serde_json.specs.Find.{get};
ghost use Rattle.serde_json.specs.View.{view, items_view};
ghost use Rattle.std.specs.Prelude.{codes};
ghost use Rattle.json_paths.specs.Faults.{Gives};
ghost use Rattle.record_types.specs.Scopes.{names_in};
ghost use Rattle.record_types.specs.Functions.{param_of, params_of, params_if, result_of, result_if, is_constructor, async_of, function_of};

use crate::known::Scope;
use crate::types::read_nodes;
use comp_lists::Seq;
use json_paths::{
    Failure, bool_member, check_members, fault_at, fault_here, pair_items, read_text, text_member,
    under, under_index,
};
use record_values::{Func, Node, Typed};
use serde_json::Value;
use std::alloc::Global;

/// A parameter.
#[tactic(auto, unfolding(crate::specs::Functions::param_of))]
fn read_param(alloc: Global, scope: &Scope<'_>, value: &Value) -> Result<Typed, Failure>
    ensures { Gives (λ x. x) result (param_of (names_in scope.now) (view value.now)) }
{
    let Some((name, ty)) = pair_items(value) else {
        return Err(fault_here(alloc));
    };
    let name = under(alloc, "0", read_text(alloc, name))?;
    let nodes = under(alloc, "1", read_nodes(alloc, scope, ty))?;
    Ok(Typed { name, nodes })
}

#[tactic(auto, unfolding(crate::specs::Functions::params_of))]
fn read_params(alloc: Global, scope: &Scope<'_>, value: &Value) -> Result<Seq<Typed>, Failure>
    ensures { Gives (λ x. x) result (params_of (names_in scope.now) (view value.now)) }
{
    let Some(values) = value.as_array() else {
        return Err(fault_here(alloc));
    };
    let mut params = Seq::new(alloc);
    for (index, value) in values.iter().enumerate() {
        let param = under_index(alloc, index, read_param(alloc, scope, value))?;
        params.push(param)?;
    }
    Ok(params)
}

/// The parameters, none where they are left out.
fn params_member(alloc: Global, scope: &Scope<'_>, value: &Value) -> Result<Seq<Typed>, Failure>
    ensures { Gives (λ x. x) result
        (params_if (names_in scope.now) (get (codes "params") (view value.now))) }
{
    match value.get("params") {
        None => Ok(Seq::new(alloc)),
        Some(member) => under(alloc, "params", read_params(alloc, scope, member)),
    }
}

/// A type, or null.
fn read_result(
    alloc: Global,
    scope: &Scope<'_>,
    value: &Value,
) -> Result<Option<Seq<Node>>, Failure>
    ensures { Gives (λ x. x) result (result_of (names_in scope.now) (view value.now)) }
{
    if value.is_null() {
        return Ok(None);
    }
    let nodes = read_nodes(alloc, scope, value)?;
    Ok(Some(nodes))
}

/// The result, if any.
fn result_member(
    alloc: Global,
    scope: &Scope<'_>,
    value: &Value,
) -> Result<Option<Seq<Node>>, Failure>
    ensures { Gives (λ x. x) result
        (result_if (names_in scope.now) (get (codes "result") (view value.now))) }
{
    match value.get("result") {
        None => Ok(None),
        Some(member) => under(alloc, "result", read_result(alloc, scope, member)),
    }
}

fn is_constructor(name: &str) -> bool
    ensures { result ≡ is_constructor name.now }
{
    name.as_bytes().starts_with(b"[constructor]")
}

/// Whether the function is asynchronous, which a constructor isn't.
#[tactic(auto, unfolding(crate::specs::Functions::async_of))]
fn async_member(alloc: Global, name: &str, value: &Value) -> Result<bool, Failure>
    ensures { Gives (λ x. x) result (async_of name.now (view value.now)) }
{
    let is_async = bool_member(alloc, value, "async")?;
    if is_async && is_constructor(name) {
        return Err(fault_at(alloc, "async"));
    }
    Ok(is_async)
}

/// A function.
#[tactic(auto, unfolding(crate::specs::Functions::function_of))]
pub fn read_function(alloc: Global, scope: &Scope<'_>, value: &Value) -> Result<Func, Failure>
    ensures { Gives (λ f. f) result (function_of (names_in scope.now) (view value.now)) }
{
    check_members(alloc, value, &["name", "params", "result", "async"])?;
    let name = text_member(alloc, value, "name")?;
    let params = params_member(alloc, scope, value)?;
    let result = result_member(alloc, scope, value)?;
    let is_async = async_member(alloc, name.as_str(), value)?;
    Ok(Func {
        name,
        is_async,
        params,
        result,
    })
}
