//! Functions and named types.

ghost use Rattle.std.specs.Prelude.{◌≡◌, map, IfOk};
ghost use Rattle.serde_json.specs.View.{view};
ghost use Rattle.record_texts.specs.Worlds.{param_data, result_data, function_data, named_type_data, typed_data};

use crate::names::Indices;
use crate::types::type_value;
use crate::values::{append, named};
use comp_lists::Seq;
use record_values::{Func, Node, Typed};
use serde_json::{Value, json};
use std::alloc::{AllocError, Global};

/// A parameter.
fn param_value(alloc: Global, indices: &Indices, param: &Typed) -> Result<Value, AllocError>
    ensures { IfOk result (λ v. view v ≡ param_data indices.now param.now) }
{
    let ty = type_value(alloc, indices, param.nodes.as_slice())?;
    named(alloc, param.name.as_str(), ty)
}

fn param_values(
    alloc: Global,
    indices: &Indices,
    params: &[Typed],
) -> Result<Vec<Value>, AllocError>
    ensures { IfOk result (λ vs. map view vs.items ≡ map (param_data indices.now) params.now) }
{
    let mut values = Vec::new(alloc);
    for param in params {
        append(&mut values, param_value(alloc, indices, param)?)?;
    }
    Ok(values)
}

fn result_value(
    alloc: Global,
    indices: &Indices,
    nodes: &Option<Seq<Node>>,
) -> Result<Value, AllocError>
    ensures { IfOk result (λ v. view v ≡ result_data indices.now nodes.now) }
{
    match nodes {
        Some(nodes) => type_value(alloc, indices, nodes.as_slice()),
        None => Ok(Value::Null),
    }
}

pub(crate) fn function_value(
    alloc: Global,
    indices: &Indices,
    function: &Func,
) -> Result<Value, AllocError>
    ensures { IfOk result (λ v. view v ≡ function_data indices.now function.now) }
{
    let params = Value::Array(param_values(alloc, indices, function.params.as_slice())?);
    let result = result_value(alloc, indices, &function.result)?;
    let name = function.name.as_str();
    let is_async = function.is_async;
    json!(in alloc; {"async": is_async, "name": name, "params": params, "result": result})
}

pub(crate) fn function_values(
    alloc: Global,
    indices: &Indices,
    functions: &[Func],
) -> Result<Vec<Value>, AllocError>
    ensures { IfOk result (λ vs. map view vs.items
        ≡ map (function_data indices.now) functions.now) }
{
    let mut values = Vec::new(alloc);
    for function in functions {
        append(&mut values, function_value(alloc, indices, function)?)?;
    }
    Ok(values)
}

/// A type that has a name.
pub(crate) fn named_type_value(
    alloc: Global,
    indices: &Indices,
    name: &str,
    nodes: &[Node],
) -> Result<Value, AllocError>
    ensures { IfOk result (λ v. view v ≡ named_type_data indices.now name.now nodes.now) }
{
    let ty = type_value(alloc, indices, nodes)?;
    json!(in alloc; {"name": name, "type": ty})
}

pub(crate) fn type_values(
    alloc: Global,
    indices: &Indices,
    types: &[Typed],
) -> Result<Vec<Value>, AllocError>
    ensures { IfOk result (λ vs. map view vs.items ≡ map (typed_data indices.now) types.now) }
{
    let mut values = Vec::new(alloc);
    for typed in types {
        let name = typed.name.as_str();
        let value = named_type_value(alloc, indices, name, typed.nodes.as_slice())?;
        append(&mut values, value)?;
    }
    Ok(values)
}
