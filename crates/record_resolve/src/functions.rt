//! Functions: their kinds, and the types of their parameters and results.

ghost use Rattle.std.specs.Prelude.{◌≡◌, [], IfOk};
ghost use Rattle.json_paths.specs.Faults.{Gives};
ghost use Rattle.record_resolve.specs.Steps.{Becomes, Makes};
ghost use Rattle.record_resolve.specs.Functions.{method, static, plain, of_member, constructor_of, function_kind, with_param, params_from, some_result, result_of, function_of};
ghost use Rattle.comp_lists.specs.Splits.{split_once};
ghost use Rattle.record_resolve.specs.Names.{type_named};
ghost use Rattle.record_resolve.specs.Types.{type_name};

use crate::making::{Making, Side};
use crate::types::{make_type, type_name};
use comp_lists::{Seq, split_once};
use json_paths::{Failure, fault_here};
use record_values::{Func, Node, Owner, Typed};
use std::alloc::{AllocError, Global};
use wit_data::{Function, FunctionKind, Param, Type, TypeId};

fn method(is_async: bool, id: TypeId) -> FunctionKind
    ensures { result ≡ method is_async id }
{
    if is_async {
        FunctionKind::AsyncMethod(id)
    } else {
        FunctionKind::Method(id)
    }
}

fn static_function(is_async: bool, id: TypeId) -> FunctionKind
    ensures { result ≡ static is_async id }
{
    if is_async {
        FunctionKind::AsyncStatic(id)
    } else {
        FunctionKind::Static(id)
    }
}

/// The kind of a function that belongs to no type.
pub(crate) fn plain(is_async: bool) -> FunctionKind
    ensures { result ≡ plain is_async }
{
    if is_async {
        FunctionKind::AsyncFreestanding
    } else {
        FunctionKind::Freestanding
    }
}

/// The type of this name, which is of the same owner, if it is made.
fn find_type(
    alloc: Global,
    making: &Making,
    side: Side,
    owner: &Owner,
    name: &str,
) -> Result<Option<TypeId>, AllocError>
    ensures { IfOk result
        (λ found. found ≡ type_named making.now side (type_name owner.now name.now)) }
{
    let named = type_name(alloc, owner, name)?;
    Ok(making.type_named(side, &named))
}

fn method_kind(
    alloc: Global,
    making: &Making,
    side: Side,
    owner: &Owner,
    is_async: bool,
    name: &str,
) -> Result<FunctionKind, AllocError>
    ensures { IfOk result (λ k. k
        ≡ of_member making.now side owner.now is_async (method is_async)
        (split_once 46 name.now)) }
{
    let Some((ty, _)) = split_once(name, '.') else {
        return Ok(plain(is_async));
    };
    match find_type(alloc, making, side, owner, ty)? {
        Some(id) => Ok(method(is_async, id)),
        None => Ok(plain(is_async)),
    }
}

fn static_kind(
    alloc: Global,
    making: &Making,
    side: Side,
    owner: &Owner,
    is_async: bool,
    name: &str,
) -> Result<FunctionKind, AllocError>
    ensures { IfOk result (λ k. k
        ≡ of_member making.now side owner.now is_async (static is_async)
        (split_once 46 name.now)) }
{
    let Some((ty, _)) = split_once(name, '.') else {
        return Ok(plain(is_async));
    };
    match find_type(alloc, making, side, owner, ty)? {
        Some(id) => Ok(static_function(is_async, id)),
        None => Ok(plain(is_async)),
    }
}

fn constructor_kind(
    alloc: Global,
    making: &Making,
    side: Side,
    owner: &Owner,
    is_async: bool,
    name: &str,
) -> Result<FunctionKind, Failure>
    ensures { Gives (λ k. k) result (constructor_of making.now side owner.now is_async name.now) }
{
    if is_async {
        return Err(fault_here(alloc));
    }
    match find_type(alloc, making, side, owner, name)? {
        Some(id) => Ok(FunctionKind::Constructor(id)),
        None => Ok(FunctionKind::Freestanding),
    }
}

/// The relation of a function to a type of its owner, by its name, among the types that are made.
#[tactic(auto, unfolding(crate::specs::Functions::function_kind))]
pub(crate) fn function_kind(
    alloc: Global,
    making: &Making,
    side: Side,
    owner: &Owner,
    is_async: bool,
    name: &str,
) -> Result<FunctionKind, Failure>
    ensures { Gives (λ k. k) result (function_kind making.now side owner.now is_async name.now) }
{
    let Some((tag, rest)) = split_once(name, ']') else {
        return Ok(plain(is_async));
    };
    match tag {
        "[method" => Ok(method_kind(alloc, making, side, owner, is_async, rest)?),
        "[static" => Ok(static_kind(alloc, making, side, owner, is_async, rest)?),
        "[constructor" => constructor_kind(alloc, making, side, owner, is_async, rest),
        _ => Ok(plain(is_async)),
    }
}

/// One parameter after these.
#[tactic(auto, unfolding(crate::specs::Functions::with_param))]
fn push_param(
    alloc: Global,
    making: &mut Making,
    side: Side,
    param: &Typed,
    params: &mut Seq<Param>,
) -> Result<(), Failure>
    ensures { Becomes result (params.new, making.new)
        (with_param side param.now (params.old, making.old)) }
{
    let ty = make_type(alloc, making, side, param.nodes.as_slice())?;
    let name = param.name.clone(alloc)?;
    params.push(Param { name, ty })?;
    Ok(())
}

fn make_params(
    alloc: Global,
    making: &mut Making,
    side: Side,
    params: &[Typed],
) -> Result<Seq<Param>, Failure>
    ensures { Makes result making.new (params_from side params.now ([], making.old)) }
{
    let mut made = Seq::new(alloc);
    for param in params {
        push_param(alloc, making, side, param, &mut made)?;
    }
    Ok(made)
}

#[tactic(auto, unfolding(crate::specs::Functions::some_result))]
fn make_some_result(
    alloc: Global,
    making: &mut Making,
    side: Side,
    nodes: &[Node],
) -> Result<Option<Type>, Failure>
    ensures { Makes result making.new (some_result side nodes.now making.old) }
{
    let ty = make_type(alloc, making, side, nodes)?;
    Ok(Some(ty))
}

fn make_result(
    alloc: Global,
    making: &mut Making,
    side: Side,
    nodes: &Option<Seq<Node>>,
) -> Result<Option<Type>, Failure>
    ensures { Makes result making.new (result_of side nodes.now making.old) }
{
    match nodes {
        Some(nodes) => make_some_result(alloc, making, side, nodes.as_slice()),
        None => Ok(None),
    }
}

/// A function of this kind.
#[tactic(auto, unfolding(crate::specs::Functions::function_of))]
pub(crate) fn make_function(
    alloc: Global,
    making: &mut Making,
    side: Side,
    kind: FunctionKind,
    function: &Func,
) -> Result<Function, Failure>
    ensures { Makes result making.new (function_of side kind function.now making.old) }
{
    let name = function.name.clone(alloc)?;
    let params = make_params(alloc, making, side, function.params.as_slice())?;
    let result = make_result(alloc, making, side, &function.result)?;
    Ok(Function {
        name,
        kind,
        params,
        result,
    })
}
