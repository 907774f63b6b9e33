//! Warnings of functions.

ghost use Rattle.std.specs.Prelude.{◌≡◌, ◌++◌, option_map, codes, IfOk, OnOk};
ghost use Rattle.std.specs.List.{flat_map};
ghost use Rattle.std.specs.Option.{option_copied};
ghost use Rattle.comp_lists.specs.Splits.{split_once as divided};
ghost use Rattle.name_parts.specs.Texts.{after};
ghost use Rattle.world_warnings.specs.Functions.{method_of, method_warnings, constructor_warnings, result_at, result_warnings, param_warnings, param_names, params_at, params_warnings, function_warnings};

use crate::facts::{Facts, borrows, owned};
use crate::handles::{gives_own, takes_self};
use crate::types::add_value;
use comp_lists::{Seq, Text, split_once};
use name_parts::after;
use name_warnings::{Warning, WarningKind, add_labels, longer, note};
use record_values::{Func, Node, Owner, Typed};
use std::alloc::{AllocError, Global};
use world_names::Resources;

// ---- functions of resources

fn before_dot(text: &str) -> Option<&str>
    ensures { option_copied result ≡ option_map (λ p. p.0) (divided 46 text.now) }
{
    match split_once(text, '.') {
        Some((front, _)) => Some(front),
        None => None,
    }
}

/// The resource of which a name says that it is one of a method of it.
fn method_of(name: &str) -> Option<&str>
    ensures { option_copied result ≡ method_of name.now }
{
    match after("[method]", name) {
        Some(rest) => before_dot(rest),
        None => None,
    }
}

/// Adds a warning where a method doesn't take its resource first.
fn add_method(
    alloc: Global,
    warnings: &mut Seq<Warning>,
    facts: &Facts,
    owner: &Owner,
    path: &Seq<Text>,
    function: &Func,
) -> Result<(), AllocError>
    ensures { OnOk result (warnings.new ≡ warnings.old
        ++ method_warnings facts.now owner.now path.now function.now (method_of function.now.name)) }
{
    match method_of(function.name.as_str()) {
        Some(resource) => {
            let wanted = owned(alloc, owner, resource)?;
            let params = function.params.as_slice();
            let broken = !takes_self(&facts.resources, &wanted, params);
            note(alloc, warnings, broken, WarningKind::MethodSelf, path)
        }
        None => Ok(()),
    }
}

/// Adds a warning where a constructor doesn't give its resource.
fn add_constructor(
    alloc: Global,
    warnings: &mut Seq<Warning>,
    facts: &Facts,
    owner: &Owner,
    path: &Seq<Text>,
    function: &Func,
) -> Result<(), AllocError>
    ensures { OnOk result (warnings.new ≡ warnings.old
        ++ constructor_warnings facts.now owner.now path.now function.now
        (after (codes "[constructor]") function.now.name)) }
{
    match after("[constructor]", function.name.as_str()) {
        Some(resource) => {
            let wanted = owned(alloc, owner, resource)?;
            let broken = !gives_own(&facts.resources, &wanted, function);
            note(
                alloc,
                warnings,
                broken,
                WarningKind::ConstructorResult,
                path,
            )
        }
        None => Ok(()),
    }
}

// ---- parameters

fn param_names(alloc: Global, params: &[Typed]) -> Result<Seq<Text>, AllocError>
    ensures { IfOk result (λ ns. ns ≡ param_names params.now) }
{
    let mut names = Seq::new(alloc);
    for param in params {
        names.push(param.name.clone(alloc)?)?;
    }
    Ok(names)
}

fn add_param(
    alloc: Global,
    warnings: &mut Seq<Warning>,
    resources: &Resources,
    path: &Seq<Text>,
    param: &Typed,
) -> Result<(), AllocError>
    ensures { OnOk result
        (warnings.new ≡ warnings.old ++ param_warnings resources.now path.now param.now) }
{
    let at = longer(alloc, path, param.name.as_str())?;
    add_value(alloc, warnings, resources, &at, param.nodes.as_slice())
}

fn add_each_param(
    alloc: Global,
    warnings: &mut Seq<Warning>,
    resources: &Resources,
    path: &Seq<Text>,
    params: &[Typed],
) -> Result<(), AllocError>
    ensures { OnOk result (warnings.new
        ≡ warnings.old ++ flat_map (param_warnings resources.now path.now) params.now) }
{
    for param in params {
        add_param(alloc, warnings, resources, path, param)?;
    }
    Ok(())
}

/// Adds the warnings of parameters, at their path.
fn add_params_at(
    alloc: Global,
    warnings: &mut Seq<Warning>,
    resources: &Resources,
    path: &Seq<Text>,
    params: &[Typed],
) -> Result<(), AllocError>
    ensures { OnOk result
        (warnings.new ≡ warnings.old ++ params_at resources.now params.now path.now) }
{
    let names = param_names(alloc, params)?;
    add_labels(alloc, warnings, path, names.as_slice())?;
    add_each_param(alloc, warnings, resources, path, params)?;
    Ok(())
}

fn add_params(
    alloc: Global,
    warnings: &mut Seq<Warning>,
    resources: &Resources,
    path: &Seq<Text>,
    params: &[Typed],
) -> Result<(), AllocError>
    ensures { OnOk result
        (warnings.new ≡ warnings.old ++ params_warnings resources.now path.now params.now) }
{
    let at = longer(alloc, path, "params")?;
    add_params_at(alloc, warnings, resources, &at, params)
}

// ---- results

/// Adds the warnings of a result, at its path.
fn add_result_at(
    alloc: Global,
    warnings: &mut Seq<Warning>,
    facts: &Facts,
    path: &Seq<Text>,
    nodes: &[Node],
) -> Result<(), AllocError>
    ensures { OnOk result (warnings.new ≡ warnings.old ++ result_at facts.now nodes.now path.now) }
{
    let borrowed = borrows(&facts.borrowing, nodes);
    note(alloc, warnings, borrowed, WarningKind::BorrowResult, path)?;
    add_value(alloc, warnings, &facts.resources, path, nodes)?;
    Ok(())
}

fn add_result(
    alloc: Global,
    warnings: &mut Seq<Warning>,
    facts: &Facts,
    path: &Seq<Text>,
    function: &Func,
) -> Result<(), AllocError>
    ensures { OnOk result (warnings.new
        ≡ warnings.old ++ result_warnings facts.now path.now function.now.result) }
{
    match &function.result {
        Some(nodes) => {
            let at = longer(alloc, path, "result")?;
            add_result_at(alloc, warnings, facts, &at, nodes.as_slice())
        }
        None => Ok(()),
    }
}

// ---- all of a function

/// Adds the warnings of a function of an owner, at its path, but those of its name.
pub(crate) fn add_function(
    alloc: Global,
    warnings: &mut Seq<Warning>,
    facts: &Facts,
    owner: &Owner,
    path: &Seq<Text>,
    function: &Func,
) -> Result<(), AllocError>
    ensures { OnOk result (warnings.new
        ≡ warnings.old ++ function_warnings facts.now owner.now function.now path.now) }
{
    add_method(alloc, warnings, facts, owner, path, function)?;
    add_constructor(alloc, warnings, facts, owner, path, function)?;
    let params = function.params.as_slice();
    add_params(alloc, warnings, &facts.resources, path, params)?;
    add_result(alloc, warnings, facts, path, function)?;
    Ok(())
}
