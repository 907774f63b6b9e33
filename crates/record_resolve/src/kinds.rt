//! The kind of type that a node makes of the types that are its parts.

ghost use Rattle.std.specs.Prelude.{◌≡◌, ◌≤◌, [], Ok, IfOk};
ghost use Rattle.json_paths.specs.Faults.{Gives};
ghost use Rattle.record_resolve.specs.Names.{found};
ghost use Rattle.record_resolve.specs.Kinds.{count, typed_count, arity, next, fields_from, record_of, made_cases, holding, result_of, kind};
ghost use Rattle.wit_data.specs.declared.types.TypeDefKind.TheVariants as kinds;

use crate::making::{Making, Side};
use comp_lists::{Seq, Text};
use json_paths::{Failure, fault_here};
use record_values::{Case, Node};
use std::alloc::{AllocError, Global};
use wit_data::{Field, ResultType, Type, TypeDefKind};

fn count(is_there: bool) -> usize
    ensures value { result ≡ count is_there }
    ensures small { result ≤ 1 }
{
    if is_there { 1 } else { 0 }
}

fn typed_count(cases: &[Case]) -> usize
    ensures { result ≡ typed_count cases.now }
{
    let mut total = 0;
    for case in cases {
        total += count(case.has_type);
    }
    total
}

/// How many parts a node has.
pub(crate) fn arity(node: &Node) -> usize
    ensures { result ≡ arity node.now }
{
    match node {
        Node::Primitive(_) => 0,
        Node::List => 1,
        Node::Option => 1,
        Node::Result { has_ok, has_err } => count(*has_ok) + count(*has_err),
        Node::Tuple { arity } => *arity,
        Node::Record(names) => names.len(),
        Node::Variant(cases) => typed_count(cases.as_slice()),
        Node::Enum(_) => 0,
        Node::Flags(_) => 0,
        Node::Own(_) => 0,
        Node::Borrow(_) => 0,
        Node::Stream { has_item } => count(*has_item),
        Node::Future { has_item } => count(*has_item),
        Node::Named(_) => 0,
        Node::Resource => 0,
    }
}

/// The next part, where there is one, and those after it.
fn next(is_there: bool, parts: &[Type]) -> (Option<Type>, &[Type])
    ensures { (result.0, result.1.now) ≡ next is_there parts.now }
{
    if !is_there {
        return (None, parts);
    }
    match parts.split_first() {
        Some((part, others)) => (Some(*part), others),
        None => (None, parts),
    }
}

/// Fields, one for each name.
fn make_fields(alloc: Global, names: &[Text], parts: &[Type]) -> Result<Seq<Field>, Failure>
    ensures { Gives (λ fs. fs) result (fields_from [] names.now parts.now) }
{
    let mut fields = Seq::new(alloc);
    let mut rest = parts;
    for name in names {
        let (part, others) = next(true, rest);
        let Some(ty) = part else {
            return Err(fault_here(alloc));
        };
        let name = name.clone(alloc)?;
        fields.push(Field { name, ty })?;
        rest = others;
    }
    Ok(fields)
}

fn make_record(alloc: Global, names: &[Text], parts: &[Type]) -> Result<TypeDefKind, Failure>
    ensures { Gives (λ k. k) result (record_of names.now parts.now) }
{
    let fields = make_fields(alloc, names, parts)?;
    Ok(TypeDefKind::Record(fields))
}

/// Cases, of which those that have a type take the next part.
fn make_cases(
    alloc: Global,
    cases: &[Case],
    parts: &[Type],
) -> Result<Seq<wit_data::Case>, AllocError>
    ensures { IfOk result (λ cs. cs ≡ made_cases cases.now parts.now) }
{
    let mut made = Seq::new(alloc);
    let mut rest = parts;
    for case in cases {
        let (ty, others) = next(case.has_type, rest);
        let name = case.name.clone(alloc)?;
        made.push(wit_data::Case { name, ty })?;
        rest = others;
    }
    Ok(made)
}

fn make_tuple(alloc: Global, parts: &[Type]) -> Result<TypeDefKind, AllocError>
    ensures { IfOk result (λ k. k ≡ kinds.Tuple parts.now) }
{
    let mut types = Seq::new(alloc);
    for part in parts {
        types.push(*part)?;
    }
    Ok(TypeDefKind::Tuple(types))
}

fn make_list(alloc: Global, part: Option<Type>) -> Result<TypeDefKind, Failure>
    ensures { Gives (λ k. k) result (holding kinds.«List» part) }
{
    match part {
        Some(part) => Ok(TypeDefKind::List(part)),
        None => Err(fault_here(alloc)),
    }
}

fn make_option(alloc: Global, part: Option<Type>) -> Result<TypeDefKind, Failure>
    ensures { Gives (λ k. k) result (holding kinds.«Option» part) }
{
    match part {
        Some(part) => Ok(TypeDefKind::Option(part)),
        None => Err(fault_here(alloc)),
    }
}

fn make_result(has_ok: bool, has_err: bool, parts: &[Type]) -> TypeDefKind
    ensures { result ≡ result_of has_ok has_err parts.now }
{
    let (ok, rest) = next(has_ok, parts);
    let (err, _) = next(has_err, rest);
    TypeDefKind::Result(ResultType { ok, err })
}

/// The kind that a node makes of its parts.
pub(crate) fn make_kind(
    alloc: Global,
    making: &Making,
    side: Side,
    node: &Node,
    parts: &[Type],
) -> Result<TypeDefKind, Failure>
    ensures { Gives (λ k. k) result (kind making.now side node.now parts.now) }
{
    match node {
        Node::Primitive(primitive) => Ok(TypeDefKind::Alias(Type::Primitive(*primitive))),
        Node::List => make_list(alloc, next(true, parts).0),
        Node::Option => make_option(alloc, next(true, parts).0),
        Node::Result { has_ok, has_err } => Ok(make_result(*has_ok, *has_err, parts)),
        Node::Tuple { arity: _ } => Ok(make_tuple(alloc, parts)?),
        Node::Record(names) => make_record(alloc, names.as_slice(), parts),
        Node::Variant(cases) => Ok(TypeDefKind::Variant(make_cases(
            alloc,
            cases.as_slice(),
            parts,
        )?)),
        Node::Enum(names) => Ok(TypeDefKind::Enum(names.clone(alloc)?)),
        Node::Flags(names) => Ok(TypeDefKind::Flags(names.clone(alloc)?)),
        Node::Own(named) => Ok(TypeDefKind::Own(making.find(alloc, side, named)?)),
        Node::Borrow(named) => Ok(TypeDefKind::Borrow(making.find(alloc, side, named)?)),
        Node::Stream { has_item } => Ok(TypeDefKind::Stream(next(*has_item, parts).0)),
        Node::Future { has_item } => Ok(TypeDefKind::Future(next(*has_item, parts).0)),
        Node::Named(named) => Ok(TypeDefKind::Alias(Type::Id(making.find(alloc, side, named)?))),
        Node::Resource => Ok(TypeDefKind::Resource),
    }
}
