//! The nodes of types of values.
//!
//! Component model, binary format: `valtype`, `defvaltype`.

ghost use Rattle.std.specs.Prelude.{◌≡◌, ℕ, List, [], ◌∷◌, ◌++◌, length, map, slice_get, is_some, IfOk, OnOk};
ghost use Rattle.record_values.specs.declared.types.Node.TheVariants as variants;
ghost use Rattle.package_types.specs.Types.{entry_nodes, value_nodes, optional_nodes, types_after, fields_after, cases_after, named_nodes, case_of, defined_nodes};

use crate::scopes::Entry;
use comp_bytes::{Case as TypedCase, ComponentValType, DefinedType, Field};
use comp_lists::{Seq, Text, TryClone};
use record_values::{Case, Node};
use std::alloc::{AllocError, Global};

fn push_entry(alloc: Global, entry: &Entry, nodes: &mut Seq<Node>) -> Result<(), AllocError>
    ensures { OnOk result (nodes.new ≡ nodes.old ++ entry_nodes entry.now) }
{
    match entry {
        Entry::Name { name, facts: _ } => Ok(nodes.push(Node::Named(name.try_clone(alloc)?))?),
        Entry::Type {
            nodes: inner,
            size: _,
        } => nodes.append(inner.clone(alloc)?),
        Entry::Function(_) => nodes.append(Seq::new(alloc)),
        Entry::Instance(_) => nodes.append(Seq::new(alloc)),
    }
}

fn push_value(
    alloc: Global,
    scope: &[Entry],
    ty: ComponentValType,
    nodes: &mut Seq<Node>,
) -> Result<(), AllocError>
    ensures { OnOk result (nodes.new ≡ nodes.old ++ value_nodes scope.now ty) }
{
    match ty {
        ComponentValType::Primitive(primitive) => Ok(nodes.push(Node::Primitive(primitive))?),
        ComponentValType::Defined(index) => match scope.get(index as usize) {
            Some(entry) => push_entry(alloc, entry, nodes),
            None => nodes.append(Seq::new(alloc)),
        },
    }
}

fn push_optional(
    alloc: Global,
    scope: &[Entry],
    ty: Option<ComponentValType>,
    nodes: &mut Seq<Node>,
) -> Result<(), AllocError>
    ensures { OnOk result (nodes.new ≡ nodes.old ++ optional_nodes scope.now ty) }
{
    match ty {
        Some(ty) => push_value(alloc, scope, ty, nodes),
        None => nodes.append(Seq::new(alloc)),
    }
}

/// The nodes of a type.
pub(crate) fn value_nodes(
    alloc: Global,
    scope: &[Entry],
    ty: ComponentValType,
) -> Result<Seq<Node>, AllocError>
    ensures { IfOk result (λ ns. ns ≡ value_nodes scope.now ty) }
{
    let mut nodes = Seq::new(alloc);
    push_value(alloc, scope, ty, &mut nodes)?;
    Ok(nodes)
}

fn optional_nodes(
    alloc: Global,
    scope: &[Entry],
    ty: Option<ComponentValType>,
) -> Result<Seq<Node>, AllocError>
    ensures { IfOk result (λ ns. ns ≡ optional_nodes scope.now ty) }
{
    let mut nodes = Seq::new(alloc);
    push_optional(alloc, scope, ty, &mut nodes)?;
    Ok(nodes)
}

fn types_nodes(
    alloc: Global,
    scope: &[Entry],
    types: &[ComponentValType],
) -> Result<Seq<Node>, AllocError>
    ensures { IfOk result (λ ns. ns ≡ types_after scope.now types.now []) }
{
    let mut nodes = Seq::new(alloc);
    for ty in types {
        push_value(alloc, scope, *ty, &mut nodes)?;
    }
    Ok(nodes)
}

fn fields_nodes(alloc: Global, scope: &[Entry], fields: &[Field]) -> Result<Seq<Node>, AllocError>
    ensures { IfOk result (λ ns. ns ≡ fields_after scope.now fields.now []) }
{
    let mut nodes = Seq::new(alloc);
    for field in fields {
        push_value(alloc, scope, field.ty, &mut nodes)?;
    }
    Ok(nodes)
}

fn cases_nodes(alloc: Global, scope: &[Entry], cases: &[TypedCase]) -> Result<Seq<Node>, AllocError>
    ensures { IfOk result (λ ns. ns ≡ cases_after scope.now cases.now []) }
{
    let mut nodes = Seq::new(alloc);
    for case in cases {
        push_optional(alloc, scope, case.ty, &mut nodes)?;
    }
    Ok(nodes)
}

fn field_names(alloc: Global, fields: &[Field]) -> Result<Seq<Text>, AllocError>
    ensures { IfOk result (λ names. names ≡ map (λ f. f.name) fields.now) }
{
    let mut names = Seq::new(alloc);
    for field in fields {
        names.push(field.name.clone(alloc)?)?;
    }
    Ok(names)
}

fn one_case(alloc: Global, case: &TypedCase) -> Result<Case, AllocError>
    ensures { IfOk result (λ c. c ≡ case_of case.now) }
{
    Ok(Case {
        name: case.name.clone(alloc)?,
        has_type: case.ty.is_some(),
    })
}

fn plain_cases(alloc: Global, cases: &[TypedCase]) -> Result<Seq<Case>, AllocError>
    ensures { IfOk result (λ cs. cs ≡ map case_of cases.now) }
{
    let mut plain = Seq::new(alloc);
    for case in cases {
        plain.push(one_case(alloc, case)?)?;
    }
    Ok(plain)
}

/// Nodes with one more behind them.
fn closed(nodes: Seq<Node>, node: Node) -> Result<Seq<Node>, AllocError>
    ensures { IfOk result (λ ns. ns ≡ nodes ++ node ∷ []) }
{
    let mut nodes = nodes;
    nodes.push(node)?;
    Ok(nodes)
}

fn record_nodes(alloc: Global, scope: &[Entry], fields: &[Field]) -> Result<Seq<Node>, AllocError>
    ensures { IfOk result (λ ns. ns ≡ fields_after scope.now fields.now [] ++ variants.Record
        (map (λ f. f.name) fields.now) ∷ []) }
{
    let names = field_names(alloc, fields)?;
    let parts = fields_nodes(alloc, scope, fields)?;
    closed(parts, Node::Record(names))
}

fn variant_nodes(
    alloc: Global,
    scope: &[Entry],
    cases: &[TypedCase],
) -> Result<Seq<Node>, AllocError>
    ensures { IfOk result (λ ns. ns ≡ cases_after scope.now cases.now [] ++ variants.Variant
        (map case_of cases.now) ∷ []) }
{
    let plain = plain_cases(alloc, cases)?;
    let parts = cases_nodes(alloc, scope, cases)?;
    closed(parts, Node::Variant(plain))
}

fn tuple_nodes(
    alloc: Global,
    scope: &[Entry],
    types: &[ComponentValType],
) -> Result<Seq<Node>, AllocError>
    ensures { IfOk result (λ ns. ns ≡ types_after scope.now types.now [] ++ variants.Tuple
        (length types.now) ∷ []) }
{
    let parts = types_nodes(alloc, scope, types)?;
    closed(parts, Node::Tuple { arity: types.len() })
}

fn result_nodes(
    alloc: Global,
    scope: &[Entry],
    ok: Option<ComponentValType>,
    err: Option<ComponentValType>,
) -> Result<Seq<Node>, AllocError>
    ensures { IfOk result (λ ns. ns ≡
        (optional_nodes scope.now ok ++ optional_nodes scope.now err) ++ variants.Result
        (is_some ok) (is_some err) ∷ []) }
{
    let mut parts = optional_nodes(alloc, scope, ok)?;
    push_optional(alloc, scope, err, &mut parts)?;
    closed(
        parts,
        Node::Result {
            has_ok: ok.is_some(),
            has_err: err.is_some(),
        },
    )
}

/// A value type with a node behind it.
fn holding_nodes(
    alloc: Global,
    scope: &[Entry],
    ty: ComponentValType,
    node: Node,
) -> Result<Seq<Node>, AllocError>
    ensures { IfOk result (λ ns. ns ≡ value_nodes scope.now ty ++ node ∷ []) }
{
    let read = value_nodes(alloc, scope, ty);
    closed(read?, node)
}

/// A value type that may be absent, with a node behind it.
fn carrying_nodes(
    alloc: Global,
    scope: &[Entry],
    ty: Option<ComponentValType>,
    node: Node,
) -> Result<Seq<Node>, AllocError>
    ensures { IfOk result (λ ns. ns ≡ optional_nodes scope.now ty ++ node ∷ []) }
{
    let read = optional_nodes(alloc, scope, ty);
    closed(read?, node)
}

fn alone(alloc: Global, node: Node) -> Result<Seq<Node>, AllocError>
    ensures { IfOk result (λ ns. ns ≡ node ∷ []) }
{
    closed(Seq::new(alloc), node)
}

fn own_nodes(alloc: Global, scope: &[Entry], index: u32) -> Result<Seq<Node>, AllocError>
    ensures { IfOk result (λ ns. ns ≡ named_nodes (λ n. variants.Own n)
        (slice_get scope.now index)) }
{
    match scope.get(index as usize) {
        Some(Entry::Name { name, facts: _ }) => alone(alloc, Node::Own(name.try_clone(alloc)?)),
        _ => Ok(Seq::new(alloc)),
    }
}

fn borrow_nodes(alloc: Global, scope: &[Entry], index: u32) -> Result<Seq<Node>, AllocError>
    ensures { IfOk result (λ ns. ns ≡ named_nodes (λ n. variants.Borrow n)
        (slice_get scope.now index)) }
{
    match scope.get(index as usize) {
        Some(Entry::Name { name, facts: _ }) => alone(alloc, Node::Borrow(name.try_clone(alloc)?)),
        _ => Ok(Seq::new(alloc)),
    }
}

/// The nodes of a type whose size is right.
pub(crate) fn defined_nodes(
    alloc: Global,
    scope: &[Entry],
    ty: &DefinedType,
) -> Result<Seq<Node>, AllocError>
    ensures { IfOk result (λ ns. ns ≡ defined_nodes scope.now ty.now) }
{
    match ty {
        DefinedType::Primitive(primitive) => alone(alloc, Node::Primitive(*primitive)),
        DefinedType::Record(fields) => record_nodes(alloc, scope, fields.as_slice()),
        DefinedType::Variant(cases) => variant_nodes(alloc, scope, cases.as_slice()),
        DefinedType::List(ty) => holding_nodes(alloc, scope, *ty, Node::List),
        DefinedType::Tuple(types) => tuple_nodes(alloc, scope, types.as_slice()),
        DefinedType::Flags(names) => alone(alloc, Node::Flags(names.clone(alloc)?)),
        DefinedType::Enum(names) => alone(alloc, Node::Enum(names.clone(alloc)?)),
        DefinedType::Option(ty) => holding_nodes(alloc, scope, *ty, Node::Option),
        DefinedType::Result { ok, err } => result_nodes(alloc, scope, *ok, *err),
        DefinedType::Own(index) => own_nodes(alloc, scope, *index),
        DefinedType::Borrow(index) => borrow_nodes(alloc, scope, *index),
        DefinedType::Stream(ty) => {
            let has_item = ty.is_some();
            carrying_nodes(alloc, scope, *ty, Node::Stream { has_item })
        }
        DefinedType::Future(ty) => {
            let has_item = ty.is_some();
            carrying_nodes(alloc, scope, *ty, Node::Future { has_item })
        }
    }
}
