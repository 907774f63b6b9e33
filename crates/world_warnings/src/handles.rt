//! Handles of a resource, as the types of parameters and results.

ghost use Rattle.std.specs.Prelude.{◌≡◌};
ghost use Rattle.std.specs.Option.{option_copied};
ghost use Rattle.world_names.specs.Scopes.{is_itself};
ghost use Rattle.world_warnings.specs.Handles.{count, typed_count, arity, make_types, same_resource, is_of, owns, is_borrow, borrow_alone, result_types, are_types, ends_result, makes_own, gives_own, is_self, takes_self};

use record_values::{Case, Func, Node, TypeName, Typed};
use world_names::Resources;

// ---- whole types in a list of nodes

fn count(is_there: bool) -> usize
    ensures { result ≡ count is_there }
{
    if is_there { 1 } else { 0 }
}

fn typed_count(cases: &[Case]) -> usize
    ensures { result ≡ typed_count cases.now }
{
    let mut total = 0;
    for case in cases {
        total += count(case.has_type);
    }
    total
}

/// How many parts a node has, which stand before it.
fn arity(node: &Node) -> usize
    ensures { result ≡ arity node.now }
{
    match node {
        Node::Primitive(_) => 0,
        Node::List => 1,
        Node::Option => 1,
        Node::Result { has_ok, has_err } => count(*has_ok) + count(*has_err),
        Node::Tuple { arity } => *arity,
        Node::Record(names) => names.len(),
        Node::Variant(cases) => typed_count(cases.as_slice()),
        Node::Enum(_) => 0,
        Node::Flags(_) => 0,
        Node::Own(_) => 0,
        Node::Borrow(_) => 0,
        Node::Stream { has_item } => count(*has_item),
        Node::Future { has_item } => count(*has_item),
        Node::Named(_) => 0,
        Node::Resource => 0,
    }
}

/// Whether nodes are those of so many types, with all of their parts.
fn make_types(wanted: usize, nodes: &[Node]) -> bool
    ensures { result ≡ make_types wanted 0 nodes.now }
{
    let mut made = 0;
    for node in nodes {
        let parts = arity(node);
        if made < parts {
            return false;
        }
        made = made - parts + 1;
    }
    made == wanted
}

// ---- handles of a resource

fn is_itself(name: &TypeName, resource: Option<&TypeName>) -> bool
    ensures { result ≡ is_itself name.now (option_copied resource.entry) }
{
    match resource {
        Some(resource) => name == resource,
        None => false,
    }
}

fn same_resource(first: Option<&TypeName>, second: Option<&TypeName>) -> bool
    ensures { result ≡ same_resource (option_copied first.entry) (option_copied second.entry) }
{
    match first {
        Some(resource) => is_itself(resource, second),
        None => false,
    }
}

/// Whether two names are those of one resource.
fn is_of(resources: &Resources, wanted: &TypeName, named: &TypeName) -> bool
    ensures { result ≡ is_of resources.now wanted.now named.now }
{
    same_resource(resources.get(wanted), resources.get(named))
}

/// Whether a node is an owned handle of a resource.
fn owns(resources: &Resources, wanted: &TypeName, node: &Node) -> bool
    ensures { result ≡ owns resources.now wanted.now node.now }
{
    match node {
        Node::Own(named) => is_of(resources, wanted, named),
        _ => false,
    }
}

fn is_borrow(resources: &Resources, wanted: &TypeName, node: &Node) -> bool
    ensures { result ≡ is_borrow resources.now wanted.now node.now }
{
    match node {
        Node::Borrow(named) => is_of(resources, wanted, named),
        _ => false,
    }
}

/// Whether a type is a borrowed handle of a resource.
fn borrow_alone(resources: &Resources, wanted: &TypeName, nodes: &[Node]) -> bool
    ensures { result ≡ borrow_alone resources.now wanted.now nodes.now }
{
    match nodes {
        [node] => is_borrow(resources, wanted, node),
        _ => false,
    }
}

// ---- results of constructors

/// How many types there are behind the first part of a result that has one for success.
fn result_types(node: &Node) -> Option<usize>
    ensures { result ≡ result_types node.now }
{
    match node {
        Node::Result { has_ok, has_err } => { if *has_ok { Some(count(*has_err)) } else { None } }
        _ => None,
    }
}

fn are_types(wanted: Option<usize>, nodes: &[Node]) -> bool
    ensures { result ≡ are_types wanted nodes.now }
{
    match wanted {
        Some(wanted) => make_types(wanted, nodes),
        None => false,
    }
}

/// Whether nothing is behind a handle, or what makes it the success of a result.
fn ends_result(nodes: &[Node]) -> bool
    ensures { result ≡ ends_result nodes.now }
{
    if nodes.is_empty() {
        return true;
    }
    let last = nodes.len() - 1;
    are_types(result_types(&nodes[last]), &nodes[..last])
}

fn makes_own(resources: &Resources, wanted: &TypeName, nodes: &[Node]) -> bool
    ensures { result ≡ makes_own resources.now wanted.now nodes.now }
{
    match nodes {
        [] => false,
        [first, behind @ ..] => owns(resources, wanted, first) && ends_result(behind),
    }
}

/// Whether a function gives an owned handle of a resource, or a result with one.
pub(crate) fn gives_own(resources: &Resources, wanted: &TypeName, function: &Func) -> bool
    ensures { result ≡ gives_own resources.now wanted.now function.now.result }
{
    match &function.result {
        Some(nodes) => makes_own(resources, wanted, nodes.as_slice()),
        None => false,
    }
}

// ---- first parameters of methods

fn is_self(resources: &Resources, wanted: &TypeName, param: &Typed) -> bool
    ensures { result ≡ is_self resources.now wanted.now param.now }
{
    param.name.as_str() == "self" && borrow_alone(resources, wanted, param.nodes.as_slice())
}

/// Whether the first of these parameters is a borrowed handle of a resource, under the name `self`.
pub(crate) fn takes_self(resources: &Resources, wanted: &TypeName, params: &[Typed]) -> bool
    ensures { result ≡ takes_self resources.now wanted.now params.now }
{
    match params.first() {
        Some(param) => is_self(resources, wanted, param),
        None => false,
    }
}
