//! The interfaces that an interface names.

ghost use Rattle.std.specs.Prelude.{◌≡◌, IfOk};
ghost use Rattle.record_versions.specs.Uses.{of_owner, of_node, of_nodes, of_types, of_result, of_function, of_functions, of_interface, uses};

use comp_lists::{Keyed, Seq, TryClone};
use record_values::{Func, Interface, InterfaceName, Node, Owner, Typed};
use std::alloc::{AllocError, Global};

type Names = Seq<InterfaceName>;

fn owner_uses(alloc: Global, owner: &Owner) -> Result<Names, AllocError>
    ensures { IfOk result (λ ns. ns ≡ of_owner owner.now) }
{
    let mut names = Seq::new(alloc);
    match owner {
        Owner::World => Ok(names),
        Owner::Interface(name) => {
            names.push(name.try_clone(alloc)?)?;
            Ok(names)
        }
    }
}

fn node_uses(alloc: Global, node: &Node) -> Result<Names, AllocError>
    ensures { IfOk result (λ ns. ns ≡ of_node node.now) }
{
    match node {
        Node::Own(named) => owner_uses(alloc, &named.owner),
        Node::Borrow(named) => owner_uses(alloc, &named.owner),
        Node::Named(named) => owner_uses(alloc, &named.owner),
        _ => Ok(Seq::new(alloc)),
    }
}

fn nodes_use(alloc: Global, nodes: &[Node]) -> Result<Names, AllocError>
    ensures { IfOk result (λ ns. ns ≡ of_nodes nodes.now) }
{
    let mut names = Seq::new(alloc);
    for node in nodes {
        names.append(node_uses(alloc, node)?)?;
    }
    Ok(names)
}

fn types_use(alloc: Global, types: &[Typed]) -> Result<Names, AllocError>
    ensures { IfOk result (λ ns. ns ≡ of_types types.now) }
{
    let mut names = Seq::new(alloc);
    for typed in types {
        names.append(nodes_use(alloc, typed.nodes.as_slice())?)?;
    }
    Ok(names)
}

fn result_uses(alloc: Global, nodes: &Option<Seq<Node>>) -> Result<Names, AllocError>
    ensures { IfOk result (λ ns. ns ≡ of_result nodes.now) }
{
    match nodes {
        Some(nodes) => nodes_use(alloc, nodes.as_slice()),
        None => Ok(Seq::new(alloc)),
    }
}

fn function_uses(alloc: Global, function: &Func) -> Result<Names, AllocError>
    ensures { IfOk result (λ ns. ns ≡ of_function function.now) }
{
    let mut names = types_use(alloc, function.params.as_slice())?;
    names.append(result_uses(alloc, &function.result)?)?;
    Ok(names)
}

fn functions_use(alloc: Global, functions: &[Func]) -> Result<Names, AllocError>
    ensures { IfOk result (λ ns. ns ≡ of_functions functions.now) }
{
    let mut names = Seq::new(alloc);
    for function in functions {
        names.append(function_uses(alloc, function)?)?;
    }
    Ok(names)
}

fn interface_uses(alloc: Global, interface: &Interface) -> Result<Names, AllocError>
    ensures { IfOk result (λ ns. ns ≡ of_interface interface.now) }
{
    let mut names = types_use(alloc, interface.types.as_slice())?;
    names.append(functions_use(alloc, interface.functions.as_slice())?)?;
    Ok(names)
}

/// What the interface of this name names. The only refusal is out of memory.
pub(crate) fn uses(
    alloc: Global,
    interfaces: &Keyed<InterfaceName, Interface>,
    name: &InterfaceName,
) -> Result<Names, AllocError>
    ensures { IfOk result (λ ns. ns ≡ uses interfaces.now name.now) }
{
    match interfaces.get(name) {
        Some(interface) => interface_uses(alloc, interface),
        None => Ok(Seq::new(alloc)),
    }
}
