//! Streams and futures that occur in functions.

ghost use Rattle.std.specs.Prelude.{◌≡◌, ◌++◌, IfOk, OnOk};
ghost use Rattle.std.specs.List.{flat_map};
ghost use Rattle.record_import_roles.specs.Payloads.{Met, met_at, met_in, met_in_function, with_type, with_types, with_interfaces, with_item, with_items, all_met};

use comp_lists::{Keyed, Seq, Text, TryClone};
use record_values::{
    Func, Interface, InterfaceName, Item, ItemKey, Node, Owner, PayloadKind, TypeName, Typed, Wit,
};
use std::alloc::{AllocError, Global};

/// The streams and futures that occur in each named type.
pub(crate) type Met = Keyed<TypeName, Seq<PayloadKind>>;

/// Appends all of a list.
fn push_all(out: &mut Seq<PayloadKind>, more: &[PayloadKind]) -> Result<(), AllocError>
    ensures { OnOk result (out.new ≡ out.old ++ more.now) }
{
    for kind in more {
        out.push(*kind)?;
    }
    Ok(())
}

fn push_met_at(met: &Met, node: &Node, out: &mut Seq<PayloadKind>) -> Result<(), AllocError>
    ensures { OnOk result (out.new ≡ out.old ++ met_at met.now node.now) }
{
    match node {
        Node::Stream { .. } => Ok(out.push(PayloadKind::Stream)?),
        Node::Future { .. } => Ok(out.push(PayloadKind::Future)?),
        Node::Named(named) => match met.get(named) {
            Some(kinds) => push_all(out, kinds.as_slice()),
            None => Ok(()),
        },
        _ => Ok(()),
    }
}

fn push_met_in(met: &Met, nodes: &[Node], out: &mut Seq<PayloadKind>) -> Result<(), AllocError>
    ensures { OnOk result (out.new ≡ out.old ++ met_in met.now nodes.now) }
{
    for node in nodes {
        push_met_at(met, node, out)?;
    }
    Ok(())
}

/// The streams and futures that occur in a function.
pub(crate) fn met_in_function(
    alloc: Global,
    met: &Met,
    function: &Func,
) -> Result<Seq<PayloadKind>, AllocError>
    ensures { IfOk result (λ ks. ks ≡ met_in_function met.now function.now) }
{
    let mut out = met_in_params(alloc, met, function.params.as_slice())?;
    if let Some(nodes) = &function.result {
        push_met_in(met, nodes.as_slice(), &mut out)?;
    }
    Ok(out)
}

fn met_in_params(alloc: Global, met: &Met, params: &[Typed]) -> Result<Seq<PayloadKind>, AllocError>
    ensures { IfOk result (λ ks. ks ≡ flat_map (λ p. met_in met.now p.nodes) params.now) }
{
    let mut out = Seq::new(alloc);
    for param in params {
        push_met_in(met, param.nodes.as_slice(), &mut out)?;
    }
    Ok(out)
}

fn add_type(alloc: Global, met: &mut Met, name: TypeName, nodes: &[Node]) -> Result<(), AllocError>
    ensures { OnOk result (met.new ≡ with_type met.old name nodes.now) }
{
    let mut kinds = Seq::new(alloc);
    push_met_in(met, nodes, &mut kinds)?;
    met.insert_if_absent(name, kinds)
}

fn add_types(
    alloc: Global,
    met: &mut Met,
    interface: &InterfaceName,
    types: &[Typed],
) -> Result<(), AllocError>
    ensures { OnOk result (met.new ≡ with_types met.old interface.now types.now) }
{
    for typed in types {
        let owner = Owner::Interface(interface.try_clone(alloc)?);
        let name = typed.name.clone(alloc)?;
        add_type(alloc, met, TypeName { owner, name }, typed.nodes.as_slice())?;
    }
    Ok(())
}

fn add_interfaces(
    alloc: Global,
    met: &mut Met,
    interfaces: &Keyed<InterfaceName, Interface>,
) -> Result<(), AllocError>
    ensures { OnOk result (met.new ≡ with_interfaces met.old interfaces.now) }
{
    for (name, interface) in interfaces.iter() {
        add_types(alloc, met, name, interface.types.as_slice())?;
    }
    Ok(())
}

fn add_item(alloc: Global, met: &mut Met, key: &ItemKey, item: &Item) -> Result<(), AllocError>
    ensures { OnOk result (met.new ≡ with_item met.old key.now item.now) }
{
    match item {
        Item::Type(nodes) => {
            let name = key.text().clone(alloc)?;
            let owner = Owner::World;
            add_type(alloc, met, TypeName { owner, name }, nodes.as_slice())
        }
        _ => Ok(()),
    }
}

fn add_items(alloc: Global, met: &mut Met, items: &Keyed<ItemKey, Item>) -> Result<(), AllocError>
    ensures { OnOk result (met.new ≡ with_items met.old items.now) }
{
    for (key, item) in items.iter() {
        add_item(alloc, met, key, item)?;
    }
    Ok(())
}

/// The streams and futures that occur in each named type of a world.
#[tactic(auto, unfolding(crate::specs::Payloads::all_met))]
pub(crate) fn all_met(alloc: Global, wit: &Wit) -> Result<Met, AllocError>
    ensures { IfOk result (λ m. m ≡ all_met wit.now) }
{
    let mut met = Keyed::new(alloc);
    add_interfaces(alloc, &mut met, &wit.interfaces)?;
    add_items(alloc, &mut met, &wit.imports)?;
    Ok(met)
}
