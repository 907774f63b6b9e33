//! Which interfaces the items of a world may name.

ghost use Rattle.std.specs.Prelude.{◌≡◌, []};
ghost use Rattle.json_paths.specs.Faults.{Gives};
ghost use Rattle.record_worlds.specs.Rules.{owner_in_scope, node_in_scope, nodes_in_scope, types_in_scope, result_in_scope, function_in_scope, functions_in_scope, content_in_scope, named_in_scope, import_in_scope, imports_in_scope, export_in_scope, exports_in_scope, rules_hold};

use crate::naming::Entry;
use crate::tables::{InterfaceSet, Interfaces, note_seen};
use comp_lists::{Keyed, Seq};
use json_paths::{Failure, fault_here, under, under_index};
use record_values::{Func, Interface, InterfaceName, Item, Node, Owner, Typed};
use std::alloc::Global;

fn owner_in_scope(scope: &InterfaceSet, more: &InterfaceSet, owner: &Owner) -> bool
    ensures { result ≡ owner_in_scope scope.now more.now owner.now }
{
    match owner {
        Owner::World => true,
        Owner::Interface(name) => scope.contains_key(name) || more.contains_key(name),
    }
}

fn node_in_scope(scope: &InterfaceSet, more: &InterfaceSet, node: &Node) -> bool
    ensures { result ≡ node_in_scope scope.now more.now node.now }
{
    match node {
        Node::Own(named) => owner_in_scope(scope, more, &named.owner),
        Node::Borrow(named) => owner_in_scope(scope, more, &named.owner),
        Node::Named(named) => owner_in_scope(scope, more, &named.owner),
        _ => true,
    }
}

/// Whether all interfaces that a type names are in one of these sets.
fn nodes_in_scope(scope: &InterfaceSet, more: &InterfaceSet, nodes: &[Node]) -> bool
    ensures { result ≡ nodes_in_scope scope.now more.now nodes.now }
{
    for node in nodes {
        if !node_in_scope(scope, more, node) {
            return false;
        }
    }
    true
}

fn types_in_scope(scope: &InterfaceSet, more: &InterfaceSet, types: &[Typed]) -> bool
    ensures { result ≡ types_in_scope scope.now more.now types.now }
{
    for typed in types {
        if !nodes_in_scope(scope, more, typed.nodes.as_slice()) {
            return false;
        }
    }
    true
}

fn result_in_scope(scope: &InterfaceSet, more: &InterfaceSet, nodes: &Option<Seq<Node>>) -> bool
    ensures { result ≡ result_in_scope scope.now more.now nodes.now }
{
    match nodes {
        Some(nodes) => nodes_in_scope(scope, more, nodes.as_slice()),
        None => true,
    }
}

fn function_in_scope(scope: &InterfaceSet, more: &InterfaceSet, function: &Func) -> bool
    ensures { result ≡ function_in_scope scope.now more.now function.now }
{
    types_in_scope(scope, more, function.params.as_slice())
        && result_in_scope(scope, more, &function.result)
}

fn functions_in_scope(scope: &InterfaceSet, more: &InterfaceSet, functions: &[Func]) -> bool
    ensures { result ≡ functions_in_scope scope.now more.now functions.now }
{
    for function in functions {
        if !function_in_scope(scope, more, function) {
            return false;
        }
    }
    true
}

fn content_in_scope(scope: &InterfaceSet, more: &InterfaceSet, interface: &Interface) -> bool
    ensures { result ≡ content_in_scope scope.now more.now interface.now }
{
    types_in_scope(scope, more, interface.types.as_slice())
        && functions_in_scope(scope, more, interface.functions.as_slice())
}

/// Whether all interfaces that the interface of this name names are in one of these sets.
fn named_in_scope(
    interfaces: &Interfaces,
    scope: &InterfaceSet,
    more: &InterfaceSet,
    name: &InterfaceName,
) -> bool
    ensures { result ≡ named_in_scope interfaces.now scope.now more.now name.now }
{
    match interfaces.get(name) {
        Some(interface) => content_in_scope(scope, more, interface),
        None => true,
    }
}

/// Whether an import names what it may: these interfaces are imported up to it, and these at all.
fn import_in_scope(
    interfaces: &Interfaces,
    before: &InterfaceSet,
    imported: &InterfaceSet,
    item: &Item,
) -> bool
    ensures { result ≡ import_in_scope interfaces.now before.now imported.now item.now }
{
    match item {
        Item::Interface(name) => named_in_scope(interfaces, before, before, name),
        Item::Function(function) => function_in_scope(imported, imported, function),
        Item::Type(nodes) => nodes_in_scope(imported, imported, nodes.as_slice()),
    }
}

fn check_imports(
    alloc: Global,
    interfaces: &Interfaces,
    imported: &InterfaceSet,
    entries: &[Entry],
) -> Result<(), Failure>
    ensures { Gives (λ x. x) result
        (imports_in_scope interfaces.now imported.now 0 [] entries.now) }
{
    let mut before = Keyed::new(alloc);
    for (index, entry) in entries.iter().enumerate() {
        note_seen(alloc, &mut before, &entry.item)?;
        if !import_in_scope(interfaces, &before, imported, &entry.item) {
            return under_index(alloc, index, Err(fault_here(alloc)));
        }
    }
    Ok(())
}

/// Whether an export names what it may: these interfaces are imported, and these are exported.
fn export_in_scope(
    interfaces: &Interfaces,
    imported: &InterfaceSet,
    exported: &InterfaceSet,
    item: &Item,
) -> bool
    ensures { result ≡ export_in_scope interfaces.now imported.now exported.now item.now }
{
    match item {
        Item::Interface(name) => named_in_scope(interfaces, imported, exported, name),
        Item::Function(function) => function_in_scope(imported, imported, function),
        Item::Type(nodes) => nodes_in_scope(imported, imported, nodes.as_slice()),
    }
}

fn check_exports(
    alloc: Global,
    interfaces: &Interfaces,
    imported: &InterfaceSet,
    exported: &InterfaceSet,
    entries: &[Entry],
) -> Result<(), Failure>
    ensures { Gives (λ x. x) result
        (exports_in_scope interfaces.now imported.now exported.now 0 entries.now) }
{
    for (index, entry) in entries.iter().enumerate() {
        if !export_in_scope(interfaces, imported, exported, &entry.item) {
            return under_index(alloc, index, Err(fault_here(alloc)));
        }
    }
    Ok(())
}

/// All items name only interfaces that they may name.
#[tactic(auto, unfolding(crate::specs::Rules::rules_hold))]
pub(crate) fn check_rules(
    alloc: Global,
    interfaces: &Interfaces,
    imported: &InterfaceSet,
    exported: &InterfaceSet,
    imports: &[Entry],
    exports: &[Entry],
) -> Result<(), Failure>
    ensures { Gives (λ x. x) result
        (rules_hold interfaces.now imported.now exported.now imports.now exports.now) }
{
    let checked = check_imports(alloc, interfaces, imported, imports);
    under(alloc, "imports", checked)?;
    let checked = check_exports(alloc, interfaces, imported, exported, exports);
    under(alloc, "exports", checked)
}
