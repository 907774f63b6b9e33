//! Imports and exports of instances: interfaces.
//!
//! Component model, binary format: `importdecl`, `exportdecl`; explainer: `importname`, `exportname`.

ghost use Rattle.std.specs.Prelude.{◌≡◌, ℕ, slice_get, None, Ok, OnOk, IfOk};
ghost use Rattle.std.specs.Map.{lookup};
ghost use Rattle.record_values.specs.Names.{is_same_interface};
ghost use Rattle.wit_packages.specs.Steps.{Gives, own, has_colon, interface_name, interface_key, named_interface, with_interface, with_instance, interface_step, interface_at, place_interface, instance_step};

use crate::fault::{StepFault, Wrong};
use crate::state::{Instance, Side, State};
use crate::steps::{item_step, own_name, refused};
use comp_bytes::ExternName;
use comp_lists::{Keyed, SharedText, Text, TryClone};
use package_types::{Cause, Entry};
use record_values::{Interface, InterfaceName, Item, ItemKey, rename_interface};
use std::alloc::{AllocError, Global};

fn has_colon(bytes: &[u8]) -> bool
    ensures { result ≡ has_colon bytes.now }
{
    for byte in bytes {
        if *byte == b':' {
            return true;
        }
    }
    false
}

/// The name of an interface that is imported or exported under this name.
fn interface_name(alloc: Global, side: Side, name: &Text) -> Result<InterfaceName, AllocError>
    ensures { IfOk result (λ n. n ≡ interface_name side name.now) }
{
    let text = SharedText::from_str(alloc, name.as_str())?;
    if has_colon(name.as_str().as_bytes()) {
        return Ok(InterfaceName::Id(text));
    }
    match side {
        Side::Import => Ok(InterfaceName::Imported(text)),
        Side::Export => Ok(InterfaceName::Exported(text)),
    }
}

fn interface_key(alloc: Global, name: &Text) -> Result<ItemKey, AllocError>
    ensures { IfOk result (λ k. k ≡ interface_key name.now) }
{
    if has_colon(name.as_str().as_bytes()) {
        return Ok(ItemKey::Interface(SharedText::from_str(alloc, name.as_str())?));
    }
    Ok(ItemKey::Name(name.clone(alloc)?))
}

/// An interface in which its own types have its name.
fn named_interface(
    alloc: Global,
    name: &InterfaceName,
    interface: &Interface,
) -> Result<Interface, AllocError>
    ensures { IfOk result (λ i. i ≡ named_interface name.now interface.now) }
{
    let mut renames = Keyed::new(alloc);
    renames.insert_if_absent(InterfaceName::Unused(0), name.try_clone(alloc)?)?;
    rename_interface(alloc, &renames, interface)
}

/// The interface of the instance type at an index, in which its own types have this name.
fn interface_of(
    alloc: Global,
    scope: &[Entry],
    index: u32,
    name: &InterfaceName,
) -> Result<Interface, StepFault>
    ensures { Gives (λ i. i) result (own (interface_at name.now (slice_get scope.now index))) }
{
    match scope.get(index as usize) {
        Some(Entry::Instance(content)) => Ok(named_interface(alloc, name, &content.interface)?),
        _ => Err(refused(Cause::Index)),
    }
}

fn add_instance(state: &mut State, name: InterfaceName, ty: u32) -> Result<(), AllocError>
    ensures { OnOk result (state.new ≡ with_instance state.old name ty) }
{
    Ok(state.instances.push(Instance { name, ty })?)
}

/// Adds an interface that is not there yet.
fn add_interface(
    alloc: Global,
    state: &mut State,
    name: &InterfaceName,
    ty: u32,
    interface: Interface,
) -> Result<(), AllocError>
    requires { lookup (is_same_interface name.now) state.old.interfaces ≡ None }
    ensures { OnOk result (state.new ≡ with_interface state.old name.now ty interface) }
{
    let key = name.try_clone(alloc)?;
    let name = name.try_clone(alloc)?;
    state.interfaces.insert(key, interface)?;
    Ok(state.instances.push(Instance { name, ty })?)
}

/// Adds an instance of an interface of this name.
#[tactic(auto, unfolding(crate::specs::Steps::interface_step))]
fn interface_step(
    alloc: Global,
    state: &mut State,
    name: &InterfaceName,
    ty: u32,
    interface: Interface,
) -> Result<(), StepFault>
    ensures { Gives (λ _. state.new) result (interface_step state.old name.now ty interface) }
{
    match state.interfaces.get(name) {
        Some(other) => {
            if *other != interface {
                return Err(StepFault::Refused(Wrong::Different));
            }
            Ok(add_instance(state, name.try_clone(alloc)?, ty)?)
        }
        None => Ok(add_interface(alloc, state, name, ty, interface)?),
    }
}

/// Adds an instance of an interface, and the item of a side that is its import or export.
#[tactic(auto, unfolding(crate::specs::Steps::place_interface))]
fn place_interface(
    alloc: Global,
    side: Side,
    state: &mut State,
    key: ItemKey,
    name: InterfaceName,
    ty: u32,
    interface: Interface,
) -> Result<(), StepFault>
    ensures { Gives (λ _. state.new) result (place_interface side state.old key name ty interface) }
{
    interface_step(alloc, state, &name, ty, interface)?;
    item_step(side, state, key, Item::Interface(name))
}

/// Adds the import or the export of an instance of the type at an index.
#[tactic(auto, unfolding(crate::specs::Steps::instance_step))]
pub(crate) fn instance_step(
    alloc: Global,
    side: Side,
    state: &mut State,
    name: &ExternName,
    index: u32,
) -> Result<(), StepFault>
    ensures { Gives (λ _. state.new) result (instance_step side state.old name.now index) }
{
    let text = own_name(alloc, name)?;
    let key = interface_key(alloc, &text)?;
    let name = interface_name(alloc, side, &text)?;
    drop(text);
    let interface = interface_of(alloc, state.scope.as_slice(), index, &name)?;
    place_interface(alloc, side, state, key, name, index, interface)
}
