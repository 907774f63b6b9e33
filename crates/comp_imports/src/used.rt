//! The functions of interfaces that core modules use.

ghost use Rattle.std.specs.Prelude.{◌≡◌, ◌≢◌, ◌||◌, ◌&&◌, ℕ, List, [], IfOk, OnOk, is_some, MatchBool};
ghost use Rattle.std.specs.Str.{bytes_eq};
ghost use Rattle.comp_lists.specs.Found.{found};
ghost use Rattle.std.specs.Map.{lookup};
ghost use Rattle.std.specs.List.{list_any};
ghost use Rattle.comp_links.specs.Roles.{is_named, interface_function};
ghost use Rattle.wit_data.specs.Sound.{HasInterface};
ghost use Rattle.interface_needs.specs.Needs.{AreUsedNames, AreFunctionsApart};
ghost use Rattle.comp_imports.specs.Interfaces.{is_same_function, uses_function, AreInterfaceUses};

use crate::interface_function::InterfaceFunction;
use comp_lists::{Keyed, Text};
use comp_worlds::{ComponentWorld, Import, ImportInstance};
use std::alloc::{AllocError, Global};
use wit_data::{InterfaceId, TypeId};

/// Adds the functions of interfaces that these imports use.
#[tactic(auto, using(crate::proofs::UsedFunctions::interface_step))]
fn add_interface_functions(
    alloc: Global,
    uses: &mut Keyed<InterfaceFunction, ()>,
    fields: &Keyed<Text, Import>,
) -> Result<(), AllocError>
    ensures { OnOk result ((k : InterfaceFunction)
        → is_some (lookup (is_same_function k) uses.new)
        ≡ (is_some (lookup (is_same_function k) uses.old) || list_any
        (λ f. is_named k.name (interface_function k.interface f.1)) fields.now)) }
{
    for (_, import) in fields.iter() {
        match import {
            Import::InterfaceFunc(_, interface, function, _) => {
                let name = function.clone(alloc)?;
                uses.insert_if_absent(
                    InterfaceFunction {
                        interface: *interface,
                        name,
                    },
                    (),
                )?;
            }
            _ => {}
        }
    }
    Ok(())
}

/// Adds the functions of interfaces that the imports of a module use.
#[tactic(auto, using(comp_links::proofs::Groups::or_assoc))]
fn add_uses_by(
    alloc: Global,
    uses: &mut Keyed<InterfaceFunction, ()>,
    modules: &Keyed<Text, ImportInstance>,
) -> Result<(), AllocError>
    ensures { OnOk result ((k : InterfaceFunction)
        → is_some (lookup (is_same_function k) uses.new)
        ≡ (is_some (lookup (is_same_function k) uses.old)
        || list_any (uses_function k) modules.now)) }
{
    for (_, instance) in modules.iter() {
        if let ImportInstance::Names(fields) = instance {
            add_interface_functions(alloc, uses, fields)?;
        }
    }
    Ok(())
}

/// The functions of interfaces that imports of user modules use.
#[tactic(auto, using(comp_links::proofs::Groups::after_main, comp_links::proofs::Groups::after_adapter))]
pub(crate) fn interface_uses(
    alloc: Global,
    world: &ComponentWorld,
) -> Result<Keyed<InterfaceFunction, ()>, AllocError>
    ensures { IfOk result (AreInterfaceUses world.now) }
{
    let mut uses = Keyed::new(alloc);
    add_uses_by(alloc, &mut uses, &world.main.imports.modules)?;
    for (_, adapter) in world.adapters.iter() {
        add_uses_by(alloc, &mut uses, &adapter.info.imports.modules)?;
    }
    Ok(uses)
}

/// Adds the name of a function of an interface, if it is among those that are used.
#[tactic(auto, using(crate::proofs::UsedFunctions::naming))]
fn add_if_used(
    alloc: Global,
    used: &mut Keyed<Text, ()>,
    uses: &Keyed<InterfaceFunction, ()>,
    interface: InterfaceId,
    function: &Text,
) -> Result<(), AllocError>
    ensures { OnOk result ((text : List ℕ)
        → is_some (found text used.new)
        ≡ (is_some (found text used.old) || (bytes_eq text function.now
        && is_some (lookup (is_same_function
        (record { interface = interface; name = function.now }))
        uses.now)))) }
{
    let name = function.clone(alloc)?;
    let key = InterfaceFunction { interface, name };
    if uses.contains_key(&key) {
        used.insert_if_absent(function.clone(alloc)?, ())?;
    }
    Ok(())
}

/// The names of those functions of an interface that imports of user modules use.
pub(crate) fn used_names(
    alloc: Global,
    world: &ComponentWorld,
    uses: &Keyed<InterfaceFunction, ()>,
    interface: InterfaceId,
) -> Result<Keyed<Text, ()>, AllocError>
    requires present { HasInterface world.now.resolve interface }
    requires uses { AreInterfaceUses world.now uses.now }
    ensures used { IfOk result (AreUsedNames world.now interface) }
    ensures apart { IfOk result (λ _. AreFunctionsApart world.now interface) }
{
    let mut used = Keyed::new(alloc);
    for (name, _) in world.resolve.interfaces.as_slice()[interface.index]
        .functions
        .iter()
    {
        add_if_used(alloc, &mut used, uses, interface, name)?;
    }
    Ok(used)
}

/// Whether nothing of an interface is needed: none of its types, and none of its functions.
pub(crate) fn is_unneeded(needed: &[TypeId], used: &Keyed<Text, ()>) -> bool
    ensures { MatchBool result ((needed.now ≡ []) × (used.now ≡ []))
        (needed.now ≡ [] → used.now ≢ []) }
{
    needed.is_empty() && used.iter().next().is_none()
}
