//! The functions at the root of the world that core modules use.

ghost use Rattle.std.specs.Prelude.{◌≡◌, ◌||◌, ℕ, List, IfOk, OnOk, is_some};
ghost use Rattle.comp_lists.specs.Found.{found};
ghost use Rattle.std.specs.List.{list_any};
ghost use Rattle.comp_links.specs.Roles.{is_used, is_any_import, uses_from};

use comp_lists::{Keyed, Text};
use comp_worlds::{ComponentWorld, Import, ImportInstance};
use std::alloc::{AllocError, Global};
use wit_data::WorldKey;

/// Adds the root functions that these imports use.
#[tactic(auto, using(crate::proofs::Indexing::used_step))]
fn add_used(
    alloc: Global,
    used: &mut Keyed<Text, ()>,
    fields: &Keyed<Text, Import>,
) -> Result<(), AllocError>
    ensures { OnOk result ((text : List ℕ)
        → is_some (found text used.new)
        ≡ (is_some (found text used.old) || is_any_import text fields.now)) }
{
    for (_, import) in fields.iter() {
        match import {
            Import::WorldFunc(WorldKey::Name(function), _, _) => {
                used.insert_if_absent(function.clone(alloc)?, ())?;
            }
            _ => {}
        }
    }
    Ok(())
}

/// Adds the root functions that the imports of a module use.
#[tactic(auto, using(comp_links::proofs::Groups::or_assoc))]
fn add_used_by(
    alloc: Global,
    used: &mut Keyed<Text, ()>,
    modules: &Keyed<Text, ImportInstance>,
) -> Result<(), AllocError>
    ensures { OnOk result ((text : List ℕ)
        → is_some (found text used.new)
        ≡ (is_some (found text used.old) || list_any (uses_from text) modules.now)) }
{
    for (_, instance) in modules.iter() {
        if let ImportInstance::Names(fields) = instance {
            add_used(alloc, used, fields)?;
        }
    }
    Ok(())
}

/// The root functions that imports of user modules use.
#[tactic(auto, using(comp_links::proofs::Groups::after_main, comp_links::proofs::Groups::after_adapter))]
pub(crate) fn used_functions(
    alloc: Global,
    world: &ComponentWorld,
) -> Result<Keyed<Text, ()>, AllocError>
    ensures { IfOk result
        (λ used. (text : List ℕ) → is_some (found text used) ≡ is_used world.now text) }
{
    let mut used = Keyed::new(alloc);
    add_used_by(alloc, &mut used, &world.main.imports.modules)?;
    for (_, adapter) in world.adapters.iter() {
        add_used_by(alloc, &mut used, &adapter.info.imports.modules)?;
    }
    Ok(used)
}
