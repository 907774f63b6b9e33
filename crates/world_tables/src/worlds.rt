//! A world with its tables.

ghost use Rattle.std.specs.Prelude.{◌≡◌, ◌<◌, length, get_or, IfOk};
ghost use Rattle.std.specs.List.{AllByRecursion};
ghost use Rattle.wit_data.specs.Sound.{IsSound, HasWorld};
ghost use Rattle.comp_worlds.specs.Uses.{all_imports};
ghost use Rattle.world_values.specs.Items.{no_items};
ghost use Rattle.world_values.specs.Mentions.{HasRole};
ghost use Rattle.comp_worlds.specs.WorldTables.{whole_of};

use crate::tables::tables_of;
use comp_worlds::{ComponentWorld, WorldParts};
use std::alloc::{AllocError, Global};
use wit_data::{Resolve, World, WorldId};

/// The imports and exports of a world.
#[tactic(auto, using(crate::proofs::Exists::world_sound))]
fn items_in(resolve: &Resolve, world: WorldId) -> &World
    requires sound { IsSound resolve.now }
    requires present { world.index < length resolve.now.worlds }
    ensures items { result.now ≡ get_or resolve.now.worlds world.index no_items }
    ensures sound { HasWorld resolve.now result.now }
{
    &resolve.worlds.as_slice()[world.index]
}

/// The world of these parts, with its tables. It takes time linear in the number of core imports, of interfaces
/// and of their functions; and, for each exported interface and once for all imported ones, in the number of
/// types and of their parts. Its only error is out of memory.
pub fn world_of_parts(alloc: Global, parts: WorldParts) -> Result<ComponentWorld, AllocError>
    requires sound { IsSound parts.resolve }
    requires present { parts.world.index < length parts.resolve.worlds }
    requires roles { AllByRecursion (λ i. HasRole parts.resolve i.role)
        (all_imports parts.main parts.adapters) }
    ensures { IfOk result (λ w. w ≡ whole_of parts) }
{
    let items = items_in(&parts.resolve, parts.world);
    let tables = tables_of(alloc, &parts.resolve, items, &parts.main, &parts.adapters)?;
    Ok(parts.with_tables(
        tables.import_map,
        tables.live_type_imports,
        tables.exports_used,
    ))
}
