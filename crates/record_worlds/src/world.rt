//! What a record says of the world.

ghost use Rattle.std.specs.Prelude.{◌≡◌, IfOk};
ghost use Rattle.serde_json.specs.View.{view};
ghost use Rattle.json_paths.specs.Faults.{Gives};
ghost use Rattle.record_worlds.specs.Indexing.{indexed_from};
ghost use Rattle.record_worlds.specs.Worlds.{once_checked, sides_of, checked_sides, built_world, named_world_of, world_of};

use crate::indexing::index_interfaces;
use crate::items::{WorldItems, read_world_items};
use crate::naming::{Entry, Names, names_of, rename_entries};
use crate::rules::check_rules;
use crate::tables::{Interfaces, SideTable, table_interfaces, table_side};
use comp_lists::Seq;
use json_paths::Failure;
use record_sides::{IndexedInterface, RecordWorld, Side};
use record_types::ReadInterface;
use record_values::{Interface, Wit};
use serde_json::Value;
use std::alloc::{AllocError, Global};

/// The items of both sides by key.
#[derive(Drop)]
pub(crate) struct Sides {
    pub imports: SideTable,
    pub exports: SideTable,
}

#[tactic(auto, unfolding(crate::specs::Worlds::sides_of))]
fn table_sides(alloc: Global, imports: &[Entry], exports: &[Entry]) -> Result<Sides, Failure>
    ensures { Gives (λ s. s) result (sides_of imports.now exports.now) }
{
    let imports = table_side(alloc, Side::Import, imports)?;
    let exports = table_side(alloc, Side::Export, exports)?;
    Ok(Sides { imports, exports })
}

/// The value, if a check found no fault.
fn checked<T: Drop>(check: Result<(), Failure>, value: T) -> Result<T, Failure>
    ensures { result ≡ once_checked check value }
{
    match check {
        Ok(_) => Ok(value),
        Err(failure) => Err(failure),
    }
}

/// The items of both sides by key; each names only what it may.
#[tactic(auto, unfolding(crate::specs::Worlds::checked_sides))]
fn check_sides(
    alloc: Global,
    interfaces: &Interfaces,
    imports: &[Entry],
    exports: &[Entry],
) -> Result<Sides, Failure>
    ensures { Gives (λ s. s) result (checked_sides interfaces.now imports.now exports.now) }
{
    let sides = table_sides(alloc, imports, exports)?;
    let imported = &sides.imports.interfaces;
    let exported = &sides.exports.interfaces;
    let check = check_rules(alloc, interfaces, imported, exported, imports, exports);
    checked(check, sides)
}

/// The interfaces of a record by index, where the world has these sides.
fn index_sides(
    alloc: Global,
    names: &Names,
    all: &[ReadInterface],
    sides: &Sides,
) -> Result<Seq<IndexedInterface>, AllocError>
    ensures { IfOk result (λ p. p
        ≡ indexed_from names.now sides.now.imports.interfaces sides.now.exports.interfaces 0
        all.now) }
{
    let imported = &sides.imports.interfaces;
    let exported = &sides.exports.interfaces;
    index_interfaces(alloc, names, imported, exported, all)
}

/// The world of these interfaces and sides.
fn world_with(interfaces: Interfaces, sides: Sides, indexed: Seq<IndexedInterface>) -> RecordWorld
    ensures { result ≡ record {
      wit = record { interfaces = interfaces; imports = sides.imports.items; exports = sides.exports.items };
      interfaces = indexed;
    } }
{
    let Sides { imports, exports } = sides;
    RecordWorld {
        wit: Wit {
            interfaces,
            imports: imports.items,
            exports: exports.items,
        },
        interfaces: indexed,
    }
}

/// The world, from the items of its sides.
fn build_world(
    alloc: Global,
    names: &Names,
    all: &[ReadInterface],
    interfaces: Interfaces,
    sides: Result<Sides, Failure>,
) -> Result<RecordWorld, Failure>
    ensures { Gives (λ w. w) result (built_world names.now all.now interfaces sides) }
{
    match sides {
        Err(failure) => Err(failure),
        Ok(sides) => {
            let indexed = index_sides(alloc, names, all, &sides)?;
            Ok(world_with(interfaces, sides, indexed))
        }
    }
}

/// The world of these items, in which interfaces have these names.
#[tactic(auto, unfolding(crate::specs::Worlds::named_world_of))]
fn named_world(alloc: Global, names: &Names, read: &WorldItems) -> Result<RecordWorld, Failure>
    ensures { Gives (λ w. w) result
        (named_world_of ⟦<Interface as PartialEq>⟧.eq names.now read.now) }
{
    let all = read.interfaces.as_slice();
    let table = table_interfaces(alloc, names, all)?;
    let imports = rename_entries(alloc, names, read.imports.as_slice())?;
    let exports = rename_entries(alloc, names, read.exports.as_slice())?;
    let sides = check_sides(alloc, &table, imports.as_slice(), exports.as_slice());
    build_world(alloc, names, all, table, sides)
}

/// The world of a record, from the whole object: its members `interfaces`, `imports` and `exports`,
/// each of which may be left out. The other members are ignored.
#[tactic(auto, unfolding(crate::specs::Worlds::world_of))]
pub fn read_world(alloc: Global, value: Value) -> Result<RecordWorld, Failure>
    ensures { Gives (λ w. w) result (world_of ⟦<Interface as PartialEq>⟧.eq (view value)) }
{
    let read = read_world_items(alloc, value)?;
    let names = names_of(alloc, &read)?;
    named_world(alloc, &names, &read)
}
