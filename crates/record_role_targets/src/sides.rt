//! The two sides of a resolved world.

ghost use Rattle.std.specs.Prelude.{◌≡◌};
ghost use Rattle.std.specs.Option.{option_copied};
ghost use Rattle.record_role_targets.specs.Sides.{ids_of, interface_of, interface_keys, items_in, items_of, item_at};

use comp_lists::Keyed;
use record_resolve::Resolved;
use record_values::InterfaceName;
use wit_data::{InterfaceId, World, WorldItem, WorldKey};

/// A side of a world: its imports, or its exports.
#[derive(Clone, Copy, Debug, PartialEq, Eq)]
pub enum Side {
    Imported,
    Exported,
}

fn ids_of(resolved: &Resolved, side: Side) -> &Keyed<InterfaceName, InterfaceId>
    ensures { result.now ≡ ids_of side resolved.now }
{
    match side {
        Side::Imported => &resolved.imported,
        Side::Exported => &resolved.exported,
    }
}

/// The interface that a side of the world has under a name.
pub(crate) fn interface_of(
    resolved: &Resolved,
    side: Side,
    name: &InterfaceName,
) -> Option<InterfaceId>
    ensures { result ≡ interface_of side resolved.now name.now }
{
    ids_of(resolved, side).get(name).copied()
}

/// The first key of each interface of a side.
pub(crate) fn interface_keys(resolved: &Resolved, side: Side) -> &Keyed<InterfaceId, WorldKey>
    ensures { result.now ≡ interface_keys side resolved.now }
{
    match side {
        Side::Imported => &resolved.imported_keys,
        Side::Exported => &resolved.exported_keys,
    }
}

fn items_in(world: &World, side: Side) -> &Keyed<WorldKey, WorldItem>
    ensures { result.now ≡ items_in side world.now }
{
    match side {
        Side::Imported => &world.imports,
        Side::Exported => &world.exports,
    }
}

/// The item at a key of a side of the world.
pub(crate) fn item_at<'a>(
    resolved: &'a Resolved,
    side: Side,
    key: &WorldKey,
) -> Option<&'a WorldItem>
    ensures { option_copied result ≡ item_at side resolved.now key.now }
{
    let world = resolved.resolve.worlds.as_slice().get(0)?;
    items_in(world, side).get(key)
}
