//! The functions that roles name.

ghost use Rattle.std.specs.Prelude.{◌≡◌};
ghost use Rattle.std.specs.Option.{option_copied};
ghost use Rattle.world_values.specs.Items.{root_function_at};
ghost use Rattle.record_core_types.specs.Asked.{imported_function, exported_function, function_of, exported_interface};

use comp_lists::{Keyed, Text};
use wit_data::{Function, InterfaceId, Resolve, WorldId, WorldItem, WorldKey};

/// The function that a world has at its root at a key.
fn root_function<'a>(
    entries: &'a Keyed<WorldKey, WorldItem>,
    key: &WorldKey,
) -> Option<&'a Function>
    ensures { option_copied result ≡ root_function_at entries.now key.now }
{
    match entries.get(key) {
        Some(WorldItem::Function(function)) => Some(function),
        _ => None,
    }
}

/// The function that a world imports at its root at a key.
pub(crate) fn imported_function<'a>(
    resolve: &'a Resolve,
    world: WorldId,
    key: &WorldKey,
) -> Option<&'a Function>
    ensures { option_copied result ≡ imported_function resolve.now world key.now }
{
    let world = resolve.worlds.as_slice().get(world.index)?;
    root_function(&world.imports, key)
}

/// The function that a world exports at its root at a key.
pub(crate) fn exported_function<'a>(
    resolve: &'a Resolve,
    world: WorldId,
    key: &WorldKey,
) -> Option<&'a Function>
    ensures { option_copied result ≡ exported_function resolve.now world key.now }
{
    let world = resolve.worlds.as_slice().get(world.index)?;
    root_function(&world.exports, key)
}

/// The function of an interface by its name.
pub(crate) fn function_of<'a>(
    resolve: &'a Resolve,
    interface: InterfaceId,
    name: &Text,
) -> Option<&'a Function>
    ensures { option_copied result ≡ function_of resolve.now interface name.now }
{
    let interface = resolve.interfaces.as_slice().get(interface.index)?;
    interface.functions.get(name)
}

/// The interface that a world exports at a key.
pub(crate) fn exported_interface(
    resolve: &Resolve,
    world: WorldId,
    key: &WorldKey,
) -> Option<InterfaceId>
    ensures { result ≡ exported_interface resolve.now world key.now }
{
    let world = resolve.worlds.as_slice().get(world.index)?;
    match world.exports.get(key)? {
        WorldItem::Interface(id) => Some(*id),
        _ => None,
    }
}
