//! The keys of interfaces.

ghost use Rattle.std.specs.Prelude.{◌≡◌, [], IfOk, OnOk};
ghost use Rattle.record_resolve.specs.InterfaceKeys.{with_key, keys_after};

use crate::worlds::Items;
use comp_lists::{Keyed, TryClone};
use std::alloc::{AllocError, Global};
use wit_data::{InterfaceId, World, WorldItem, WorldKey};

/// Keys by interface.
pub(crate) type InterfaceKeys = Keyed<InterfaceId, WorldKey>;

/// The first key of each interface, among the imports and among the exports.
#[derive(Drop)]
pub(crate) struct WorldKeys {
    pub imported: InterfaceKeys,
    pub exported: InterfaceKeys,
}

fn add_key(
    alloc: Global,
    keys: &mut InterfaceKeys,
    key: &WorldKey,
    item: &WorldItem,
) -> Result<(), AllocError>
    ensures { OnOk result (keys.new ≡ with_key keys.old key.now item.now) }
{
    match item {
        WorldItem::Interface(id) => keys.insert_if_absent(*id, key.try_clone(alloc)?),
        WorldItem::Function(_) => Ok(()),
        WorldItem::NamedType(_) => Ok(()),
    }
}

/// The first key of each interface on a side. The only refusal is out of memory.
fn first_keys(alloc: Global, items: &Items) -> Result<InterfaceKeys, AllocError>
    ensures { IfOk result (λ ks. ks ≡ keys_after [] items.now) }
{
    let mut keys = Keyed::new(alloc);
    for (key, item) in items.iter() {
        add_key(alloc, &mut keys, key, item)?;
    }
    Ok(keys)
}

/// The first key of each interface, on both sides. The only refusal is out of memory.
pub(crate) fn keys_of_world(alloc: Global, world: &World) -> Result<WorldKeys, AllocError>
    ensures { IfOk result (λ ks. ks
        ≡ record {
          imported = keys_after [] world.now.imports;
          exported = keys_after [] world.now.exports;
        }) }
{
    let imported = first_keys(alloc, &world.imports)?;
    let exported = first_keys(alloc, &world.exports)?;
    Ok(WorldKeys { imported, exported })
}
