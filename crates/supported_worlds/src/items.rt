//! What of a world's imports and exports is not encoded yet.

ghost use Rattle.std.specs.Prelude.{◌≡◌};
ghost use Rattle.std.specs.List.{IsDistinct};
ghost use Rattle.std.specs.Map.{keys_of};
ghost use Rattle.std.specs.Option.{option_copied};
ghost use Rattle.wit_data.specs.Keys.{is_same_key};
ghost use Rattle.comp_roles.specs.Lookups.{first_some};
ghost use Rattle.supported_worlds.specs.Apart.{ItemsApart};
ghost use Rattle.supported_worlds.specs.LeftOut.{import_item_left_out, export_item_left_out, world_left_out};

use comp_lists::Keyed;
use wit_data::{World, WorldItem, WorldKey};

fn export_item_left_out(key: &WorldKey, item: &WorldItem) -> Option<&'static str>
    ensures { option_copied result ≡ export_item_left_out (key.now, item.now) }
{
    match (key, item) {
        (WorldKey::Name(_), WorldItem::Function(_)) => None,
        (WorldKey::Interface(_), WorldItem::Function(_)) => Some("interface"),
        (_, WorldItem::Interface(_)) => None,
        (_, WorldItem::NamedType(_)) => Some("type"),
    }
}

fn import_item_left_out(key: &WorldKey, item: &WorldItem) -> Option<&'static str>
    ensures { option_copied result ≡ import_item_left_out (key.now, item.now) }
{
    match (key, item) {
        (WorldKey::Name(_), WorldItem::NamedType(_)) => None,
        _ => export_item_left_out(key, item),
    }
}

/// What of the imports of a world is left out; their keys are apart.
fn imports_left_out(items: &Keyed<WorldKey, WorldItem>) -> Option<&'static str>
    ensures reported { option_copied result ≡ first_some import_item_left_out items.now }
    ensures apart { IsDistinct is_same_key (keys_of items.now) }
{
    for (key, item) in items.iter() {
        if let Some(what) = import_item_left_out(key, item) {
            return Some(what);
        }
    }
    None
}

/// What of the exports of a world is left out; their keys are apart.
fn exports_left_out(items: &Keyed<WorldKey, WorldItem>) -> Option<&'static str>
    ensures reported { option_copied result ≡ first_some export_item_left_out items.now }
    ensures apart { IsDistinct is_same_key (keys_of items.now) }
{
    for (key, item) in items.iter() {
        if let Some(what) = export_item_left_out(key, item) {
            return Some(what);
        }
    }
    None
}

/// What of a world's imports and exports is left out; its keys are apart.
pub(crate) fn world_left_out(world: &World) -> Option<&'static str>
    ensures reported { option_copied result ≡ world_left_out world.now }
    ensures apart { ItemsApart world.now }
{
    imports_left_out(&world.imports).or(exports_left_out(&world.exports))
}
