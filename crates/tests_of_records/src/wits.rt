//! Pieces of worlds by names.

use comp_lists::{Keyed, SharedText};
use record_values::{InterfaceName, Item, ItemKey, Wit};
use std::alloc::{AllocError, Global};

/// A world with nothing in it.
pub(crate) fn empty(alloc: Global) -> Wit {
    Wit {
        interfaces: Keyed::new(alloc),
        imports: Keyed::new(alloc),
        exports: Keyed::new(alloc),
    }
}

/// The name of an interface with an id.
pub(crate) fn name(alloc: Global, id: &str) -> Result<InterfaceName, AllocError> {
    match SharedText::from_str(alloc, id) {
        Ok(id) => Ok(InterfaceName::Id(id)),
        Err(refused) => Err(refused),
    }
}

fn key(alloc: Global, id: &str) -> Result<ItemKey, AllocError> {
    match SharedText::from_str(alloc, id) {
        Ok(id) => Ok(ItemKey::Interface(id)),
        Err(refused) => Err(refused),
    }
}

/// Adds an interface to the imports or the exports, where it is there.
pub(crate) fn add_item(
    alloc: Global,
    items: &mut Keyed<ItemKey, Item>,
    id: &str,
    is_there: bool,
) -> Result<(), AllocError> {
    if !is_there {
        return Ok(());
    }
    let key = key(alloc, id)?;
    items.insert_if_absent(key, Item::Interface(name(alloc, id)?))
}
