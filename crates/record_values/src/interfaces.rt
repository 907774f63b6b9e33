//! The interfaces among the items of a world's side.

ghost use Rattle.std.specs.Prelude.{◌≡◌, [], IfOk, OnOk};
ghost use Rattle.record_values.specs.Interfaces.{with_item, interfaces_after};

use crate::names::InterfaceName;
use crate::world::{Item, ItemKey};
use comp_lists::{Keyed, TryClone};
use std::alloc::{AllocError, Global};

/// Interfaces, each once.
pub type Interfaces = Keyed<InterfaceName, ()>;

fn add_item(alloc: Global, interfaces: &mut Interfaces, item: &Item) -> Result<(), AllocError>
    ensures { OnOk result (interfaces.new ≡ with_item interfaces.old item.now) }
{
    match item {
        Item::Interface(name) => interfaces.insert_if_absent(name.try_clone(alloc)?, ()),
        Item::Function(_) => Ok(()),
        Item::Type(_) => Ok(()),
    }
}

/// The interfaces among the items of a world's side, each once, in the order of the items. The only
/// error is out of memory.
pub fn interfaces_among(
    alloc: Global,
    items: &Keyed<ItemKey, Item>,
) -> Result<Interfaces, AllocError>
    ensures { IfOk result (λ is. is ≡ interfaces_after [] items.now) }
{
    let mut interfaces = Keyed::new(alloc);
    for (_key, item) in items.iter() {
        add_item(alloc, &mut interfaces, item)?;
    }
    Ok(interfaces)
}
