//! Whether the adapters that an adapter names are instantiated before it.

ghost use Rattle.std.specs.Prelude.{◌≡◌, None, IfErr, OnOk};
ghost use Rattle.comp_worlds.specs.Absent.{absent_adapter};
ghost use Rattle.core_options.specs.Causes.{IsMadeRefusal};

use crate::fault::StateFault;
use comp_lists::{Keyed, Text};
use comp_worlds::{WorldAdapter, absent_adapter};
use std::alloc::Global;

/// Checks that each adapter which the adapter of a name names has an instance in a table: in its
/// arguments, used or not, and where its imports are given a whole instance or an item.
///
/// `E10` where one has none, with the first of these.
pub fn check_made(
    alloc: Global,
    made: &Keyed<Text, u32>,
    name: &Text,
    adapter: &WorldAdapter,
) -> Result<(), StateFault>
    ensures made { OnOk result (absent_adapter made.now adapter.now ≡ None) }
    ensures cause { IfErr result (IsMadeRefusal made.now name.now adapter.now) }
{
    match absent_adapter(made, adapter) {
        None => Ok(()),
        Some(other) => {
            let module = name.clone(alloc)?;
            let name = other.clone(alloc)?;
            Err(StateFault::NotYetMade { module, name })
        }
    }
}
