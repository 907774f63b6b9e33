//! The interfaces whose types exported interfaces may use: those that a world imports or exports.
//!
//! The sets of both are made once for a world. Whether the types of an interface may be used is then two look-ups.

ghost use Rattle.std.specs.Prelude.{◌≡◌, IfOk};
ghost use Rattle.supported_worlds.specs.Lent.{lends, HasInterfaces, AreLent};

use comp_lists::Keyed;
use std::alloc::{AllocError, Global};
use wit_data::{InterfaceId, World, WorldItem, WorldKey};

/// The interfaces that a world imports, and those that it exports.
pub(crate) struct Lent {
    pub imported: Keyed<InterfaceId, ()>,
    pub exported: Keyed<InterfaceId, ()>,
}

impl Drop for Lent {
    fn drop(self) {
        let Lent {
            imported: _,
            exported: _,
        } = self;
    }
}

/// The interfaces among these imports or exports.
#[tactic(auto, using(crate::proofs::Lending::set_start, crate::proofs::Lending::set_interface, crate::proofs::Lending::set_function, crate::proofs::Lending::set_type, crate::proofs::Lending::set_end))]
fn interfaces_among(
    alloc: Global,
    items: &Keyed<WorldKey, WorldItem>,
) -> Result<Keyed<InterfaceId, ()>, AllocError>
    ensures { IfOk result (HasInterfaces items.now) }
{
    let mut set = Keyed::new(alloc);
    for (_, item) in items.iter() {
        if let WorldItem::Interface(id) = item {
            set.insert_if_absent(*id, ())?;
        }
    }
    Ok(set)
}

/// The interfaces whose types exported interfaces of a world may use. The time is linear in the
/// number of the world's imports and exports.
#[tactic(auto, using(crate::proofs::Lending::are_lent))]
pub(crate) fn lent_interfaces(alloc: Global, world: &World) -> Result<Lent, AllocError>
    ensures { IfOk result (AreLent world.now) }
{
    let imported = interfaces_among(alloc, &world.imports)?;
    let exported = interfaces_among(alloc, &world.exports)?;
    Ok(Lent { imported, exported })
}

/// Whether exported interfaces may use the types of an interface.
pub(crate) fn lends(lent: &Lent, id: InterfaceId) -> bool
    ensures { result ≡ lends lent.now id }
{
    lent.imported.contains_key(&id) || lent.exported.contains_key(&id)
}
