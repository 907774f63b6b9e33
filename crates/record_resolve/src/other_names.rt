//! Interfaces that became others, by their old names.

ghost use Rattle.std.specs.Prelude.{◌≡◌, OnOk};
ghost use Rattle.record_resolve.specs.OtherNames.{with_other_name, with_other_names, also_named};

use crate::resolving::Resolved;
use comp_lists::{Keyed, TryClone};
use record_values::InterfaceName;
use std::alloc::{AllocError, Global};
use wit_data::InterfaceId;

fn add_other_name(
    alloc: Global,
    ids: &mut Keyed<InterfaceName, InterfaceId>,
    old: &InterfaceName,
    new: &InterfaceName,
) -> Result<(), AllocError>
    ensures { OnOk result (ids.new ≡ with_other_name ids.old old.now new.now) }
{
    match ids.get(new).copied() {
        Some(id) => ids.insert_if_absent(old.try_clone(alloc)?, id),
        None => Ok(()),
    }
}

fn add_other_names(
    alloc: Global,
    ids: &mut Keyed<InterfaceName, InterfaceId>,
    renames: &Keyed<InterfaceName, InterfaceName>,
) -> Result<(), AllocError>
    ensures { OnOk result (ids.new ≡ with_other_names ids.old renames.now) }
{
    for (old, new) in renames.iter() {
        add_other_name(alloc, ids, old, new)?;
    }
    Ok(())
}

impl Resolved {
    /// Adds the old names of the imported interfaces that became others, each with the interface that
    /// it became. If that one is not imported, the old name is not added. The only refusal is out of
    /// memory.
    pub fn add_other_names(
        &mut self,
        alloc: Global,
        renames: &Keyed<InterfaceName, InterfaceName>,
    ) -> Result<(), AllocError>
        ensures { OnOk result (self.new ≡ also_named renames.now self.old) }
    {
        add_other_names(alloc, &mut self.imported, renames)
    }
}
