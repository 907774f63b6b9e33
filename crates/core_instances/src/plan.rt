//! The shims of a world, and the type of its cell for the thread-local base.

ghost use Rattle.std.specs.Prelude.{◌≡◌, IfOk, IfErr, OnOk};
ghost use Rattle.comp_worlds.specs.Bases.{cell_type, AreBasesAlike};
ghost use Rattle.comp_worlds.specs.Encodable.{IsEncodable};
ghost use Rattle.core_instances.specs.Instances.{of_plan};
ghost use Rattle.core_options.specs.Causes.{IsCause};
ghost use Rattle.world_shims.specs.WorldShims.{shims_of};

use comp_worlds::ComponentWorld;
use core_options::StateFault;
use core_types::ValType;
use shim_plan::{ShimFault, Shims};
use std::alloc::Global;
use world_shims::type_of_cell;

/// Why shims can't be planned, as a fault of the encoding.
fn plan_fault(fault: ShimFault) -> StateFault
    ensures { result ≡ of_plan fault }
{
    match fault {
        ShimFault::Memory => StateFault::Memory,
        ShimFault::NoEncoding { place } => StateFault::NoEncoding { place },
    }
}

/// The shims that the user modules need, in order.
///
/// `E9` for the first import that needs a shim and has no string encoding.
pub(crate) fn plan_shims(alloc: Global, world: &ComponentWorld) -> Result<Shims, StateFault>
    requires { IsEncodable world.now }
    ensures ok { IfOk result (λ shims. shims ≡ shims_of world.now) }
    ensures cause { IfErr result (IsCause world.now) }
{
    match world_shims::plan_shims(alloc, world) {
        Ok(shims) => Ok(shims),
        Err(fault) => Err(plan_fault(fault)),
    }
}

/// The type of what the cell for the thread-local base holds, where a user module uses one.
///
/// `E6` where two of them name different types.
pub(crate) fn plan_cell(world: &ComponentWorld) -> Result<Option<ValType>, StateFault>
    ensures ok { IfOk result (λ cell. cell ≡ cell_type world.now) }
    ensures alike { OnOk result (AreBasesAlike world.now) }
    ensures cause { IfErr result (IsCause world.now) }
{
    match type_of_cell(world) {
        Ok(cell) => Ok(cell),
        Err(_) => Err(StateFault::TlsTypes),
    }
}
