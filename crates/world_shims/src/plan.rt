//! The shims that the user modules need.

ghost use Rattle.std.specs.Prelude.{◌≡◌, [], map, IfOk, OnOk, IfErr};
ghost use Rattle.std.specs.List.{flat_map};
ghost use Rattle.shim_plan.specs.Encodings.{Explains, unencoded};
ghost use Rattle.wit_data.specs.Sound.{IsSound};
ghost use Rattle.shim_plan.specs.Needed.{needed, AreAllReturned};
ghost use Rattle.shim_plan.specs.Plans.{with_needed};
ghost use Rattle.world_shims.specs.WorldShims.{adapter_at, modules_in, shims_of};

use comp_worlds::{ComponentWorld, CustomModule};
use shim_plan::{ShimFault, Shims};
use std::alloc::Global;

/// Appends the shims that the adapters need, in order.
#[tactic(auto, using(crate::proofs::Planned::all_appended, crate::proofs::Planned::all_encoded))]
fn append_adapters(shims: &mut Shims, world: &ComponentWorld) -> Result<(), ShimFault>
    requires sound { IsSound world.now.resolve }
    requires returned { AreAllReturned world.now }
    ensures ok { OnOk result (shims.new
        ≡ with_needed shims.old
        (flat_map (needed world.now) (map adapter_at world.now.adapters))) }
    ensures encoded { OnOk result
        (flat_map (unencoded world.now) (map adapter_at world.now.adapters) ≡ []) }
    ensures cause { IfErr result
        (Explains (flat_map (unencoded world.now) (map adapter_at world.now.adapters))) }
{
    for (name, _) in world.adapters.iter() {
        shims.append_indirect(world, CustomModule::Adapter(name.as_str()))?;
    }
    Ok(())
}

/// The shims that the user modules need, in order: [`Shims::append_indirect`] of main, and then of
/// each adapter, to no shims. It is refused as that is: with [`ShimFault::NoEncoding`] for the
/// first import that needs a shim of its own and has no string encoding, and with
/// [`ShimFault::Memory`] when out of memory.
#[tactic(auto, using(crate::proofs::Planned::main_and_more, crate::proofs::Planned::main_refused, crate::proofs::Planned::more_refused, crate::proofs::Planned::both_encoded))]
pub fn plan_shims(alloc: Global, world: &ComponentWorld) -> Result<Shims, ShimFault>
    requires sound { IsSound world.now.resolve }
    requires returned { AreAllReturned world.now }
    ensures ok { IfOk result (λ shims. shims ≡ shims_of world.now) }
    ensures encoded { OnOk result (flat_map (unencoded world.now) (modules_in world.now) ≡ []) }
    ensures cause { IfErr result
        (Explains (flat_map (unencoded world.now) (modules_in world.now))) }
{
    let mut shims = Shims::new(alloc);
    shims.append_indirect(world, CustomModule::Main)?;
    append_adapters(&mut shims, world)?;
    Ok(shims)
}
