//! What several modules say of their world.

ghost use Rattle.std.specs.Prelude.{◌≡◌, ◌≢◌, IfErr, IsOk};
ghost use Rattle.record_faults.specs.declared.fault.Failure.TheVariants as failures;
ghost use Rattle.record_faults.specs.declared.fault.PlainFault.{PlainFault};
ghost use Rattle.record_faults.specs.Faults.{Gives, flat};
ghost use Rattle.gathered_worlds.specs.Causes.{MergeCause};
ghost use Rattle.gathered_worlds.specs.Merging.{merging};

use record_faults::Failure;
use record_merge::Bindgen;
use std::alloc::Global;
use world_values::Merged;

/// What two modules say of their world together.
pub fn merge(alloc: Global, first: &Bindgen, second: &Bindgen) -> Result<Merged<Bindgen>, Failure>
    ensures exact { Gives (λ m. m) result (merging first.now second.now) }
    ensures cause { IfErr result
        (λ e. e ≢ failures.Memory → MergeCause first.now second.now (flat e)) }
    ensures refused { IsOk result → (f : PlainFault) → ¬ MergeCause first.now second.now f }
{
    Ok(record_merge::merge(alloc, first, second)?)
}
