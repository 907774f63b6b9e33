//! The resolve of the world of all modules.

ghost use Rattle.std.specs.Prelude.{◌≡◌, ◌≢◌, Bool, IfOk, IfErr, IsOk, Ok};
ghost use Rattle.record_faults.specs.Faults.{flat};
ghost use Rattle.record_faults.specs.declared.fault.Failure.TheVariants as failures;
ghost use Rattle.record_faults.specs.declared.fault.PlainFault.{PlainFault};
ghost use Rattle.record_values.specs.declared.world.Wit.{Wit as WitRecord};
ghost use Rattle.record_versions.specs.MergedVersions as versions;
ghost use Rattle.record_resolve.specs.OtherNames.{also_named};
ghost use Rattle.gathered_worlds.specs.Preparing.{combined};
ghost use Rattle.gathered_worlds.specs.Guarantees.{IsUsable, IsCombined};
ghost use Rattle.gathered_worlds.specs.Causes.{CombinedCause};

use comp_lists::Keyed;
use record_faults::Failure;
use record_resolve::{Resolved, resolve};
use record_values::{InterfaceName, Wit};
use record_versions::{MergedVersions, merge_versions};
use std::alloc::{AllocError, Global};

/// The same resolve, in which interfaces that became others have their old names too.
fn also_named(
    alloc: Global,
    resolved: Resolved,
    renames: &Keyed<InterfaceName, InterfaceName>,
) -> Result<Resolved, AllocError>
    ensures { IfOk result (λ r. r ≡ also_named renames.now resolved) }
{
    let mut resolved = resolved;
    match resolved.add_other_names(alloc, renames) {
        Ok(()) => Ok(resolved),
        Err(refused) => {
            drop(resolved);
            Err(refused)
        }
    }
}

/// The resolve of a world with merged versions.
fn resolve_merged(alloc: Global, merged_versions: &MergedVersions) -> Result<Resolved, Failure>
    ensures combined { IfOk result (IsCombined merged_versions.now) }
    ensures cause { IfErr result (λ e. e ≢ failures.Memory
        → (merging : Bool) (w : WitRecord) → versions.merged_versions merging w ≡ Ok merged_versions.now → CombinedCause merging w (flat e)) }
{
    let resolved = resolve(alloc, &merged_versions.wit)?;
    Ok(also_named(alloc, resolved, &merged_versions.renames)?)
}

/// The resolve of the world of all modules, once compatible versions of imported interfaces are merged,
/// where merging is requested.
pub(crate) fn resolve_combined(alloc: Global, merging: bool, wit: &Wit) -> Result<Resolved, Failure>
    ensures exact { IfOk result (λ r. combined merging wit.now ≡ Ok r) }
    ensures usable { IfOk result IsUsable }
    ensures cause { IfErr result
        (λ e. e ≢ failures.Memory → CombinedCause merging wit.now (flat e)) }
    ensures refused { IsOk result → (f : PlainFault) → ¬ CombinedCause merging wit.now f }
{
    let merged_versions = merge_versions(alloc, merging, wit)?;
    let resolved = resolve_merged(alloc, &merged_versions);
    drop(merged_versions);
    resolved
}
