//! Worlds in which compatible versions of imported interfaces are merged.

ghost use Rattle.std.specs.Prelude.{◌≡◌, Ok};
ghost use Rattle.json_paths.specs.Faults.{Gives};
ghost use Rattle.record_versions.specs.MergedVersions.{renames_where, merged_by, merged_versions};

use crate::containment::check_renames;
use crate::groups::{Renames, renames};
use crate::order::in_order;
use crate::reach::check_reach;
use crate::renamed::rename_wit;
use comp_lists::Keyed;
use json_paths::Failure;
use record_values::{InterfaceName, Wit};
use std::alloc::Global;

/// A world, and which of its imported interfaces became which.
#[derive(Drop)]
pub struct MergedVersions {
    pub wit: Wit,
    pub renames: Keyed<InterfaceName, InterfaceName>,
}

fn renames_where(alloc: Global, merging: bool, wit: &Wit) -> Result<Renames, Failure>
    ensures { Gives (λ rs. rs) result (Ok (renames_where merging wit.now)) }
{
    if merging {
        renames(alloc, wit)
    } else {
        Ok(Keyed::new(alloc))
    }
}

#[tactic(auto, unfolding(crate::specs::MergedVersions::merged_by))]
fn merge_by(alloc: Global, renames: &Renames, wit: &Wit) -> Result<Wit, Failure>
    ensures { Gives (λ w. w) result (merged_by renames.now wit.now) }
{
    check_renames(alloc, renames, &wit.interfaces)?;
    let renamed = rename_wit(alloc, renames, wit)?;
    let ordered = in_order(alloc, renames, renamed)?;
    check_reach(alloc, &ordered)?;
    Ok(ordered)
}

/// A world in which compatible versions of imported interfaces are merged, where merging is requested.
///
/// Of the imported interfaces of one canonical id each becomes the one of greatest version, unless it
/// is also exported; the one of greatest version must have equal types and functions. The imported
/// interfaces are then put in an order in which each uses only those before it. With and without
/// merging, no exported interface may reach an exported one through one that is only imported.
#[tactic(auto, unfolding(crate::specs::MergedVersions::merged_versions))]
pub fn merge_versions(alloc: Global, merging: bool, wit: &Wit) -> Result<MergedVersions, Failure>
    ensures { Gives (λ s. s) result (merged_versions merging wit.now) }
{
    let renames = renames_where(alloc, merging, wit)?;
    let wit = merge_by(alloc, &renames, wit)?;
    Ok(MergedVersions { wit, renames })
}
