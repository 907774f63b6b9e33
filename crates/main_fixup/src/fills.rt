//! The inline instance that has what each shim stands for.
#![tactic(auto, using(comp_items::proofs::Extending::extends_none, comp_items::proofs::Extending::extends_same, comp_items::proofs::Extending::extends_then, crate::proofs::Filled::kept_as_is, crate::proofs::Filled::kept_added))]

ghost use Rattle.std.specs.Prelude.{◌≡◌, ◌<◌, ◌^◌, length, IfOk, IfErr, OnOk};
ghost use Rattle.std.specs.List.{AllByRecursion, AllZip};
ghost use Rattle.comp_terms.specs.Planned.{IsFillFor, AreFillsFor};
ghost use Rattle.main_fixup.specs.Filling.{HasShimOptions, HasFillSources, GrowsInside, IsFillCause};
ghost use Rattle.root_imports.specs.Keeping.{RootKept};
ghost use Rattle.shim_targets.specs.ShimTargets.{StandsForOne};
ghost use Rattle.world_shims.specs.WorldShims.{shims_of};

use crate::lowerings::function_behind;
use crate::sources::FillSources;
use comp_bytes::CoreInlineExport;
use comp_lists::Seq;
use comp_worlds::ComponentWorld;
use core_options::StateFault;
use root_imports::RootScope;
use shim_plan::{Shim, Shims};
use standard_kinds::ExportKind;

/// What a shim stands for, as an entry under the shim's name.
fn fill(
    root: &mut RootScope<'_, ComponentWorld>,
    sources: &FillSources<'_>,
    shim: &Shim,
) -> Result<CoreInlineExport, StateFault>
    requires sources { HasFillSources root.old sources.now }
    requires stands { StandsForOne root.old.world.now shim.now }
    ensures kept { RootKept root.old.world.now root.old root.new }
    ensures grows { OnOk result (GrowsInside root.old root.new) }
    ensures fills { IfOk result
        (λ entry. IsFillFor root.old.world.now root.new.items.defs entry shim.now) }
    ensures offered { OnOk result (HasShimOptions root.old.world.now shim.now) }
    ensures cause { IfErr result (IsFillCause root.old) }
{
    let name = shim.name.clone(root.items.allocator())?;
    let index = function_behind(root, sources, shim)?;
    Ok(CoreInlineExport {
        name,
        kind: ExportKind::Func,
        index,
    })
}

/// What the shims stand for, in order.
fn fills(
    root: &mut RootScope<'_, ComponentWorld>,
    sources: &FillSources<'_>,
    shims: &Shims,
) -> Result<Seq<CoreInlineExport>, StateFault>
    requires sources { HasFillSources root.old sources.now }
    requires shims { shims.now ≡ shims_of root.old.world.now }
    ensures kept { RootKept root.old.world.now root.old root.new }
    ensures grows { OnOk result (GrowsInside root.old root.new) }
    ensures fills { IfOk result (λ entries. AllZip
        (IsFillFor root.old.world.now root.new.items.defs) entries
        (shims_of root.old.world.now)) }
    ensures offered { OnOk result
        (AllByRecursion (HasShimOptions root.old.world.now) (shims_of root.old.world.now)) }
    ensures few { OnOk result (length (shims_of root.old.world.now) < 2 ^ 64) }
    ensures cause { IfErr result (IsFillCause root.old) }
{
    let mut entries = Seq::from_vec(Vec::with_capacity(root.items.allocator(), shims.len())?);
    for shim in shims.iter() {
        let entry = fill(root, sources, shim)?;
        entries.push(entry)?;
    }
    Ok(entries)
}

/// Makes the inline instance that has what each shim stands for, under the shim's name.
pub(crate) fn actual_instance(
    root: &mut RootScope<'_, ComponentWorld>,
    sources: &FillSources<'_>,
    shims: &Shims,
) -> Result<u32, StateFault>
    requires sources { HasFillSources root.old sources.now }
    requires shims { shims.now ≡ shims_of root.old.world.now }
    ensures kept { RootKept root.old.world.now root.old root.new }
    ensures grows { OnOk result (GrowsInside root.old root.new) }
    ensures fills { IfOk result (AreFillsFor root.old.world.now root.new.items.defs) }
    ensures offered { OnOk result
        (AllByRecursion (HasShimOptions root.old.world.now) (shims_of root.old.world.now)) }
    ensures cause { IfErr result (IsFillCause root.old) }
{
    let entries = fills(root, sources, shims)?;
    let instance = root.items.inline_instance(Some("actual"), entries)?;
    Ok(instance)
}
