//! The shims of reallocs.

ghost use Rattle.std.specs.Prelude.{◌≡◌, [], ◌∷◌, ◌++◌, IfOk, OnOk};
ghost use Rattle.comp_worlds.specs.Lookups.{lent_export, module_name};
ghost use Rattle.shim_plan.specs.Needed as specs;
ghost use Rattle.shim_plan.specs.declared.reallocs.ReallocSite.TheVariants.{AfterInstantiation as after};

use crate::kinds::ShimKind;
use crate::modules::{UserModule, module_text, owned_module};
use crate::needs::{NeededShim, append};
use bitflags::Flags;
use comp_lists::{Seq, Text};
use comp_options::RequiredOptions;
use comp_roles::MainOrAdapter;
use comp_worlds::{ComponentWorld, CustomModule};
use std::alloc::{AllocError, Global};
use wit_data::{WasmSignature, WasmType};

/// When a function is made that has a realloc as an option.
#[derive(Clone, Copy, Debug, PartialEq, Eq)]
pub enum ReallocSite {
    /// Before the module is instantiated that exports the realloc.
    BeforeInstantiation,
    /// After that.
    AfterInstantiation,
}

/// Whether a function that is made there takes a shim as its realloc, and not the export itself:
/// before the instantiation there is no export yet; after it, exactly where main exports a task
/// hook, which is called round reallocs.
pub fn realloc_needs_shim(world: &ComponentWorld, site: ReallocSite) -> bool
    ensures { result ≡ specs.realloc_needs_shim world.now site }
{
    match site {
        ReallocSite::BeforeInstantiation => true,
        ReallocSite::AfterInstantiation => world.main.exports.wasm_task_hook().is_some(),
    }
}

/// The core signature of a realloc (Canonical ABI: `realloc`).
fn realloc_sig(alloc: Global) -> Result<WasmSignature, AllocError>
    ensures { IfOk result (λ s. s ≡ specs.realloc_sig) }
{
    let params = Vec::from_array(
        alloc,
        [WasmType::I32, WasmType::I32, WasmType::I32, WasmType::I32],
    )?;
    let results = Vec::from_array(alloc, [WasmType::I32])?;
    Ok(WasmSignature {
        params: Seq::from_vec(params),
        results: Seq::from_vec(results),
        indirect_params: false,
        retptr: false,
    })
}

/// The debug name of the shim of a realloc.
fn realloc_name(alloc: Global, module: &MainOrAdapter, export: &str) -> Result<Text, AllocError>
    ensures { IfOk result (λ name. name ≡ specs.realloc_name «module».now export.now) }
{
    let owner = module_text(module);
    Ok(Text::from_string(format!(in alloc; "realloc-{owner}-{export}")?))
}

/// Adds the shim of the realloc that a module exports.
fn add_realloc_of(
    needs: &mut Vec<NeededShim>,
    alloc: Global,
    owner: CustomModule<'_>,
    export: &str,
) -> Result<(), AllocError>
    ensures { OnOk result (needs.new.items
        ≡ needs.old.items ++ specs.realloc_shim (module_name owner.entry, export.now) ∷ []) }
{
    let module = owned_module(alloc, owner)?;
    let debug_name = realloc_name(alloc, &module, export)?;
    let export = Text::from_str(alloc, export)?;
    let sig = realloc_sig(alloc)?;
    append(
        needs,
        NeededShim {
            options: RequiredOptions::empty(),
            debug_name,
            kind: ShimKind::Realloc { module, export },
            sig,
        },
    )
}

/// Adds the shim of a realloc, if there is one.
fn add_shim_of(
    needs: &mut Vec<NeededShim>,
    alloc: Global,
    realloc: Option<(CustomModule<'_>, &str)>,
) -> Result<(), AllocError>
    ensures { OnOk result
        (needs.new.items ≡ needs.old.items ++ specs.realloc_shims (lent_export realloc.entry)) }
{
    match realloc {
        Some((owner, export)) => add_realloc_of(needs, alloc, owner, export),
        None => Ok(()),
    }
}

impl UserModule<'_> {
    /// Adds the shim of the realloc of a call with these options, if the call has one, and it needs a shim there.
    pub(crate) fn add_realloc(
        &self,
        needs: &mut Vec<NeededShim>,
        alloc: Global,
        site: ReallocSite,
        options: RequiredOptions,
    ) -> Result<(), AllocError>
        ensures { OnOk result (needs.new.items
            ≡ needs.old.items
            ++ specs.realloc_needs self.now.world.now self.now.which.now self.now.found.now
            site options) }
    {
        if !options.contains(RequiredOptions::REALLOC) || !realloc_needs_shim(self.world, site) {
            return Ok(());
        }
        add_shim_of(needs, alloc, self.import_realloc())
    }

    /// The same, of a read of a stream or a future of a function that is imported, or exported, which is
    /// made after the instantiation.
    pub(crate) fn add_payload_realloc(
        &self,
        needs: &mut Vec<NeededShim>,
        alloc: Global,
        options: RequiredOptions,
        imported: bool,
    ) -> Result<(), AllocError>
        ensures { OnOk result (needs.new.items
            ≡ needs.old.items
            ++ specs.realloc_needs_of self.now.world.now after options (specs.payload_realloc
            self.now.world.now self.now.which.now self.now.found.now imported)) }
    {
        let site = ReallocSite::AfterInstantiation;
        if !options.contains(RequiredOptions::REALLOC) || !realloc_needs_shim(self.world, site) {
            return Ok(());
        }
        add_shim_of(needs, alloc, self.payload_realloc(imported))
    }
}
