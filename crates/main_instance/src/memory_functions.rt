//! Waits, and functions of error contexts, as imports of user modules are given them.
//!
//! Canonical ABI: `canon waitable-set.{wait,poll}`, `canon error-context.{new,debug-message}`.
#![tactic(auto, using(crate::proofs::Growth::growing))]

ghost use Rattle.std.specs.Prelude.{◌≡◌, [], ◌∷◌, false, None, Some, IfOk, IfErr, OnOk, IsSome, Contains};
ghost use Rattle.comp_bytes.specs.declared.space.Space.TheVariants.{CoreFunc};
ghost use Rattle.comp_items.specs.Items.{Extends};
ghost use Rattle.comp_links.specs.Links.{is_always_shimmed};
ghost use Rattle.comp_links.specs.Supplied.{IsSuppliedImport};
ghost use Rattle.comp_options.specs.Options.{needs, realloc_bit};
ghost use Rattle.comp_terms.specs.Planned.{IsGivenFor};
ghost use Rattle.comp_terms.specs.Rules.{Grows};
ghost use Rattle.comp_worlds.specs.Offered.{shared_memory};
ghost use Rattle.comp_worlds.specs.Uses.{imports_of};
ghost use Rattle.core_options.specs.Causes.{IsCauseAmong};
ghost use Rattle.core_options.specs.MainOptions.{user_of};
ghost use Rattle.main_instance.specs.Calls.{import_at};
ghost use Rattle.main_instance.specs.Sources.{AreSources, IsShimAlias};
ghost use Rattle.root_imports.specs.RootScopes.{IsRefusal};
ghost use Rattle.shim_plan.specs.Needed as plans;
ghost use Rattle.shim_plan.specs.Plans.{shim_of};
ghost use Rattle.shim_targets.specs.ShimTargets.{which_of};
ghost use Rattle.world_shims.specs.WorldShims.{shims_of};

use crate::calls::{CorePlace, main_or_adapter, path_of_import};
use crate::instances::ImportSources;
use byte_encoding::BuildFault;
use comp_worlds::{ComponentWorld, CustomModule, Import};
use core_options::{StateFault, list_options, memory_function};
use root_imports::RootScope;
use shim_plan::{MemoryFunction, ShimKind};
use std::alloc::{AllocError, Global};

/// The kind of the shim of such a function for a module.
fn kind_of_function(
    alloc: Global,
    which: CustomModule<'_>,
    function: MemoryFunction,
) -> Result<ShimKind, AllocError>
    ensures { IfOk result
        (λ kind. kind ≡ plans.function_kind (which_of (user_of which.entry)) function) }
{
    let for_module = main_or_adapter(alloc, which)?;
    function.kind(alloc, &for_module)
}

impl ImportSources<'_> {
    /// The shim of a kind, which is there.
    pub(crate) fn shim_there(
        &self,
        root: &mut RootScope<'_, ComponentWorld>,
        kind: &ShimKind,
    ) -> Result<u32, BuildFault>
        requires sources { AreSources root.old.world.now self.now root.old.met root.old.items.defs
            root.old.maps root.old.instances }
        requires needed { IsSome (shim_of kind.now (shims_of root.old.world.now)) }
        ensures same { root.new ≡ record root.old { items = root.new.items } }
        ensures extends { Extends root.old.items root.new.items }
        ensures grows { OnOk result
            (Grows root.old.world.now root.old.items.defs root.new.items.defs []) }
        ensures shim { IfOk result (λ index.
            IsShimAlias root.old.world.now root.new.items.defs kind.now (Some index)) }
        ensures cause { IfErr result IsRefusal }
    {
        match self.shim(root, kind)? {
            Some(index) => Ok(index),
            None => unreachable!(),
        }
    }

    /// The shim of a wait, or of a function of error contexts. What reads a debug message always has
    /// one, since it puts the text where the module's realloc says.
    pub(crate) fn shim_of_function(
        &self,
        root: &mut RootScope<'_, ComponentWorld>,
        place: CorePlace<'_>,
        import: &Import,
        function: MemoryFunction,
    ) -> Result<u32, StateFault>
        requires sources { AreSources root.old.world.now self.now root.old.met root.old.items.defs
            root.old.maps root.old.instances }
        requires role { plans.memory_function import.now ≡ Some function }
        requires present { Contains (imports_of self.now.user.found.now)
            (import_at place import.now) }
        requires planned { is_always_shimmed root.old.world.now import.now ≡ false
            → shared_memory root.old.world.now ≡ None }
        ensures same { root.new ≡ record root.old { items = root.new.items } }
        ensures extends { Extends root.old.items root.new.items }
        ensures grows { OnOk result
            (Grows root.old.world.now root.old.items.defs root.new.items.defs []) }
        ensures given { IfOk result (λ index. IsGivenFor root.old.world.now
            (user_of self.now.user.which) root.new.items.defs CoreFunc index import.now) }
        ensures supplied { OnOk result
            (IsSuppliedImport root.old.world.now (user_of self.now.user.which) import.now) }
        ensures cause { IfErr result (IsCauseAmong root.old.world.now (record {
          of = user_of self.now.user.which;
          core = import_at place.entry import.now;
        } ∷ []) []) }
    {
        let kind = kind_of_function(root.items.allocator(), self.user.which, function)?;
        let index = self.shim_there(root, &kind)?;
        Ok(index)
    }

    /// The function itself, with main's memory, which is there by now. It needs no realloc.
    fn make_function(
        &self,
        root: &mut RootScope<'_, ComponentWorld>,
        place: CorePlace<'_>,
        import: &Import,
        function: MemoryFunction,
        memory: u32,
    ) -> Result<u32, StateFault>
        requires sources { AreSources root.old.world.now self.now root.old.met root.old.items.defs
            root.old.maps root.old.instances }
        requires role { plans.memory_function import.now ≡ Some function }
        requires present { Contains (imports_of self.now.user.found.now)
            (import_at place import.now) }
        requires there { self.now.memory ≡ Some memory }
        requires plain { needs (plans.function_options function).0 realloc_bit ≡ false }
        ensures same { root.new ≡ record root.old { items = root.new.items } }
        ensures extends { Extends root.old.items root.new.items }
        ensures grows { OnOk result
            (Grows root.old.world.now root.old.items.defs root.new.items.defs []) }
        ensures given { IfOk result (λ index. IsGivenFor root.old.world.now
            (user_of self.now.user.which) root.new.items.defs CoreFunc index import.now) }
        ensures supplied { OnOk result
            (IsSuppliedImport root.old.world.now (user_of self.now.user.which) import.now) }
        ensures cause { IfErr result (IsCauseAmong root.old.world.now (record {
          of = user_of self.now.user.which;
          core = import_at place.entry import.now;
        } ∷ []) []) }
    {
        let alloc = root.items.allocator();
        let name = path_of_import(alloc, place)?;
        let options = list_options(
            alloc,
            &name,
            function.options(),
            function.encoding(),
            Some(memory),
            None,
        )?;
        let index = memory_function(root, function, memory, options)?;
        Ok(index)
    }

    /// What a wait, or the making of an error context, is given as: the function itself, where main's
    /// memory is there by now, or else its shim.
    pub(crate) fn give_function(
        &self,
        root: &mut RootScope<'_, ComponentWorld>,
        place: CorePlace<'_>,
        import: &Import,
        function: MemoryFunction,
    ) -> Result<u32, StateFault>
        requires sources { AreSources root.old.world.now self.now root.old.met root.old.items.defs
            root.old.maps root.old.instances }
        requires role { plans.memory_function import.now ≡ Some function }
        requires present { Contains (imports_of self.now.user.found.now)
            (import_at place import.now) }
        requires plain { needs (plans.function_options function).0 realloc_bit ≡ false }
        ensures same { root.new ≡ record root.old { items = root.new.items } }
        ensures extends { Extends root.old.items root.new.items }
        ensures grows { OnOk result
            (Grows root.old.world.now root.old.items.defs root.new.items.defs []) }
        ensures given { IfOk result (λ index. IsGivenFor root.old.world.now
            (user_of self.now.user.which) root.new.items.defs CoreFunc index import.now) }
        ensures supplied { OnOk result
            (IsSuppliedImport root.old.world.now (user_of self.now.user.which) import.now) }
        ensures cause { IfErr result (IsCauseAmong root.old.world.now (record {
          of = user_of self.now.user.which;
          core = import_at place.entry import.now;
        } ∷ []) []) }
    {
        match self.memory {
            Some(memory) => self.make_function(root, place, import, function, memory),
            None => self.shim_of_function(root, place, import, function),
        }
    }
}
