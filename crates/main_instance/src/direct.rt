//! The options of functions that are lowered directly: for calls without a shim. Where main imports
//! its memory, these may need all options, and their reallocs are shims, since they are lowered
//! before the modules are instantiated that export these.
//!
//! Canonical ABI: `canon lower`, `realloc`.
#![tactic(auto, using(crate::proofs::Growth::growing))]

ghost use Rattle.std.specs.Prelude.{◌≡◌, [], ◌∷◌, Some, IfOk, IfErr, OnOk, IsSome, IsTrue};
ghost use Rattle.std.specs.Option.{option_copied, option_map};
ghost use Rattle.comp_items.specs.Items.{Extends};
ghost use Rattle.comp_links.specs.Links.{lower_needs, lower_options, lower_realloc, role_realloc};
ghost use Rattle.comp_links.specs.Modules.{module_found};
ghost use Rattle.comp_options.specs.Options.{needs, realloc_bit};
ghost use Rattle.comp_terms.specs.Rules.{Grows};
ghost use Rattle.core_options.specs.Causes.{IsCauseAmong};
ghost use Rattle.core_options.specs.MainOptions.{user_of, NameOptions, IsReallocIf};
ghost use Rattle.main_instance.specs.Calls.{import_at};
ghost use Rattle.main_instance.specs.Direct.{IsDirectCall, HasReallocShim};
ghost use Rattle.main_instance.specs.Sources.{AreSources};
ghost use Rattle.root_imports.specs.RootScopes.{IsRefusal};
ghost use Rattle.shim_plan.specs.Needed.{realloc_shim, import_realloc};
ghost use Rattle.shim_targets.specs.CallOptions.{lowering_at, lowering_of_import, options_of_lowering};
ghost use Rattle.shim_targets.specs.ShimTargets.{which_of};

use crate::calls::{CorePlace, main_or_adapter, path_of_import};
use crate::instances::ImportSources;
use bitflags::Flags;
use byte_encoding::BuildFault;
use comp_bytes::CanonicalOption;
use comp_lists::{Seq, Text, TryClone};
use comp_options::RequiredOptions;
use comp_worlds::{ComponentWorld, Import, Lowering, LoweringKey};
use core_options::{StateFault, UserModule, list_options};
use root_imports::RootScope;
use shim_plan::ShimKind;
use standard_kinds::StringEncoding;
use std::alloc::{AllocError, Global};
use wit_data::{AbiVariant, WorldKey};

/// A call of a function by a core import that has no shim of its own.
#[derive(Clone, Copy)]
pub(crate) struct DirectCall<'a> {
    pub place: CorePlace<'a>,
    pub import: &'a Import,
    /// The string encoding with which the module calls the function.
    pub encoding: StringEncoding,
}

/// The options of a lowering.
fn options_of(lowering: Option<&Lowering>) -> RequiredOptions
    ensures { result ≡ options_of_lowering (option_copied lowering.entry) }
{
    match lowering {
        Some(Lowering::Direct { options }) => *options,
        Some(Lowering::Indirect { options, .. }) => *options,
        Some(Lowering::ResourceDrop(_)) | None => RequiredOptions::empty(),
    }
}

/// How a function is lowered in one form, by the key of its interface, none at the root.
fn lowering_of<'a>(
    world: &'a ComponentWorld,
    interface: &Option<WorldKey>,
    function: &LoweringKey,
) -> Option<&'a Lowering>
    ensures { option_copied result ≡ lowering_at world.now interface.now function.now }
{
    let interface = world.import_map.get(interface)?;
    interface.lowerings.get(function)
}

/// The options of calls of a function in one form, by the key of its interface, none at the root.
fn options_of_call(
    alloc: Global,
    world: &ComponentWorld,
    interface: Option<WorldKey>,
    name: &Text,
    abi: AbiVariant,
) -> Result<RequiredOptions, AllocError>
    ensures { IfOk result (λ options. options
        ≡ options_of_lowering
        (lowering_at world.now interface (record { name = name.now; abi = abi }))) }
{
    let name = name.clone(alloc)?;
    let function = LoweringKey { name, abi };
    Ok(options_of(lowering_of(world, &interface, &function)))
}

/// The options of calls by an import, none where it calls no function of the world.
fn options_of_import(
    alloc: Global,
    world: &ComponentWorld,
    import: &Import,
) -> Result<RequiredOptions, AllocError>
    ensures { IfOk result
        (λ options. options ≡ options_of_lowering (lowering_of_import world.now import.now)) }
{
    match import {
        Import::WorldFunc(_, name, abi) => options_of_call(alloc, world, None, name, *abi),
        Import::InterfaceFunc(key, _, name, abi) => {
            let interface = key.try_clone(alloc)?;
            options_of_call(alloc, world, Some(interface), name, *abi)
        }
        _ => Ok(RequiredOptions::empty()),
    }
}

/// The kind of the shim of the realloc of calls of a module's imports, if there is a realloc for them.
fn realloc_kind(
    alloc: Global,
    world: &ComponentWorld,
    user: UserModule<'_>,
) -> Result<Option<ShimKind>, AllocError>
    ensures { IfOk result (λ kind. kind
        ≡ option_map (λ r. (realloc_shim r).kind) (import_realloc world.now
        (which_of (user_of user.entry.which)) user.entry.found.now)) }
{
    let own = user.found.exports.import_realloc_for(None, "");
    match world.resolve_realloc(user.which, own) {
        Some((of, name)) => {
            let module = main_or_adapter(alloc, of)?;
            let export = Text::from_str(alloc, name)?;
            Ok(Some(ShimKind::Realloc { module, export }))
        }
        None => Ok(None),
    }
}

impl ImportSources<'_> {
    /// The shim of the realloc of calls of the module's imports, where these options name one and there is one.
    fn realloc_alias(
        &self,
        root: &mut RootScope<'_, ComponentWorld>,
        needed: RequiredOptions,
    ) -> Result<Option<u32>, BuildFault>
        requires sources { AreSources root.old.world.now self.now root.old.met root.old.items.defs
            root.old.maps root.old.instances }
        requires planned { IsTrue (needs needed.0 realloc_bit)
            → HasReallocShim root.old.world.now (user_of self.now.user.which)
            self.now.user.found.now }
        ensures same { root.new ≡ record root.old { items = root.new.items } }
        ensures extends { Extends root.old.items root.new.items }
        ensures grows { OnOk result
            (Grows root.old.world.now root.old.items.defs root.new.items.defs []) }
        ensures realloc { IfOk result (λ index. IsTrue (needs needed.0 realloc_bit)
            → IsReallocIf root.old.world.now root.new.items.defs
            (lower_realloc root.old.world.now (user_of self.now.user.which)) index) }
        ensures cause { IfErr result IsRefusal }
    {
        if !needed.contains(RequiredOptions::REALLOC) {
            return Ok(None);
        }
        match realloc_kind(root.items.allocator(), root.world, self.user)? {
            Some(kind) => {
                let index = self.shim(root, &kind)?;
                Ok(index)
            }
            None => Ok(None),
        }
    }

    /// The options with which the function of a call is lowered: those that its type needs.
    ///
    /// `E8` where it needs a realloc and there is none for the module.
    pub(crate) fn direct_options(
        &self,
        root: &mut RootScope<'_, ComponentWorld>,
        call: DirectCall<'_>,
    ) -> Result<Seq<CanonicalOption>, StateFault>
        requires sources { AreSources root.old.world.now self.now root.old.met root.old.items.defs
            root.old.maps root.old.instances }
        requires direct { IsDirectCall root.old.world.now (user_of self.now.user.which)
            self.now.user.found.now call }
        ensures same { root.new ≡ record root.old { items = root.new.items } }
        ensures extends { Extends root.old.items root.new.items }
        ensures grows { OnOk result
            (Grows root.old.world.now root.old.items.defs root.new.items.defs []) }
        ensures named { IfOk result (λ options. NameOptions root.old.world.now root.new.items.defs
            options (lower_options root.old.world.now (user_of self.now.user.which)
            call.entry.import.now)) }
        ensures realloc { OnOk result (IsTrue
            (needs (lower_needs root.old.world.now call.entry.import.now) realloc_bit)
            → IsSome (role_realloc root.old.world.now (user_of self.now.user.which)
            call.entry.import.now)) }
        ensures cause { IfErr result (IsCauseAmong root.old.world.now (record {
          of = user_of
              self.now.user.which;
          core = import_at call.entry.place call.entry.import.now;
        } ∷ []) []) }
    {
        let alloc = root.items.allocator();
        let needed = options_of_import(alloc, root.world, call.import)?;
        let realloc = self.realloc_alias(root, needed)?;
        let place = path_of_import(alloc, call.place)?;
        let options = list_options(alloc, &place, needed, call.encoding, self.memory, realloc)?;
        Ok(options)
    }
}
