//! What the imports of a user module are given that other user modules export: main's memory, what
//! main exports, functions that adapters export, and the instances and items that the arguments of
//! a library name.
//!
//! Core standard, execution: module instances, instantiation.
#![tactic(auto, using(crate::proofs::Growth::growing))]

ghost use Rattle.std.specs.Prelude.{◌≡◌, [], Some, IfOk, IfErr, OnOk, IsSome};
ghost use Rattle.comp_bytes.specs.Spaces.{kind_space};
ghost use Rattle.comp_bytes.specs.declared.space.Space.TheVariants.{CoreFunc, CoreMemory};
ghost use Rattle.comp_items.specs.Items.{Extends};
ghost use Rattle.comp_links.specs.Links.{module_of};
ghost use Rattle.comp_links.specs.Roles.{field_path};
ghost use Rattle.comp_links.specs.Targets.{Main, Adapter, ExportOf, MainMemory};
ghost use Rattle.comp_terms.specs.Planned.{main_memory, IsItemFor, IsShimOfKind};
ghost use Rattle.comp_terms.specs.Rules.{Grows};
ghost use Rattle.comp_worlds.specs.Offered.{memory_of_main, OffersItem, NamedOffers};
ghost use Rattle.core_options.specs.Causes.{IsMemoryRefusal};
ghost use Rattle.core_options.specs.MainOptions.{IsMemoryIf};
ghost use Rattle.main_instance.specs.Sources.{AreSources, IsBehindMain, IsMade, instance_in, adapter_kind};
ghost use Rattle.root_imports.specs.RootScopes.{IsRefusal};
ghost use Rattle.shim_plan.specs.Plans.{shim_of};
ghost use Rattle.world_shims.specs.WorldShims.{shims_of};

use crate::calls::{CorePlace, path_of_import};
use crate::instances::ImportSources;
use byte_encoding::BuildFault;
use comp_bytes::CoreArgument;
use comp_lists::Text;
use comp_worlds::{ComponentWorld, Item, MainOrAdapter};
use core_options::StateFault;
use root_imports::RootScope;
use shim_plan::ShimKind;
use standard_kinds::ExportKind;
use std::alloc::{AllocError, Global};

/// The kind of the shim for calls of a function that an adapter exports.
fn kind_of_adapter(alloc: Global, adapter: &Text, function: &Text) -> Result<ShimKind, AllocError>
    ensures { IfOk result (λ kind. kind ≡ adapter_kind adapter.now function.now) }
{
    let adapter = adapter.clone(alloc)?;
    let func = function.clone(alloc)?;
    Ok(ShimKind::Adapter { adapter, func })
}

impl ImportSources<'_> {
    /// Main's memory, for the core import of this place.
    ///
    /// `E7` where main has none.
    pub(crate) fn main_memory(
        &self,
        root: &RootScope<'_, ComponentWorld>,
        place: CorePlace<'_>,
    ) -> Result<u32, StateFault>
        requires memory { IsMemoryIf root.now.items.defs (main_memory root.now.world.now)
            self.now.memory }
        ensures given { IfOk result (λ index. IsItemFor root.now.world.now root.now.items.defs
            CoreMemory index MainMemory) }
        ensures there { OnOk result (IsSome (memory_of_main root.now.world.now.main)) }
        ensures cause { IfErr result (IsMemoryRefusal root.now.world.now
            (field_path place.entry.«module».now place.entry.field.now)) }
    {
        match self.memory {
            Some(index) => Ok(index),
            None => {
                let place = path_of_import(root.items.allocator(), place)?;
                Err(StateFault::NoMemory { place })
            }
        }
    }

    /// The item of this kind that main exports under this name.
    pub(crate) fn main_export(
        &self,
        root: &mut RootScope<'_, ComponentWorld>,
        name: &Text,
        kind: ExportKind,
    ) -> Result<u32, BuildFault>
        requires sources { AreSources root.old.world.now self.now root.old.met root.old.items.defs
            root.old.maps root.old.instances }
        requires behind { IsBehindMain root.old.items.defs self.now.main }
        requires offered { OffersItem root.old.world.now.main name.now kind }
        ensures same { root.new ≡ record root.old { items = root.new.items } }
        ensures extends { Extends root.old.items root.new.items }
        ensures grows { OnOk result
            (Grows root.old.world.now root.old.items.defs root.new.items.defs []) }
        ensures given { IfOk result (λ index. IsItemFor root.old.world.now root.new.items.defs
            (kind_space kind) index (ExportOf (record { of = Main; name = name.now }))) }
        ensures cause { IfErr result IsRefusal }
    {
        let instance = self.main.unwrap();
        let index = root.items.core_export(instance, kind, name.as_str())?;
        Ok(index)
    }

    /// The shim for a function that an adapter exports.
    pub(crate) fn adapter_export(
        &self,
        root: &mut RootScope<'_, ComponentWorld>,
        adapter: &Text,
        function: &Text,
    ) -> Result<u32, BuildFault>
        requires sources { AreSources root.old.world.now self.now root.old.met root.old.items.defs
            root.old.maps root.old.instances }
        requires needed { IsSome
            (shim_of (adapter_kind adapter.now function.now) (shims_of root.old.world.now)) }
        ensures same { root.new ≡ record root.old { items = root.new.items } }
        ensures extends { Extends root.old.items root.new.items }
        ensures grows { OnOk result
            (Grows root.old.world.now root.old.items.defs root.new.items.defs []) }
        ensures given { IfOk result (λ index. IsShimOfKind root.old.world.now root.new.items.defs
            CoreFunc index (ExportOf (record { of = Adapter adapter.now; name = function.now }))
            (adapter_kind adapter.now function.now)) }
        ensures cause { IfErr result IsRefusal }
    {
        let kind = kind_of_adapter(root.items.allocator(), adapter, function)?;
        match self.shim(root, &kind)? {
            Some(index) => Ok(index),
            None => unreachable!(),
        }
    }

    /// The instance of a module that is named.
    fn instance_of(&self, which: &MainOrAdapter) -> u32
        requires there { IsSome (instance_in self.now.main self.now.adapters.now which.now) }
        ensures { instance_in self.now.main self.now.adapters.now which.now ≡ Some result }
    {
        match which {
            MainOrAdapter::Main => self.main.unwrap(),
            MainOrAdapter::Adapter(name) => *self.adapters.get(name).unwrap(),
        }
    }

    /// An item of the instance of another module.
    pub(crate) fn item(
        &self,
        root: &mut RootScope<'_, ComponentWorld>,
        item: &Item,
    ) -> Result<u32, BuildFault>
        requires sources { AreSources root.old.world.now self.now root.old.met root.old.items.defs
            root.old.maps root.old.instances }
        requires made { IsMade root.old.world.now root.old.items.defs self.now.main
            self.now.adapters.now item.now.which }
        requires offered { NamedOffers root.old.world.now item.now.which item.now.name
            item.now.kind }
        ensures same { root.new ≡ record root.old { items = root.new.items } }
        ensures extends { Extends root.old.items root.new.items }
        ensures grows { OnOk result
            (Grows root.old.world.now root.old.items.defs root.new.items.defs []) }
        ensures given { IfOk result (λ index. IsItemFor root.old.world.now root.new.items.defs
            (kind_space item.now.kind) index
            (ExportOf (record { of = module_of item.now.which; name = item.now.name }))) }
        ensures cause { IfErr result IsRefusal }
    {
        let instance = self.instance_of(&item.which);
        let index = root
            .items
            .core_export(instance, item.kind, item.name.as_str())?;
        Ok(index)
    }

    /// The instance of another module, as the argument for all imports from one.
    pub(crate) fn whole_instance(
        &self,
        alloc: Global,
        module: &Text,
        which: &MainOrAdapter,
    ) -> Result<CoreArgument, AllocError>
        requires there { IsSome (instance_in self.now.main self.now.adapters.now which.now) }
        ensures { IfOk result (λ argument. (argument.name ≡ «module».now)
            × (instance_in self.now.main self.now.adapters.now which.now
            ≡ Some argument.instance)) }
    {
        let name = module.clone(alloc)?;
        let instance = self.instance_of(which);
        Ok(CoreArgument { name, instance })
    }
}
