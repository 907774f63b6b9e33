//! Returns from functions that the world exports, as imports of user modules are given them.
//!
//! Canonical ABI: `canon task.return`.
#![tactic(auto, using(crate::proofs::Growth::growing))]

ghost use Rattle.std.specs.Prelude.{◌≡◌, [], ◌∷◌, true, false, Some, IfOk, IfErr, OnOk, Contains};
ghost use Rattle.comp_bytes.specs.declared.space.Space.TheVariants.{CoreFunc};
ghost use Rattle.comp_links.specs.Roles.{field_path};
ghost use Rattle.comp_links.specs.Supplied.{IsSuppliedImport};
ghost use Rattle.comp_options.specs.OptionLists as lists;
ghost use Rattle.comp_options.specs.Options.{task_return_set};
ghost use Rattle.comp_roles.specs.Functions.{of_function};
ghost use Rattle.comp_roles.specs.declared.imports.Import.TheVariants as imports;
ghost use Rattle.comp_terms.specs.Planned.{IsGivenFor};
ghost use Rattle.comp_terms.specs.Rules.{Grows};
ghost use Rattle.comp_worlds.specs.Uses.{imports_of};
ghost use Rattle.core_options.specs.Causes.{IsCauseAmong};
ghost use Rattle.core_options.specs.MainOptions.{user_of};
ghost use Rattle.main_instance.specs.Calls.{import_at, IsUnencoded};
ghost use Rattle.main_instance.specs.Sources.{AreSources};
ghost use Rattle.root_imports.specs.Keeping.{RootKept};
ghost use Rattle.shim_plan.specs.declared.kinds.ShimKind.TheVariants as kinds;
ghost use Rattle.shim_targets.specs.ShimTargets.{which_of};

use crate::calls::{CorePlace, main_or_adapter, path_of_import};
use crate::instances::ImportSources;
use bitflags::Flags;
use comp_lists::Text;
use comp_options::RequiredOptions;
use comp_worlds::{ComponentWorld, CustomModule, Import, ValidatedModule};
use core_options::{StateFault, encoding_of, list_options, return_from};
use root_imports::RootScope;
use shim_plan::ShimKind;
use standard_kinds::StringEncoding;
use std::alloc::{AllocError, Global};
use wit_data::{Function, InterfaceId, WorldKey};

/// A function that the world exports, whose result an import returns.
#[derive(Clone, Copy)]
pub(crate) struct ReturnedFunction<'a> {
    pub key: &'a WorldKey,
    /// Its interface, none at the root.
    pub interface: Option<InterfaceId>,
    pub function: &'a Function,
}

/// The string encoding with which a module returns from a function. `place` names the core import
/// in faults.
///
/// `E9` where there is none.
fn return_encoding(
    alloc: Global,
    validated: &ValidatedModule,
    place: CorePlace<'_>,
    returned: ReturnedFunction<'_>,
) -> Result<StringEncoding, StateFault>
    ensures ok { IfOk result (λ encoding. of_function returned.entry.key.now
        returned.entry.function.now.name validated.now.metadata.export_encodings
        ≡ Some encoding) }
    ensures cause { IfErr result (IsUnencoded
        (of_function returned.entry.key.now returned.entry.function.now.name
        validated.now.metadata.export_encodings)
        (field_path place.entry.«module».now place.entry.field.now)) }
{
    let encodings = &validated.metadata.export_encodings;
    match encoding_of(alloc, encodings, returned.key, &returned.function.name)? {
        Some(encoding) => Ok(encoding),
        None => {
            let place = path_of_import(alloc, place)?;
            Err(StateFault::NoEncoding { place })
        }
    }
}

/// The kind of the shim for a return from a function by a module.
fn kind_of_return(
    alloc: Global,
    which: CustomModule<'_>,
    returned: ReturnedFunction<'_>,
    encoding: StringEncoding,
) -> Result<ShimKind, AllocError>
    ensures { IfOk result (λ kind. kind
        ≡ kinds.TaskReturn returned.entry.interface returned.entry.function.now.name
        returned.entry.function.now.result (which_of (user_of which.entry)) encoding) }
{
    let func: Text = returned.function.name.clone(alloc)?;
    let for_module = main_or_adapter(alloc, which)?;
    Ok(ShimKind::TaskReturn {
        interface: returned.interface,
        func,
        result: returned.function.result,
        for_module,
        encoding,
    })
}

/// Whether a return needs a memory that isn't there by now.
fn lacks_memory(needed: RequiredOptions, memory: Option<u32>) -> bool
    ensures { result ≡ lists.lacks_memory needed.0 memory }
{
    needed.contains(RequiredOptions::MEMORY) && memory.is_none()
}

impl ImportSources<'_> {
    /// The shim of a return, which there is where it needs a memory that isn't there by now.
    fn shim_of_return(
        &self,
        root: &mut RootScope<'_, ComponentWorld>,
        place: CorePlace<'_>,
        import: &Import,
        returned: ReturnedFunction<'_>,
        encoding: StringEncoding,
        needed: RequiredOptions,
    ) -> Result<u32, StateFault>
        requires sources { AreSources root.old.world.now self.now root.old.met root.old.items.defs
            root.old.maps root.old.instances }
        requires role { import.now ≡ imports.ExportedTaskReturn returned.key.now returned.interface
            returned.function.now }
        requires present { Contains (imports_of self.now.user.found.now)
            (import_at place import.now) }
        requires encoded { of_function returned.key.now returned.function.now.name
            self.now.user.found.now.metadata.export_encodings ≡ Some encoding }
        requires needed { needed.0
            ≡ task_return_set root.old.world.now.resolve.types returned.function.now }
        requires lacks { lists.lacks_memory needed.0 self.now.memory ≡ true }
        ensures kept { RootKept root.old.world.now root.old root.new }
        ensures grows { OnOk result
            (Grows root.old.world.now root.old.items.defs root.new.items.defs []) }
        ensures given { IfOk result (λ index. IsGivenFor root.old.world.now
            (user_of self.now.user.which) root.new.items.defs CoreFunc index import.now) }
        ensures supplied { OnOk result
            (IsSuppliedImport root.old.world.now (user_of self.now.user.which) import.now) }
        ensures cause { IfErr result (IsCauseAmong root.old.world.now (record {
          of = user_of self.now.user.which;
          core = import_at place.entry import.now;
        } ∷ []) []) }
    {
        let alloc = root.items.allocator();
        let kind = kind_of_return(alloc, self.user.which, returned, encoding)?;
        let index = self.shim_there(root, &kind)?;
        Ok(index)
    }

    /// The built-in function itself, with main's memory, where it needs that.
    fn make_return(
        &self,
        root: &mut RootScope<'_, ComponentWorld>,
        place: CorePlace<'_>,
        import: &Import,
        returned: ReturnedFunction<'_>,
        encoding: StringEncoding,
        needed: RequiredOptions,
    ) -> Result<u32, StateFault>
        requires sources { AreSources root.old.world.now self.now root.old.met root.old.items.defs
            root.old.maps root.old.instances }
        requires role { import.now ≡ imports.ExportedTaskReturn returned.key.now returned.interface
            returned.function.now }
        requires present { Contains (imports_of self.now.user.found.now)
            (import_at place import.now) }
        requires encoded { of_function returned.key.now returned.function.now.name
            self.now.user.found.now.metadata.export_encodings ≡ Some encoding }
        requires needed { needed.0
            ≡ task_return_set root.old.world.now.resolve.types returned.function.now }
        requires lacks { lists.lacks_memory needed.0 self.now.memory ≡ false }
        ensures kept { RootKept root.old.world.now root.old root.new }
        ensures grows { OnOk result
            (Grows root.old.world.now root.old.items.defs root.new.items.defs []) }
        ensures given { IfOk result (λ index. IsGivenFor root.old.world.now
            (user_of self.now.user.which) root.new.items.defs CoreFunc index import.now) }
        ensures supplied { OnOk result
            (IsSuppliedImport root.old.world.now (user_of self.now.user.which) import.now) }
        ensures cause { IfErr result (IsCauseAmong root.old.world.now (record {
          of = user_of self.now.user.which;
          core = import_at place.entry import.now;
        } ∷ []) []) }
    {
        let alloc = root.items.allocator();
        let place = path_of_import(alloc, place)?;
        let options = list_options(alloc, &place, needed, encoding, self.memory, None)?;
        let index = return_from(root, returned.interface, returned.function.result, options)?;
        Ok(index)
    }

    /// What `task.return` of a function is given as: its shim, where it needs a memory and none is
    /// there by now, or else the built-in function itself.
    ///
    /// `E9` where the function has no string encoding.
    pub(crate) fn give_return(
        &self,
        root: &mut RootScope<'_, ComponentWorld>,
        place: CorePlace<'_>,
        import: &Import,
        returned: ReturnedFunction<'_>,
    ) -> Result<u32, StateFault>
        requires sources { AreSources root.old.world.now self.now root.old.met root.old.items.defs
            root.old.maps root.old.instances }
        requires role { import.now ≡ imports.ExportedTaskReturn returned.key.now returned.interface
            returned.function.now }
        requires present { Contains (imports_of self.now.user.found.now)
            (import_at place import.now) }
        ensures kept { RootKept root.old.world.now root.old root.new }
        ensures grows { OnOk result
            (Grows root.old.world.now root.old.items.defs root.new.items.defs []) }
        ensures given { IfOk result (λ index. IsGivenFor root.old.world.now
            (user_of self.now.user.which) root.new.items.defs CoreFunc index import.now) }
        ensures supplied { OnOk result
            (IsSuppliedImport root.old.world.now (user_of self.now.user.which) import.now) }
        ensures cause { IfErr result (IsCauseAmong root.old.world.now (record {
          of = user_of
              self.now.user.which;
          core = import_at place.entry import.now;
        } ∷ [])
            []) }
    {
        let alloc = root.items.allocator();
        let encoding = return_encoding(alloc, self.user.found, place, returned)?;
        let needed = RequiredOptions::for_task_return(&root.world.resolve, returned.function);
        if lacks_memory(needed, self.memory) {
            self.shim_of_return(root, place, import, returned, encoding, needed)
        } else {
            self.make_return(root, place, import, returned, encoding, needed)
        }
    }
}
