//! Calls of imported functions by core imports: their string encodings, and the kinds of their shims.
#![tactic(auto)]

ghost use Rattle.std.specs.Prelude.{◌≡◌, Some, IfOk, IfErr};
ghost use Rattle.std.specs.Option.{option_copied};
ghost use Rattle.comp_links.specs.Roles.{field_path};
ghost use Rattle.comp_roles.specs.Functions.{of_function};
ghost use Rattle.core_options.specs.MainOptions.{user_of};
ghost use Rattle.main_instance.specs.Calls.{lowering_kind, IsUnencoded};
ghost use Rattle.shim_targets.specs.ShimTargets.{which_of};

use comp_lists::{Text, TryClone};
use comp_roles::MainOrAdapter;
use comp_worlds::{CustomModule, LoweringKey, ValidatedModule};
use core_options::{StateFault, encoding_of};
use shim_plan::ShimKind;
use standard_kinds::StringEncoding;
use std::alloc::{AllocError, Global};
use wit_data::{AbiVariant, WorldKey};

/// A core import, by the names of its module and field.
#[derive(Clone, Copy)]
pub(crate) struct CorePlace<'a> {
    pub module: &'a Text,
    pub field: &'a Text,
}

/// The text that names a core import in faults: `module::field`.
pub(crate) fn path_of_import(alloc: Global, place: CorePlace<'_>) -> Result<Text, AllocError>
    ensures { IfOk result
        (λ path. path ≡ field_path place.entry.«module».now place.entry.field.now) }
{
    let mut path = String::from_str(alloc, place.module.as_str())?;
    path.push_str("::")?;
    path.push_str(place.field.as_str())?;
    Ok(Text::from_string(path))
}

/// The string encoding with which a module calls a function, by the key of the import that has it
/// and its name there. `place` names the core import in faults.
///
/// `E9` where there is none.
pub(crate) fn import_encoding(
    alloc: Global,
    validated: &ValidatedModule,
    place: CorePlace<'_>,
    key: &WorldKey,
    function: &Text,
) -> Result<StringEncoding, StateFault>
    ensures ok { IfOk result (λ encoding. of_function key.now function.now
        validated.now.metadata.import_encodings
        ≡ Some encoding) }
    ensures cause { IfErr result (IsUnencoded
        (of_function key.now function.now validated.now.metadata.import_encodings)
        (field_path place.entry.«module».now place.entry.field.now)) }
{
    match encoding_of(alloc, &validated.metadata.import_encodings, key, function)? {
        Some(encoding) => Ok(encoding),
        None => {
            let place = path_of_import(alloc, place)?;
            Err(StateFault::NoEncoding { place })
        }
    }
}

/// A user module, as kinds of shims name it.
pub fn main_or_adapter(alloc: Global, which: CustomModule<'_>) -> Result<MainOrAdapter, AllocError>
    ensures { IfOk result (λ module_name. module_name ≡ which_of (user_of which.entry)) }
{
    match which {
        CustomModule::Main => Ok(MainOrAdapter::Main),
        CustomModule::Adapter(name) => Ok(MainOrAdapter::Adapter(Text::from_str(alloc, name)?)),
    }
}

/// The kind of the shim for calls of a function by a module: `interface` is the key of its
/// interface, none for a function at the root.
pub(crate) fn kind_of_call(
    alloc: Global,
    which: CustomModule<'_>,
    interface: Option<&WorldKey>,
    name: &Text,
    abi: AbiVariant,
    encoding: StringEncoding,
) -> Result<ShimKind, AllocError>
    ensures { IfOk result (λ kind. kind
        ≡ lowering_kind (which_of (user_of which.entry)) (option_copied interface.entry)
        name.now abi encoding) }
{
    let interface = match interface {
        Some(key) => Some(key.try_clone(alloc)?),
        None => None,
    };
    let name = name.clone(alloc)?;
    let realloc = main_or_adapter(alloc, which)?;
    Ok(ShimKind::IndirectLowering {
        interface,
        function: LoweringKey { name, abi },
        realloc,
        encoding,
    })
}
