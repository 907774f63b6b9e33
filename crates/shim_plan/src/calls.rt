//! Functions of the world as core imports call them.

ghost use Rattle.std.specs.Prelude.{◌≡◌, IfOk};
ghost use Rattle.std.specs.Option.{option_copied};
ghost use Rattle.shim_plan.specs.Needed as specs;

use comp_lists::{Text, TryClone};
use comp_roles::{FunctionKey, Import};
use comp_worlds::{ComponentWorld, Lowering, LoweringKey, ValidatedModule};
use standard_kinds::StringEncoding;
use std::alloc::{AllocError, Global};
use wit_data::{AbiVariant, WorldKey};

/// A function that the world imports, as a core import calls it.
pub(crate) struct FunctionCall {
    /// The key of its interface, or none at the root.
    pub interface: Option<WorldKey>,
    /// The key of the world's import that has it.
    pub key: WorldKey,
    /// Its name there, and the form of the call.
    pub function: LoweringKey,
}

impl Drop for FunctionCall {
    fn drop(self) {
        let FunctionCall {
            interface: _,
            key: _,
            function: _,
        } = self;
    }
}

/// A call of the function of a name.
fn call_at(
    alloc: Global,
    interface: Option<WorldKey>,
    key: &WorldKey,
    name: &Text,
    abi: AbiVariant,
) -> Result<FunctionCall, AllocError>
    ensures { IfOk result (λ c. c
        ≡ record {
          interface = interface;
          key = key.now;
          function = record { name = name.now; abi = abi };
        }) }
{
    let key = key.try_clone(alloc)?;
    let name = name.clone(alloc)?;
    Ok(FunctionCall {
        interface,
        key,
        function: LoweringKey { name, abi },
    })
}

/// The call that is the role of a core import, if it is one.
pub(crate) fn call_of(alloc: Global, role: &Import) -> Result<Option<FunctionCall>, AllocError>
    ensures { IfOk result (λ c. c ≡ specs.call_of role.now) }
{
    match role {
        Import::WorldFunc(key, name, abi) => Ok(Some(call_at(alloc, None, key, name, *abi)?)),
        Import::InterfaceFunc(key, _, name, abi) => {
            let interface = key.try_clone(alloc)?;
            Ok(Some(call_at(alloc, Some(interface), key, name, *abi)?))
        }
        _ => Ok(None),
    }
}

/// How a call is lowered.
pub(crate) fn lowering_of<'a>(
    world: &'a ComponentWorld,
    call: &FunctionCall,
) -> Option<&'a Lowering>
    ensures { option_copied result ≡ specs.lowering_of_call world.now call.now }
{
    let interface = world.import_map.get(&call.interface)?;
    interface.lowerings.get(&call.function)
}

/// The string encoding with which a module calls a function.
pub(crate) fn encoding_of(
    alloc: Global,
    module: &ValidatedModule,
    call: &FunctionCall,
) -> Result<Option<StringEncoding>, AllocError>
    ensures { IfOk result (λ e. e ≡ specs.encoding_of_call «module».now call.now) }
{
    let wanted = FunctionKey {
        key: call.key.try_clone(alloc)?,
        function: call.function.name.clone(alloc)?,
    };
    Ok(module.metadata.import_encodings.get(&wanted).copied())
}
