//! The component of a world as bytes, checked where `validate` is on.

ghost use Rattle.std.specs.Prelude.{◌≡◌, IfOk, IfErr, IsOk, IsTrue, OnOk};
ghost use Rattle.comp_bytes.specs.Scopes.{Scoped};
ghost use Rattle.comp_names.specs.Names.{NamesOk};
ghost use Rattle.comp_check.specs.Faults.{IsUnchecked};
ghost use Rattle.comp_worlds.specs.Encodable.{IsEncodable};
ghost use Rattle.comp_encoder.specs.Component.{IsComponentOf};
ghost use Rattle.comp_imports.specs.Names.{naming_of};
ghost use Rattle.core_options.specs.Causes.{of_build};
ghost use Rattle.comp_encoder.specs.Outputs.{IsNamesRefusal, IsOutputRefusal, NoOutputCause, NoSharedName};

use crate::canonical_names::{SharedName, shared_name};
use byte_encoding::BuildFault;
use comp_builder::ComponentBuilder;
use comp_check::{CheckFault, check};
use comp_imports::ImportNames;
use comp_state::encode_world;
use comp_worlds::ComponentWorld;
use core_options::StateFault;
use std::alloc::{AllocError, Global};

/// Why no component of a world is returned.
#[derive(Debug, Drop)]
pub(crate) enum OutputFault {
    /// Two imports, or two exports, have one canonical name.
    Names(SharedName),
    /// It could not be made.
    State(StateFault),
    /// It was made, and the check refuses it.
    Check(CheckFault),
}

impl From<AllocError> for OutputFault {
    ghost use Rattle.comp_encoder.specs.declared.output.OutputFault.TheVariants as outputs;
    ghost use Rattle.core_options.specs.declared.fault.StateFault.TheVariants as states;

    ghost from_gives = { λ a e. e ≡ outputs.State states.Memory };

    fn from(fault: AllocError) -> OutputFault {
        OutputFault::State(StateFault::from(fault))
    }
}

impl From<StateFault> for OutputFault {
    ghost use Rattle.comp_encoder.specs.declared.output.OutputFault.TheVariants as outputs;

    ghost from_gives = { λ s e. e ≡ outputs.State s };

    fn from(fault: StateFault) -> OutputFault {
        OutputFault::State(fault)
    }
}

impl From<BuildFault> for OutputFault {
    ghost use Rattle.comp_encoder.specs.declared.output.OutputFault.TheVariants as outputs;

    ghost from_gives = { λ b e. e ≡ outputs.State (of_build b) };

    fn from(fault: BuildFault) -> OutputFault {
        OutputFault::State(StateFault::from(fault))
    }
}

impl From<CheckFault> for OutputFault {
    ghost use Rattle.comp_encoder.specs.declared.output.OutputFault.TheVariants as outputs;

    ghost from_gives = { λ c e. e ≡ outputs.Check c };

    fn from(fault: CheckFault) -> OutputFault {
        OutputFault::Check(fault)
    }
}

/// Checks that no two imports, and no two exports, have one canonical name, where canonical names are on.
fn check_names(alloc: Global, world: &ComponentWorld, canonical: bool) -> Result<(), OutputFault>
    requires { IsEncodable world.now }
    ensures ok { OnOk result (NoSharedName canonical world.now) }
    ensures cause { IfErr result (IsNamesRefusal canonical world.now) }
{
    if !canonical {
        return Ok(());
    }
    let shared = shared_name(alloc, &world.resolve, world.world)?;
    match shared {
        None => Ok(()),
        Some(shared) => Err(OutputFault::Names(shared)),
    }
}

/// Checks what was built, where `validate` is on.
fn check_if(alloc: Global, validate: bool, component: &ComponentBuilder) -> Result<(), CheckFault>
    ensures ok { IfOk result (λ _. IsTrue validate → NamesOk component.now.defs) }
    ensures cause { IfErr result (λ e. IsTrue validate × IsUnchecked component.now.defs e) }
{
    if validate {
        check(alloc, component.definitions())?;
    }
    Ok(())
}

/// The bytes of a world's component, whose imported interfaces have the names that `names` makes,
/// and whose core modules have names for debuggers if it says so.
pub(crate) fn component_bytes(
    alloc: Global,
    world: &ComponentWorld,
    names: ImportNames<'_>,
    validate: bool,
) -> Result<Vec<u8>, OutputFault>
    requires { IsEncodable world.now }
    ensures ok { IfOk result
        (λ bytes. IsComponentOf (naming_of names.entry) world.now validate bytes.items) }
    ensures refused { IsOk result → NoOutputCause (naming_of names.entry) world.now validate }
    ensures cause { IfErr result (IsOutputRefusal (naming_of names.entry) world.now validate) }
{
    check_names(alloc, world, names.canonical)?;
    let component = encode_world(alloc, world, names)?;
    check_if(alloc, validate, &component)?;
    Ok(component.finish()?)
}
