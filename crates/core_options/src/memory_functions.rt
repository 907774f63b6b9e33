//! Built-in functions that work on main's memory and are of no type: waits, and functions of error
//! contexts.
//!
//! Canonical ABI: `canon waitable-set.{wait,poll}`, `canon error-context.{new,debug-message}`.
#![tactic(auto, using(comp_items::proofs::Extending::extends_none, comp_items::proofs::Extending::extends_same, comp_items::proofs::Extending::extends_then))]

ghost use Rattle.std.specs.Prelude.{◌≡◌, [], Option, Some, IfOk, IfErr, OnOk};
ghost use Rattle.std.specs.List.{AllByRecursion};
ghost use Rattle.comp_items.specs.Items.{Extends};
ghost use Rattle.comp_links.specs.Targets.{ExportRef};
ghost use Rattle.comp_terms.specs.Planned.{main_memory};
ghost use Rattle.comp_terms.specs.Rules.{Grows, IsOptionRight};
ghost use Rattle.core_options.specs.MainOptions.{IsMemoryIf, IsMemoryFunction, IsNoMemory, NameOptions, function_wanted, intrinsic_for};
ghost use Rattle.root_imports.specs.RootScopes.{IsRefusal};

use crate::fault::StateFault;
use byte_encoding::BuildFault;
use comp_bytes::{CanonicalOption, Intrinsic};
use comp_lists::{Seq, Text};
use comp_worlds::ComponentWorld;
use root_imports::RootScope;
use shim_plan::MemoryFunction;
use std::alloc::Global;

/// A memory that may be there, for a function of this name.
///
/// `E7` where it isn't.
pub fn memory_for(alloc: Global, memory: Option<u32>, name: &Text) -> Result<u32, StateFault>
    ensures ok { IfOk result (λ index. memory ≡ Some index) }
    ensures cause { IfErr result (IsNoMemory memory name.now) }
{
    match memory {
        Some(index) => Ok(index),
        None => {
            let place = name.clone(alloc)?;
            Err(StateFault::NoMemory { place })
        }
    }
}

/// The function, as the component has it: a wait with the memory, and the others with the options.
fn intrinsic_of(function: MemoryFunction, memory: u32, options: Seq<CanonicalOption>) -> Intrinsic
    ensures { result ≡ intrinsic_for function memory options }
{
    match function {
        MemoryFunction::Wait => Intrinsic::WaitableSetWait { memory },
        MemoryFunction::Poll => Intrinsic::WaitableSetPoll { memory },
        MemoryFunction::NewError { encoding: _ } => Intrinsic::ErrorContextNew { options },
        MemoryFunction::ErrorMessage { encoding: _ } => {
            Intrinsic::ErrorContextDebugMessage { options }
        }
    }
}

/// A wait, or a function of error contexts, with main's memory, which is at this index, and these
/// options.
pub fn memory_function(
    root: &mut RootScope<'_, ComponentWorld>,
    function: MemoryFunction,
    memory: u32,
    options: Seq<CanonicalOption>,
) -> Result<u32, BuildFault>
    requires memory { IsMemoryIf root.old.items.defs (main_memory root.old.world.now)
        (Some memory) }
    requires options { AllByRecursion (IsOptionRight root.old.items.defs) options }
    ensures same { root.new ≡ record root.old { items = root.new.items } }
    ensures extends { Extends root.old.items root.new.items }
    ensures grows { OnOk result
        (Grows root.old.world.now root.old.items.defs root.new.items.defs []) }
    ensures made { IfOk result (λ index. (realloc : Option ExportRef)
        → NameOptions root.old.world.now root.old.items.defs options
        (function_wanted function realloc)
        → IsMemoryFunction root.old.world.now root.new.items.defs function
        (function_wanted function realloc) index) }
    ensures cause { IfErr result IsRefusal }
{
    let intrinsic = intrinsic_of(function, memory, options);
    let index = root.items.built_in(intrinsic)?;
    Ok(index)
}
