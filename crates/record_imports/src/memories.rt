//! Whether all imports of the memory accept the one that is given to the first.

ghost use Rattle.std.specs.Prelude.{◌≡◌, map, Err, IfErr, IsOk};
ghost use Rattle.comp_roles.specs.Borrowed.{core_import};
ghost use Rattle.comp_roles.specs.Lookups.{memory_of_import};
ghost use Rattle.record_faults.specs.Faults.{Gives};
ghost use Rattle.record_faults.specs.declared.fault.Refusal.{Refusal as RefusalRecord};
ghost use Rattle.record_faults.specs.declared.fault.Failure.TheVariants.{Refused};
ghost use Rattle.record_imports.specs.Causes.{MemoryCause};
ghost use Rattle.record_imports.specs.Memories.{fits_maximum, fits_memory, takes, unfit_memory, all_take, memories_fit};

use comp_lists::Text;
use comp_roles::{Import, ImportMap, NamedImport};
use core_types::MemoryType;
use record_faults::{Failure, Refusal};
use std::alloc::Global;

/// Whether a maximum size can be given where this one is required.
fn fits_maximum(offered: Option<u32>, asked: Option<u32>) -> bool
    ensures { result ≡ fits_maximum offered asked }
{
    match (offered, asked) {
        (_, None) => true,
        (None, Some(_)) => false,
        (Some(greatest), Some(most)) => greatest <= most,
    }
}

/// Whether a memory of the first type can be given where the second is required.
fn fits_memory(offered: MemoryType, asked: MemoryType) -> bool
    ensures { result ≡ fits_memory offered asked }
{
    asked.minimum <= offered.minimum && fits_maximum(offered.maximum, asked.maximum)
}

/// Whether the first memory can be given to an import; an import that is no memory doesn't require it.
fn takes(first: MemoryType, role: &Import) -> bool
    ensures { result ≡ takes first (memory_of_import role.now) }
{
    match role {
        Import::MainModuleMemory(asked) => fits_memory(first, *asked),
        _ => true,
    }
}

/// The refusal of a memory of this field.
fn unfit_memory<T>(alloc: Global, field: &str) -> Result<T, Failure>
    ensures { Gives (λ x. x) result (Err (unfit_memory field.now)) }
{
    Err(Failure::Refused(Refusal::CoreType {
        name: Text::from_str(alloc, field)?,
    }))
}

/// Whether the first memory can be given to each of these imports.
fn all_take(alloc: Global, first: MemoryType, imports: &[NamedImport<'_>]) -> Result<(), Failure>
    ensures { Gives (λ x. x) result (all_take first (map core_import imports.now)) }
{
    for import in imports {
        if !takes(first, import.role) {
            return unfit_memory(alloc, import.field);
        }
    }
    Ok(())
}

/// Whether all imports of the memory accept that of the first.
#[tactic(auto, unfolding(crate::specs::Memories::memories_fit))]
fn compare_memories(alloc: Global, map: &ImportMap) -> Result<(), Failure>
    ensures { Gives (λ x. x) result (memories_fit map.now.modules) }
{
    let Some(first) = map.imported_memory() else {
        return Ok(());
    };
    let imports = map.imports(alloc)?;
    all_take(alloc, first, imports.as_slice())
}

/// Whether all imports of a main module that are its memory accept that of the first. The refusal names
/// the field of an import that doesn't (`CoreType`); the only other one is out of memory.
#[tactic(auto, using(crate::proofs::Refusing::no_memory_cause, crate::proofs::Refusing::has_memory_cause))]
pub fn check_memories(alloc: Global, map: &ImportMap) -> Result<(), Failure>
    ensures exact { Gives (λ x. x) result (memories_fit map.now.modules) }
    ensures refused { IsOk result → (f : RefusalRecord) → MemoryCause map.now.modules f → ⊥ }
    ensures cause { IfErr result
        (λ e. (f : RefusalRecord) → e ≡ Refused f → MemoryCause map.now.modules f) }
{
    let compared = compare_memories(alloc, map)?;
    Ok(compared)
}
