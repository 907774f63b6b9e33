//! The check of the definitions of a component.

ghost use Rattle.std.specs.Prelude.{◌≡◌, IfOk, IfErr};
ghost use Rattle.comp_check.specs.declared.fault.CheckFault.TheVariants as checks;
ghost use Rattle.comp_check.specs.Faults.{IsRight, IsUnchecked};

use crate::fault::CheckFault;
use crate::indexes::check_indexes;
use comp_bytes::Defs;
use comp_names::check_names;
use std::alloc::Global;

/// Whether these definitions may be a component's: each index names an earlier item of its
/// scope, no name occurs twice in its list, and the names of imports and exports are well formed.
///
/// Component model, binary format: index spaces; explainer: names of imports and exports.
///
/// # Errors
///
/// [`CheckFault::Index`] with an index that names no earlier item, [`CheckFault::NameTwice`] and
/// [`CheckFault::NameForm`] with a name that is wrong; [`CheckFault::Memory`] when out of memory.
/// Indices are checked first.
pub fn check(alloc: Global, definitions: &Defs) -> Result<(), CheckFault>
    ensures ok { IfOk result (λ _. IsRight definitions.now) }
    ensures cause { IfErr result (λ e. IsUnchecked definitions.now e) }
    ensures refused { IsRight definitions.now → IfErr result (λ e. e ≡ checks.Memory) }
{
    check_indexes(definitions)?;
    check_names(alloc, definitions)?;
    Ok(())
}
