//! The names of a component.

ghost use Rattle.std.specs.Prelude.{◌≡◌, IfOk, IfErr};
ghost use Rattle.comp_bytes.specs.ScopeNames.{names};
ghost use Rattle.comp_names.specs.declared.fault.NameFault.TheVariants as faults;
ghost use Rattle.comp_names.specs.Names.{NamesOk, IsNameFault, extern_names};
ghost use Rattle.comp_names.specs.Judged.{Judges};

use crate::checking::each;
use crate::fault::NameFault;
use crate::listing::apart;
use crate::lists::{Exports, Imports};
use comp_bytes::{Def, Defs};
use std::alloc::Global;

fn component(alloc: Global, definitions: &[Def]) -> Result<(), NameFault>
    ensures { Judges (names definitions.now) (extern_names definitions.now) result }
{
    apart::<Def, Imports>(alloc, definitions)?;
    apart::<Def, Exports>(alloc, definitions)?;
    each::<Def>(alloc, definitions)
}

/// Whether no name of a component occurs twice in its list, and those of imports and exports are well
/// formed; of nested components and instance types too.
///
/// Component model, explainer: names are distinct in their list; `plainname`, `interfacename`.
///
/// The errors are [`NameFault::Twice`], with a name that occurs twice in a list, [`NameFault::Form`],
/// with the name of an import or an export that is not well formed, and [`NameFault::Memory`] when out of
/// memory. The cost is linear.
pub fn check_names(alloc: Global, definitions: &Defs) -> Result<(), NameFault>
    ensures ok { IfOk result (λ done. NamesOk definitions.now) }
    ensures cause { IfErr result (IsNameFault definitions.now) }
    ensures refused { NamesOk definitions.now → IfErr result (λ fault. fault ≡ faults.Memory) }
{
    component(alloc, definitions.as_slice())
}
