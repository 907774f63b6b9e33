//! A component, read from its bytes.

ghost use Rattle.std.specs.Prelude.{◌≡◌, List, IfOk, IfErr};
ghost use Rattle.comp_bytes.specs.Grammar.{Encodes};
ghost use Rattle.comp_bytes.specs.declared.def.Def.{Def};
ghost use Rattle.comp_check.specs.Faults.{IsUnread};

use crate::fault::CheckFault;
use comp_bytes::Defs;
use std::alloc::Global;

/// The definitions of a component, read from its binary format. Reading does not check indices and
/// names: [`check`](crate::check) does.
///
/// Component model, binary format: `component`.
///
/// # Errors
///
/// [`CheckFault::Grammar`] with the offset of the section that can't be read; [`CheckFault::Memory`] when out
/// of memory.
pub fn read_component(alloc: Global, bytes: &[u8]) -> Result<Defs, CheckFault>
    ensures ok { IfOk result (λ defs. Encodes bytes.now defs) }
    ensures same { IfOk result (λ defs. (ds : List Def) → Encodes bytes.now ds → ds ≡ defs) }
    ensures cause { IfErr result (λ e. IsUnread bytes.now e) }
{
    comp_bytes::one_list();
    Ok(comp_read::read_component(alloc, bytes)?)
}
