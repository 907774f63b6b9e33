//! The result of one reading.

ghost use Rattle.std.specs.Prelude.{◌≡◌, IfErr, IfOk, IsTrue};
ghost use Rattle.comp_bytes.specs.Grammar.{Encodes, encoding_of};
ghost use Rattle.byte_encoding.specs.Written.{Refused};

use byte_encoding::BuildFault;
use comp_bytes::{Def, component_bytes};
use comp_read::{ReadFault, read_component};
use std::alloc::{AllocError, Global};

/// Writes definitions, and compares the result with these bytes.
fn writes(alloc: Global, definitions: &[Def], bytes: &[u8]) -> Result<bool, BuildFault>
    ensures ok { IfOk result (λ same. Encodes bytes.now definitions.now → IsTrue same) }
    ensures err { IfErr result (Refused (encoding_of definitions.now).counts) }
{
    let written = component_bytes(alloc, definitions)?;
    Ok(written.as_slice() == bytes)
}

/// Reads bytes as a component: whether they are one. What is read, is written back to the same bytes.
pub(crate) fn read_back(alloc: Global, bytes: &[u8]) -> Result<bool, AllocError> {
    let definitions = match read_component(alloc, bytes) {
        Ok(definitions) => definitions,
        Err(ReadFault::Memory) => return Err(AllocError),
        Err(ReadFault::Grammar { .. }) => return Ok(false),
    };
    match writes(alloc, definitions.as_slice(), bytes) {
        Ok(true) => Ok(true),
        Ok(false) => unreachable!(),
        Err(BuildFault::Memory) => Err(AllocError),
        Err(BuildFault::TooMany { .. }) => unreachable!(),
    }
}
