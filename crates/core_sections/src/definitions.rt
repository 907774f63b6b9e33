//! The encoding of the functions, tables, memories and globals that a core module defines.

ghost use Rattle.std.specs.Prelude.{◌≡◌};
ghost use Rattle.core_sections.specs.Definitions.{initialised, filled_table_at, global_definition_at};
ghost use Rattle.core_sections.specs.Reading.{Gives};

use crate::constants::skip_constant;
use crate::contents::{read_byte, read_function, read_global, read_memory, read_table};
use crate::entries::EntityType;
use crate::reading::{Read, ReadFault};
use std::alloc::Global;

/// Functions that a module defines.
pub(crate) struct Functions {}

/// Tables that a module defines.
pub(crate) struct Tables {}

/// Memories that a module defines.
pub(crate) struct Memories {}

/// Globals that a module defines.
pub(crate) struct Globals {}

/// A table with an initial value for its elements, after the first of its two bytes.
fn read_filled_table(alloc: Global, bytes: &[u8]) -> Result<(EntityType, &[u8]), ReadFault>
    ensures { Gives (λ x. (x.0, x.1.now)) result (filled_table_at bytes.now) }
{
    let (byte, rest) = read_byte(bytes)?;
    if byte != 0 {
        return Err(ReadFault::Malformed);
    }
    let (table, rest) = read_table(alloc, rest)?;
    Ok((table, skip_constant(rest)?))
}

fn read_global_definition(alloc: Global, bytes: &[u8]) -> Result<(EntityType, &[u8]), ReadFault>
    ensures { Gives (λ x. (x.0, x.1.now)) result (global_definition_at bytes.now) }
{
    let (global, rest) = read_global(alloc, bytes)?;
    Ok((global, skip_constant(rest)?))
}

impl Read for Functions {
    ghost use Rattle.core_sections.specs.Contents.{function_at};

    type Value = EntityType;

    ghost at = { function_at };

    fn read(_alloc: Global, bytes: &[u8]) -> Result<(EntityType, &[u8]), ReadFault> {
        read_function(bytes)
    }
}

impl Read for Tables {
    ghost use Rattle.core_sections.specs.Definitions.{table_definition_at};

    type Value = EntityType;

    ghost at = { table_definition_at };

    #[tactic(auto, unfolding(crate::specs::Definitions::table_definition_at))]
    fn read(alloc: Global, bytes: &[u8]) -> Result<(EntityType, &[u8]), ReadFault> {
        let (byte, rest) = read_byte(bytes)?;
        if byte == 0x40 {
            return read_filled_table(alloc, rest);
        }
        read_table(alloc, bytes)
    }
}

impl Read for Memories {
    ghost use Rattle.core_sections.specs.Contents.{memory_at};

    type Value = EntityType;

    ghost at = { memory_at };

    fn read(alloc: Global, bytes: &[u8]) -> Result<(EntityType, &[u8]), ReadFault> {
        read_memory(alloc, bytes)
    }
}

impl Read for Globals {
    ghost use Rattle.core_sections.specs.Definitions.{global_definition_at};

    type Value = EntityType;

    ghost at = { global_definition_at };

    fn read(alloc: Global, bytes: &[u8]) -> Result<(EntityType, &[u8]), ReadFault> {
        read_global_definition(alloc, bytes)
    }
}
