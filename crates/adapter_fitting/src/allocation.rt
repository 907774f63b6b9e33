//! The functions that are added to modules: their types, bodies and exports.
#![tactic(auto, using(byte_encoding::proofs::Pieces::writing))]

ghost use Rattle.std.specs.Prelude.{◌≡◌, ◌++◌, List};
ghost use Rattle.byte_encoding.specs.Encoding.{raw, octet, number, quantity, each, named};
ghost use Rattle.byte_encoding.specs.Encoding.{Encoding, ◌⊕◌};
ghost use Rattle.byte_encoding.specs.Written.{Writes};
ghost use Rattle.core_types.specs.Grammar.{function_type};
ghost use Rattle.adapter_fitting.specs.Allocation.{if_absent, set_state, stack_end, allocation};
ghost use Rattle.adapter_fitting.specs.Allocation.{allocation_type, realloc_type, page_realloc};
ghost use Rattle.adapter_fitting.specs.MainRealloc.{function_export, realloc_name};

use crate::stack::StackGlobals;
use byte_encoding::{BuildFault, put_bytes, put_count, put_index, put_tagged};

/// The type without parameters and results.
#[tactic(auto, unfolding(byte_encoding::specs::Encoding::leb128))]
pub(crate) fn allocation_type() -> &'static [u8]
    ensures { result.now ≡ (function_type allocation_type).bytes }
{
    &[0x60, 0x00, 0x00]
}

/// The type of a realloc.
#[tactic(auto, unfolding(byte_encoding::specs::Encoding::leb128))]
pub(crate) fn realloc_type() -> &'static [u8]
    ensures { result.now ≡ (function_type realloc_type).bytes }
{
    &[0x60, 0x04, 0x7f, 0x7f, 0x7f, 0x7f, 0x01, 0x7f]
}

/// Writes the test of the state.
fn put_test(out: &mut Vec<u8>, state: u32) -> Result<(), BuildFault>
    ensures { Writes out.old.items out.new.items result (if_absent state) }
{
    put_tagged(out, 0x23, &state)?;
    put_bytes(out, &[0x41, 0x00])?;
    put_bytes(out, &[0x46])?;
    put_bytes(out, &[0x04, 0x40])?;
    Ok(())
}

/// Writes that the state becomes this value.
fn put_state(out: &mut Vec<u8>, value: u8, state: u32) -> Result<(), BuildFault>
    ensures { Writes out.old.items out.new.items result (set_state value state) }
{
    put_bytes(out, &[0x41, value])?;
    put_tagged(out, 0x24, &state)?;
    Ok(())
}

/// Writes the end of what main's realloc answers with.
fn put_stack_end(out: &mut Vec<u8>, realloc: u32) -> Result<(), BuildFault>
    ensures { Writes out.old.items out.new.items result (stack_end realloc) }
{
    put_bytes(
        out,
        &[0x41, 0x00, 0x41, 0x00, 0x41, 0x08, 0x41, 0x80, 0x80, 0x04],
    )?;
    put_tagged(out, 0x10, &realloc)?;
    put_bytes(out, &[0x41, 0x80, 0x80, 0x04, 0x6a])?;
    Ok(())
}

/// Writes the body of the function that allocates a stack, where that isn't there yet.
pub(crate) fn put_allocation(
    out: &mut Vec<u8>,
    realloc: u32,
    globals: StackGlobals,
) -> Result<(), BuildFault>
    ensures { Writes out.old.items out.new.items result (allocation realloc globals) }
{
    put_bytes(out, &[0x00])?;
    put_test(out, globals.state)?;
    put_state(out, 1, globals.state)?;
    put_stack_end(out, realloc)?;
    put_tagged(out, 0x24, &globals.pointer)?;
    put_state(out, 2, globals.state)?;
    put_bytes(out, &[0x0b, 0x0b])?;
    Ok(())
}

/// The body of a realloc that answers with a page of memory.
pub(crate) fn page_realloc() -> &'static [u8]
    ensures { result.now ≡ page_realloc.bytes }
{
    &[
        0x01, 0x01, 0x7f, 0x41, 0x00, 0x20, 0x00, 0x47, 0x04, 0x40, 0x00, 0x0b, 0x41, 0x00, 0x20,
        0x01, 0x47, 0x04, 0x40, 0x00, 0x0b, 0x41, 0x80, 0x80, 0x04, 0x20, 0x03, 0x47, 0x04, 0x40,
        0x00, 0x0b, 0x41, 0x01, 0x40, 0x00, 0x22, 0x04, 0x41, 0x7f, 0x46, 0x04, 0x40, 0x00, 0x0b,
        0x20, 0x04, 0x41, 0x10, 0x74, 0x0b,
    ]
}

/// Writes the entry of an export of a function as `cabi_realloc_adapter`.
pub(crate) fn put_realloc_export(out: &mut Vec<u8>, index: u32) -> Result<(), BuildFault>
    ensures { Writes out.old.items out.new.items result (function_export realloc_name index) }
{
    let name = b"cabi_realloc_adapter";
    put_count(out, name.len())?;
    put_bytes(out, name)?;
    put_bytes(out, &[0x00])?;
    put_index(out, index)?;
    Ok(())
}
