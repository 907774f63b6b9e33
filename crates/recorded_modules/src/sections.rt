//! A custom section (core standard, binary format: custom section).
#![tactic(auto, using(byte_encoding::proofs::Pieces::writing))]

ghost use Rattle.byte_encoding.specs.Encoding.{raw, named, sized, ◌⊕◌};
ghost use Rattle.byte_encoding.specs.Written.{Writes};
ghost use Rattle.recorded_modules.specs.Recorded.{custom_section};

use byte_encoding::{BuildFault, put_bytes, put_count};

/// Writes a name and what follows it.
fn put_contents(out: &mut Vec<u8>, name: &[u8], contents: &[u8]) -> Result<(), BuildFault>
    ensures { Writes out.old.items out.new.items result (named name.now ⊕ raw contents.now) }
{
    put_count(out, name.len())?;
    put_bytes(out, name)?;
    put_bytes(out, contents)?;
    Ok(())
}

/// Writes a custom section.
pub(crate) fn put_custom_section(
    out: &mut Vec<u8>,
    name: &[u8],
    contents: &[u8],
) -> Result<(), BuildFault>
    ensures { Writes out.old.items out.new.items result (custom_section name.now contents.now) }
{
    let mut held = Vec::new(*out.allocator());
    put_contents(&mut held, name, contents)?;
    put_bytes(out, &[0])?;
    put_count(out, held.len())?;
    put_bytes(out, held.as_slice())?;
    Ok(())
}
