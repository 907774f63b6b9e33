//! Lists with one more entry at their end.
#![tactic(auto, using(byte_encoding::proofs::Pieces::writing))]

ghost use Rattle.std.specs.Prelude.{◌≡◌, ◌+◌, length};
ghost use Rattle.byte_encoding.specs.Encoding.{raw, octet, number, quantity, named, sized};
ghost use Rattle.byte_encoding.specs.Encoding.{Encoding, ◌⊕◌};
ghost use Rattle.byte_encoding.specs.Written.{Writes};
ghost use Rattle.module_edits.specs.Additions.{one_more, one_more_of, with_id};

use byte_encoding::{BuildFault, put_bytes, put_count, put_index};
use core_parts::read_number;

/// Writes bytes after their count.
pub(crate) fn put_blob(out: &mut Vec<u8>, bytes: &[u8]) -> Result<(), BuildFault>
    ensures { Writes out.old.items out.new.items result (named bytes.now) }
{
    put_count(out, bytes.len())?;
    put_bytes(out, bytes)?;
    Ok(())
}

/// Writes a count that is one more, entries, and an entry.
fn put_entries(
    out: &mut Vec<u8>,
    count: u32,
    entries: &[u8],
    entry: &[u8],
) -> Result<(), BuildFault>
    ensures { Writes out.old.items out.new.items result
        (quantity (count + 1) ⊕ raw entries.now ⊕ raw entry.now) }
{
    put_count(out, count as usize + 1)?;
    put_bytes(out, entries)?;
    put_bytes(out, entry)?;
    Ok(())
}

/// Writes a list with one more entry.
pub(crate) fn put_one_more(
    out: &mut Vec<u8>,
    contents: &[u8],
    entry: &[u8],
) -> Result<(), BuildFault>
    ensures { Writes out.old.items out.new.items result (one_more contents.now (raw entry.now)) }
{
    match read_number(contents) {
        None => put_bytes(out, contents),
        Some((count, entries)) => put_entries(out, count, entries, entry),
    }
}

/// Writes a section of this id: a list with one more entry.
pub(crate) fn put_longer_section(
    out: &mut Vec<u8>,
    id: u8,
    contents: &[u8],
    entry: &[u8],
) -> Result<(), BuildFault>
    ensures { Writes out.old.items out.new.items result
        (with_id id (one_more contents.now (raw entry.now))) }
{
    let mut buffer = Vec::new(*out.allocator());
    put_one_more(&mut buffer, contents, entry)?;
    put_bytes(out, &[id])?;
    put_blob(out, buffer.as_slice())?;
    Ok(())
}

/// Writes the section of functions with one more, of this type.
pub(crate) fn put_functions(
    out: &mut Vec<u8>,
    contents: &[u8],
    type_index: u32,
) -> Result<(), BuildFault>
    ensures { Writes out.old.items out.new.items result
        (with_id 3 (one_more contents.now (number type_index))) }
{
    let mut entry = Vec::new(*out.allocator());
    put_index(&mut entry, type_index)?;
    put_longer_section(out, 3, contents, entry.as_slice())
}
