//! A component, printed on standard output.

ghost use Rattle.std.specs.Prelude.{◌≡◌, ◌∷◌, [], List, IfOk, IfErr, map, string_bytes};
ghost use Rattle.comp_bytes.specs.Grammar.{Encodes};
ghost use Rattle.comp_bytes.specs.declared.def.Def.{Def};
ghost use Rattle.comp_check.specs.Faults.{IsUnread};
ghost use Rattle.comp_lines.specs.Lines.{lines};
ghost use Rattle.atomic_files.specs.Files.{Known};
ghost use Rattle.atomic_files.specs.Steps.{Unchanged};
ghost use Rattle.command_line.specs.Events.{happen};
ghost use Rattle.command_line.specs.Faults.{is_whole};
ghost use Rattle.command_line.specs.declared.store.Event.{Event};
ghost use Rattle.command_line.specs.Listing.{printed, Listed};
ghost use Rattle.command_line.specs.Messages.{Puts};

use crate::fault::{RunFault, Written, read_fault, run_written};
use crate::messages::put;
use crate::store::Store;
use byte_encoding::BuildFault;
use comp_check::{CheckFault, read_component};
use comp_lines::describe;
use comp_lists::Text;
use std::alloc::Global;
use std::io::Write;

/// The lines of the definitions that the bytes of a component encode.
fn lines_of(alloc: Global, bytes: &[u8]) -> Result<Vec<String>, CheckFault>
    ensures ok { IfOk result (λ found. (ds : List Def)
        × Encodes bytes.now ds
        × (map string_bytes found.items ≡ lines ds)) }
    ensures cause { IfErr result (λ e. IsUnread bytes.now e) }
{
    let definitions = read_component(alloc, bytes)?;
    match describe(alloc, &definitions) {
        Ok(lines) => Ok(lines),
        Err(BuildFault::Memory) => Err(CheckFault::Memory),
        Err(BuildFault::TooMany { .. }) => unreachable!(),
    }
}

/// Writes a line with its end.
fn put_line<W: Write>(writer: &mut W, line: &str) -> Written
    ensures { Puts (W.contents writer.old) (W.contents writer.new) (printed (line.now ∷ []))
        (is_whole result) }
{
    let written = put(writer, line.as_bytes());
    if written.is_whole() {
        put(writer, b"\n")
    } else {
        written
    }
}

/// Writes lines with their ends.
fn put_lines<W: Write>(writer: &mut W, lines: &[String]) -> Written
    ensures { Puts (W.contents writer.old) (W.contents writer.new)
        (printed (map string_bytes lines.now)) (is_whole result) }
{
    for line in lines {
        let written = put_line(writer, line.as_str());
        if !written.is_whole() {
            return written;
        }
    }
    Written::Whole
}

/// Reads a component, and prints its definitions, one line each.
pub(crate) fn list<S: Store, W: Write, F>(
    alloc: Global,
    file: Text,
    store: &mut S,
    out: &mut W,
) -> Result<(), RunFault<F>>
    ensures listed { (es : List Event)
        × (S.events store.new ≡ happen (S.events store.old) es)
        × Listed file es (W.contents out.old) (W.contents out.new) result }
    ensures files { Known Unchanged (S.files store.old) (S.files store.new) }
{
    let bytes = match store.read(alloc, file.as_str()) {
        Ok(bytes) => bytes,
        Err(fault) => return Err(read_fault(true, fault, file)),
    };
    let lines = match lines_of(alloc, &bytes) {
        Ok(lines) => lines,
        Err(fault) => return Err(RunFault::Check(fault)),
    };
    run_written(put_lines(out, &lines))
}
