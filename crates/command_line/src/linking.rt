//! The links of a component, printed on standard output.

ghost use Rattle.std.specs.Prelude.{◌≡◌, List, IfOk, IfErr, string_bytes};
ghost use Rattle.atomic_files.specs.Files.{Known};
ghost use Rattle.atomic_files.specs.Steps.{Unchanged};
ghost use Rattle.comp_check.specs.Faults.{IsUnread};
ghost use Rattle.found_links.specs.Forms.{shown};
ghost use Rattle.found_links.specs.Links.{links};
ghost use Rattle.command_line.specs.Events.{happen};
ghost use Rattle.command_line.specs.Linking.{IsLinksText, Linked};
ghost use Rattle.command_line.specs.declared.store.Event.{Event};

use crate::fault::{RunFault, read_fault, unread_fault};
use crate::messages::print;
use crate::store::Store;
use comp_bytes::Def;
use comp_check::{CheckFault, read_component};
use comp_lists::Text;
use found_links::{Form, find_links, show_links};
use std::alloc::{AllocError, Global};
use std::io::Write;

/// The text of the links of definitions.
fn text_of(alloc: Global, definitions: &[Def], form: Form) -> Result<String, AllocError>
    ensures { IfOk result (λ text. string_bytes text ≡ shown form (links definitions.now)) }
{
    let found = find_links(alloc, definitions)?;
    show_links(alloc, form, found.as_slice())
}

/// The text of the links of the definitions that these bytes encode.
fn text_of_bytes(alloc: Global, bytes: &[u8], form: Form) -> Result<String, CheckFault>
    ensures ok { IfOk result (λ text. IsLinksText bytes.now form (string_bytes text)) }
    ensures cause { IfErr result (λ e. IsUnread bytes.now e) }
{
    let definitions = read_component(alloc, bytes)?;
    match text_of(alloc, definitions.as_slice(), form) {
        Ok(text) => Ok(text),
        Err(_) => Err(CheckFault::Memory),
    }
}

/// The text of the links of the definitions that the bytes of a component encode.
fn links_text(alloc: Global, bytes: Vec<u8>, form: Form) -> Result<String, CheckFault>
    ensures ok { IfOk result (λ text. IsLinksText bytes.items form (string_bytes text)) }
    ensures cause { IfErr result (λ e. IsUnread bytes.items e) }
{
    text_of_bytes(alloc, &bytes, form)
}

/// Reads a component, and prints its links.
pub(crate) fn print_links<S: Store, W: Write, F>(
    alloc: Global,
    file: Text,
    form: Form,
    store: &mut S,
    out: &mut W,
) -> Result<(), RunFault<F>>
    ensures linked { (es : List Event)
        × (S.events store.new ≡ happen (S.events store.old) es)
        × Linked file form es (W.contents out.old) (W.contents out.new) result }
    ensures files { Known Unchanged (S.files store.old) (S.files store.new) }
{
    let bytes = match store.read(alloc, file.as_str()) {
        Ok(bytes) => bytes,
        Err(fault) => return Err(read_fault(false, fault, file)),
    };
    match links_text(alloc, bytes, form) {
        Ok(text) => print(out, text.as_bytes()),
        Err(fault) => Err(unread_fault(fault)),
    }
}
