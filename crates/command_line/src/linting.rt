//! The warnings of a module and of adapters, printed on standard output.

ghost use Rattle.std.specs.Prelude.{◌≡◌, List};
ghost use Rattle.atomic_files.specs.Files.{Known};
ghost use Rattle.atomic_files.specs.Steps.{Unchanged};
ghost use Rattle.command_line.specs.Events.{happen};
ghost use Rattle.command_line.specs.Linting.{Lints, Linted};
ghost use Rattle.command_line.specs.declared.store.Event.{Event};

use crate::adapters::Adapter;
use crate::fault::{RunFault, lint_fault};
use crate::messages::print_warnings;
use crate::reading::read_files;
use crate::store::Store;
use comp_lists::{Seq, Text};
use fitted_modules::Modules;
use module_warnings::warnings_text;
use std::alloc::Global;
use std::io::Write;

/// Prints the warnings of modules.
fn lint_read<W: Write, F>(alloc: Global, modules: Modules, out: &mut W) -> Result<(), RunFault<F>>
    ensures { Lints modules (W.contents out.old) (W.contents out.new) result }
{
    match warnings_text(alloc, modules) {
        Ok(text) => print_warnings(out, text.as_bytes()),
        Err(fault) => Err(lint_fault(fault)),
    }
}

/// Reads a main module and adapters, and prints their warnings.
pub(crate) fn lint<S: Store, W: Write, F>(
    alloc: Global,
    main: Text,
    adapters: Seq<Adapter>,
    store: &mut S,
    out: &mut W,
) -> Result<(), RunFault<F>>
    ensures linted { (es : List Event)
        × (S.events store.new ≡ happen (S.events store.old) es)
        × Linted main adapters es (W.contents out.old) (W.contents out.new) result }
    ensures files { Known Unchanged (S.files store.old) (S.files store.new) }
{
    let read = read_files(alloc, main, adapters, store)?;
    lint_read(alloc, read, out)
}
