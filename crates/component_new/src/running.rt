//! A run with the lower layer of the program.

ghost use Rattle.std.specs.Prelude.{◌≢◌, false, map};
ghost use Rattle.atomic_files.specs.Files.{Known};
ghost use Rattle.atomic_files.specs.Steps.{Kept};
ghost use Rattle.command_line.specs.Starting.{Started};

use command_line::{Store, start_with};
use comp_worlds::Lower;
use package_lower::PackageLower;
use std::alloc::Global;
use std::io::Write;

/// Runs the program. `arguments` are those after the program's name, as the system gives them; the
/// result is the exit status.
pub(crate) fn run<S: Store, W: Write, E: Write>(
    alloc: Global,
    arguments: &[Vec<u8>],
    store: &mut S,
    out: &mut W,
    err: &mut E,
) -> u8
    ensures started { Started ⟦<PackageLower as Lower>⟧ (record { reject_legacy_names = false })
        (map (λ a. a.items) arguments.now) (S.events store.old) (S.events store.new)
        (W.contents out.old) (W.contents out.new) (E.contents err.old) (E.contents err.new) result }
    ensures files { result ≢ 0 → Known Kept (S.files store.old) (S.files store.new) }
{
    start_with(alloc, PackageLower::new(), arguments, store, out, err)
}
