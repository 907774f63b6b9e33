//! From a module's file to that of the module with its record.

ghost use Rattle.std.specs.Prelude.{◌≡◌, List, IfErr};
ghost use Rattle.atomic_files.specs.Files.{Known};
ghost use Rattle.atomic_files.specs.Steps.{Kept, Unchanged};
ghost use Rattle.command_line.specs.Events.{happen};
ghost use Rattle.command_line.specs.Recording.{IsRecordOf, Recorded, RecordedFrom};
ghost use Rattle.command_line.specs.declared.store.Event.{Event};

use crate::fault::{RunFault, put_fault, read_fault, recording_fault};
use crate::store::Store;
use comp_lists::{Bytes, Seq, Text};
use package_lower::PackageLower;
use recorded_modules::record_module;
use std::alloc::Global;

/// A module with its record.
fn recorded<F>(alloc: Global, given: Vec<u8>) -> Result<Bytes, RunFault<F>>
    ensures { IsRecordOf given.items result }
{
    match record_module(alloc, PackageLower::new(), given) {
        Ok(made) => Ok(Seq::from_vec(made)),
        Err(fault) => Err(recording_fault(fault)),
    }
}

/// Reads a module, and makes the one with its record.
fn recorded_file<S: Store, F>(
    alloc: Global,
    file: Text,
    store: &mut S,
) -> Result<Bytes, RunFault<F>>
    ensures read { (es : List Event)
        × (S.events store.new ≡ happen (S.events store.old) es)
        × RecordedFrom file es result }
    ensures files { Known Unchanged (S.files store.old) (S.files store.new) }
{
    match store.read(alloc, file.as_str()) {
        Ok(bytes) => recorded(alloc, bytes),
        Err(fault) => Err(read_fault(false, fault, file)),
    }
}

/// Reads a module, and puts the one with its record.
pub(crate) fn put_recorded<S: Store, F>(
    alloc: Global,
    out: Text,
    file: Text,
    store: &mut S,
) -> Result<(), RunFault<F>>
    ensures recorded { (es : List Event)
        × (S.events store.new ≡ happen (S.events store.old) es)
        × Recorded out file es result }
    ensures files { IfErr result (λ _. Known Kept (S.files store.old) (S.files store.new)) }
{
    let made = recorded_file(alloc, file, store)?;
    match store.put(out.as_str(), made.as_slice()) {
        Ok(()) => Ok(()),
        Err(fault) => Err(put_fault(fault, out)),
    }
}
