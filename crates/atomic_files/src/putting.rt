//! Bytes become the contents of a file.

ghost use Rattle.std.specs.Prelude.{◌≢◌, IfErr};
ghost use Rattle.atomic_files.specs.Files.{Known};
ghost use Rattle.atomic_files.specs.declared.system.SystemFault.{SystemFault};
ghost use Rattle.atomic_files.specs.Steps.{CreatedBeside, Discarded, PutLeaves, RenamedOver, Replaced, WrittenTo};

use crate::naming::new_name;
use crate::system::{CreateFault, FileSystem, Kind, SystemFault};
use std::alloc::Global;

/// How many names are tried for a new file.
const TRIES: u32 = 1000;

/// Why bytes could not be put into a file. A regular file of that name is as it was.
#[derive(Clone, Copy, Debug, PartialEq, Eq)]
pub enum PutFault {
    /// No file was changed, created or removed.
    Refused(SystemFault),
    /// No file was changed or removed. A new file that was created could not be removed.
    Leftover(SystemFault),
}

/// Removes a new file after a fault.
fn discard<S: FileSystem>(system: &mut S, name: &str, fault: SystemFault) -> PutFault
    ensures { Known (Discarded name.now result) (S.files system.old) (S.files system.new) }
{
    match system.remove(name) {
        Ok(()) => PutFault::Refused(fault),
        Err(_) => PutFault::Leftover(fault),
    }
}

/// Creates a file with these bytes in the folder of this name, and returns its name.
fn create_beside<S: FileSystem>(
    alloc: Global,
    system: &mut S,
    name: &str,
    bytes: &[u8],
) -> Result<String, PutFault>
    ensures { Known (CreatedBeside bytes.now result) (S.files system.old) (S.files system.new) }
{
    for number in 0..TRIES {
        let Ok(new) = new_name(alloc, name, number) else {
            return Err(PutFault::Refused(SystemFault::Memory));
        };
        match system.create(new.as_str(), bytes) {
            Ok(()) => return Ok(new),
            Err(CreateFault::Taken) => {}
            Err(CreateFault::Refused(fault)) => return Err(PutFault::Refused(fault)),
            Err(CreateFault::Cut(fault)) => return Err(discard(system, new.as_str(), fault)),
        }
    }
    Err(PutFault::Refused(SystemFault::Device))
}

/// Renames a new file over the file of this name, and removes it where that is refused.
fn rename_over<S: FileSystem>(system: &mut S, new: &str, name: &str) -> Result<(), PutFault>
    ensures { Known (RenamedOver new.now name.now result) (S.files system.old)
        (S.files system.new) }
{
    match system.rename(new, name) {
        Ok(()) => Ok(()),
        Err(fault) => Err(discard(system, new, fault)),
    }
}

/// Makes the bytes the contents of a regular file, by a new file. `is_there` is whether the file is there: then the new
/// one gets its permissions.
fn replace<S: FileSystem>(
    alloc: Global,
    system: &mut S,
    name: &str,
    bytes: &[u8],
    is_there: bool,
) -> Result<(), PutFault>
    ensures { Known (Replaced name.now bytes.now result) (S.files system.old) (S.files system.new) }
{
    let new = match create_beside(alloc, system, name, bytes) {
        Ok(new) => new,
        Err(fault) => return Err(fault),
    };
    if is_there {
        if let Err(fault) = system.copy_permissions(name, new.as_str()) {
            return Err(discard(system, new.as_str(), fault));
        }
    }
    rename_over(system, new.as_str(), name)
}

/// Writes a thing that is not a regular file.
fn write_in_place<S: FileSystem>(system: &mut S, name: &str, bytes: &[u8]) -> Result<(), PutFault>
    ensures left { Known (WrittenTo name.now) (S.files system.old) (S.files system.new) }
    ensures no_file { IfErr result (λ e. (f : SystemFault) → e ≢ PutFault.Leftover f) }
{
    match system.write_to(name, bytes) {
        Ok(()) => Ok(()),
        Err(fault) => Err(PutFault::Refused(fault)),
    }
}

/// Makes the bytes the contents of the file of this name, whole or not at all. A thing that is not
/// a regular file, such as a device, is written in place.
pub fn put<S: FileSystem>(
    alloc: Global,
    system: &mut S,
    name: &str,
    bytes: &[u8],
) -> Result<(), PutFault>
    ensures { Known (PutLeaves name.now bytes.now result) (S.files system.old)
        (S.files system.new) }
{
    match system.kind(name) {
        Ok(Kind::Missing) => replace(alloc, system, name, bytes, false),
        Ok(Kind::Regular) => replace(alloc, system, name, bytes, true),
        Ok(Kind::Other) => write_in_place(system, name, bytes),
        Err(fault) => Err(PutFault::Refused(fault)),
    }
}
