//! The files of the system.

ghost use Rattle.std.specs.Prelude.{None};

use atomic_files::{CreateFault, FileSystem, Kind, SystemFault};
use std::alloc::Global;
use std::fs::{File, OpenFile};
use std::io::{ErrorKind, Write};
use std::rt::Files as SystemFiles;
use std::{fs, io};

/// The files of the system. What they contain is not known.
#[derive(Drop)]
pub(crate) struct Files<'a, R> {
    rt: &'a R,
}

impl<'a, R: SystemFiles + AllocGlobal> Files<'a, R> {
    pub(crate) fn new(rt: &'a R) -> Files<'a, R> {
        Files { rt }
    }
}

fn fault_of(error: &io::Error) -> SystemFault {
    if error.kind() == ErrorKind::OutOfMemory {
        SystemFault::Memory
    } else {
        SystemFault::Device
    }
}

/// All bytes of a file. Room is made for its size at once, and the bytes come through a small
/// buffer: `fs::read` would grow its own, and fill all of it with zeros first.
fn read<R: SystemFiles + AllocGlobal>(rt: &R, name: &str) -> io::Result<Vec<u8>> {
    let mut file = File::open(rt, name)?;
    let size = file.metadata()?.len();
    let mut bytes = Vec::with_capacity(rt.alloc(), size as usize)?;
    io::copy(&mut file, &mut bytes)?;
    Ok(bytes)
}

/// What a name names; a symbolic link is itself, and not what it leads to. A regular file is opened
/// for writing, so that one that can't be written is refused.
fn kind_of<R: SystemFiles>(rt: &R, name: &str) -> io::Result<Kind> {
    match fs::symlink_metadata(rt, name) {
        Ok(metadata) if metadata.is_file() => {
            let mut options = File::options();
            options.write(true);
            let _file = options.open(rt, name)?;
            Ok(Kind::Regular)
        }
        Ok(_) => Ok(Kind::Other),
        Err(error) if error.kind() == ErrorKind::NotFound => Ok(Kind::Missing),
        Err(error) => Err(error),
    }
}

fn create<R: SystemFiles>(rt: &R, name: &str, bytes: &[u8]) -> Result<(), CreateFault> {
    let mut file = match File::create_new(rt, name) {
        Ok(file) => file,
        Err(error) if error.kind() == ErrorKind::AlreadyExists => return Err(CreateFault::Taken),
        Err(error) => return Err(CreateFault::Refused(fault_of(&error))),
    };
    match file.write_all(bytes) {
        Ok(()) => Ok(()),
        Err(error) => Err(CreateFault::Cut(fault_of(&error))),
    }
}

fn copy_permissions<R: SystemFiles>(rt: &R, from: &str, to: &str) -> io::Result<()> {
    let metadata = fs::metadata(rt, from)?;
    fs::set_permissions(rt, to, metadata.permissions())
}

impl<R: SystemFiles + AllocGlobal> FileSystem for Files<'_, R> {
    ghost files = { λ _. None };

    fn read(&mut self, _alloc: Global, name: &str) -> Result<Vec<u8>, SystemFault> {
        match read(self.rt, name) {
            Ok(bytes) => Ok(bytes),
            Err(error) => Err(fault_of(&error)),
        }
    }

    fn kind(&mut self, name: &str) -> Result<Kind, SystemFault> {
        match kind_of(self.rt, name) {
            Ok(kind) => Ok(kind),
            Err(error) => Err(fault_of(&error)),
        }
    }

    fn create(&mut self, name: &str, bytes: &[u8]) -> Result<(), CreateFault> {
        create(self.rt, name, bytes)
    }

    fn copy_permissions(&mut self, from: &str, to: &str) -> Result<(), SystemFault> {
        match copy_permissions(self.rt, from, to) {
            Ok(()) => Ok(()),
            Err(error) => Err(fault_of(&error)),
        }
    }

    fn rename(&mut self, old: &str, new: &str) -> Result<(), SystemFault> {
        match fs::rename(self.rt, old, new) {
            Ok(()) => Ok(()),
            Err(error) => Err(fault_of(&error)),
        }
    }

    fn remove(&mut self, name: &str) -> Result<(), SystemFault> {
        match fs::remove_file(self.rt, name) {
            Ok(()) => Ok(()),
            Err(error) => Err(fault_of(&error)),
        }
    }

    fn write_to(&mut self, name: &str, bytes: &[u8]) -> Result<(), SystemFault> {
        match fs::write(self.rt, name, bytes) {
            Ok(()) => Ok(()),
            Err(error) => Err(fault_of(&error)),
        }
    }
}
