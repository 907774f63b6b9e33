//! Files by their names.

ghost use Rattle.std.specs.Prelude.{◌≡◌, ℕ, List, Option};
ghost use Rattle.atomic_files.specs.Files.{Known};
ghost use Rattle.atomic_files.specs.Steps.{ReadsFile};
ghost use Rattle.command_line.specs.declared.store.StoreFault.TheVariants.{Memory};
ghost use Rattle.command_line.specs.Events.{StorePut, happen, events_of_read, events_of_put};

use comp_lists::{Bytes, Text};
use std::alloc::{AllocError, AllocFailed, Global};

/// Why a file could not be read or put.
#[derive(Clone, Copy, Debug, PartialEq, Eq)]
pub enum StoreFault {
    /// The file is not there, or the device refused.
    Device,
    /// A growth was refused. Nothing was done.
    Memory,
}

impl From<AllocError> for StoreFault {
    ghost from_gives = { λ _ e. e ≡ Memory };

    fn from(_error: AllocError) -> StoreFault {
        StoreFault::Memory
    }
}

impl<T: Drop> From<AllocFailed<T>> for StoreFault {
    ghost from_gives = { λ _ e. e ≡ Memory };

    fn from(_error: AllocFailed<T>) -> StoreFault {
        StoreFault::Memory
    }
}

/// What a store did, as an event of its history.
#[derive(Debug, Drop)]
pub enum Event {
    /// A file was read, and had these bytes.
    Read { name: Text, bytes: Bytes },
    /// The device refused to read a file.
    NotRead { name: Text },
    /// These bytes were put into a file.
    Put { name: Text, bytes: Bytes },
    /// The device refused to put these bytes into a file.
    NotPut { name: Text, bytes: Bytes },
}

/// Files by their names.
pub trait Store {
    ghost use Rattle.command_line.specs.declared.store.Event.{Event as Happened};
    ghost use Rattle.atomic_files.specs.Files.{Node as NodeAt};

    /// What was read and put so far, in order, where that is known. It isn't known of the files of a
    /// system, which others change too.
    ghost events: { Self → Option (List Happened) };

    /// What the names name, where that is known.
    ghost files: { Self → Option (List ℕ → NodeAt) };

    /// All bytes of a file.
    fn read(&mut self, alloc: Global, name: &str) -> Result<Vec<u8>, StoreFault>
        ensures event { events self.new
            ≡ happen (events self.old) (events_of_read name.now result) }
        ensures file { Known (ReadsFile name.now result) (files self.old) (files self.new) };

    /// Replaces the contents of a file with these bytes: it has all of them where the call
    /// succeeds, and is as it was where the call fails. No other file that is there is changed.
    /// What is not a regular file, such as a device, is written in place.
    fn put(&mut self, name: &str, bytes: &[u8]) -> Result<(), StoreFault>
        ensures event { events self.new
            ≡ happen (events self.old) (events_of_put name.now bytes.now result) }
        ensures file { Known (StorePut name.now bytes.now result) (files self.old)
            (files self.new) };
}
