//! A file system as a store.

ghost use Rattle.std.specs.Prelude.{◌≡◌, None};

use crate::store::{Store, StoreFault};
use atomic_files::{FileSystem, PutFault, SystemFault, put};
use std::alloc::Global;

/// The files of a file system, each put whole or not at all.
#[derive(Drop)]
pub struct Stored<S> {
    alloc: Global,
    system: S,
}

impl<S: FileSystem> Stored<S> {
    pub fn new(alloc: Global, system: S) -> Stored<S>
        ensures { result.system ≡ system }
    {
        Stored { alloc, system }
    }
}

fn store_fault(fault: SystemFault) -> StoreFault {
    match fault {
        SystemFault::Device => StoreFault::Device,
        SystemFault::Memory => StoreFault::Memory,
    }
}

impl<S: FileSystem> Store for Stored<S> {
    ghost events = { λ _. None };

    ghost files = { λ s. S.files s.system };

    fn read(&mut self, alloc: Global, name: &str) -> Result<Vec<u8>, StoreFault> {
        match self.system.read(alloc, name) {
            Ok(bytes) => Ok(bytes),
            Err(fault) => Err(store_fault(fault)),
        }
    }

    fn put(&mut self, name: &str, bytes: &[u8]) -> Result<(), StoreFault> {
        match put(self.alloc, &mut self.system, name, bytes) {
            Ok(()) => Ok(()),
            Err(PutFault::Refused(fault)) => Err(store_fault(fault)),
            Err(PutFault::Leftover(fault)) => Err(store_fault(fault)),
        }
    }
}
