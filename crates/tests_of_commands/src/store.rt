//! A store in memory, and writers that accept nothing.

ghost use Rattle.std.specs.Prelude.{◌≡◌, ◌++◌, None, Some};
ghost use Rattle.command_line.specs.Events.{events_of_read, events_of_put};

use command_line::{Event, Store, StoreFault};
use comp_lists::{Bytes, Seq, Text};
use std::alloc::{AllocError, Global};
use std::io;
use std::io::{ErrorKind, Write};

/// A file in memory.
#[derive(Drop)]
pub(crate) struct OneFile {
    pub name: Text,
    pub bytes: Bytes,
}

/// Files in memory, what was read and put so far, and how many calls come before one is refused.
#[derive(Drop)]
pub(crate) struct Files {
    pub alloc: Global,
    pub files: Seq<OneFile>,
    pub log: Seq<Event>,
    pub refusal: Option<(u32, StoreFault)>,
}

impl Files {
    /// One file.
    pub(crate) fn new(alloc: Global, name: &str, bytes: &[u8]) -> Result<Files, AllocError> {
        let mut files = Files {
            alloc,
            files: Seq::new(alloc),
            log: Seq::new(alloc),
            refusal: None,
        };
        files.add(name, bytes)?;
        Ok(files)
    }

    /// One more file.
    pub(crate) fn add(&mut self, name: &str, bytes: &[u8]) -> Result<(), AllocError>
        ensures { self.new.log ≡ self.old.log }
    {
        let name = Text::from_str(self.alloc, name)?;
        let bytes = Seq::from_vec(Vec::from_slice(self.alloc, bytes)?);
        self.files.push(OneFile { name, bytes })?;
        Ok(())
    }

    /// The bytes of a file that is there.
    fn bytes_of(&self, name: &str) -> Result<Option<Bytes>, AllocError> {
        for file in self.files.as_slice() {
            if file.name.as_str() == name {
                return Ok(Some(file.bytes.clone(self.alloc)?));
            }
        }
        Ok(None)
    }

    /// Counts a call, and says whether it is refused.
    fn refusal(&mut self) -> Option<StoreFault>
        ensures { self.new.log ≡ self.old.log }
    {
        match self.refusal {
            Some((0, fault)) => Some(fault),
            Some((left, fault)) => {
                self.refusal = Some((left - 1, fault));
                None
            }
            None => None,
        }
    }

    fn give(&mut self, name: &str, bytes: Bytes) -> Result<Vec<u8>, StoreFault>
        ensures { self.new.log ≡ self.old.log ++ events_of_read name.now result }
    {
        let given = Vec::from_slice(self.alloc, bytes.as_slice())?;
        let name = Text::from_str(self.alloc, name)?;
        self.log.push(Event::Read { name, bytes })?;
        Ok(given)
    }

    fn refuse_read(&mut self, name: &str) -> Result<Vec<u8>, StoreFault>
        ensures { self.new.log ≡ self.old.log ++ events_of_read name.now result }
    {
        let name = Text::from_str(self.alloc, name)?;
        self.log.push(Event::NotRead { name })?;
        Err(StoreFault::Device)
    }

    fn take(&mut self, name: &str, bytes: &[u8]) -> Result<(), StoreFault>
        ensures { self.new.log ≡ self.old.log ++ events_of_put name.now bytes.now result }
    {
        let bytes = Seq::from_vec(Vec::from_slice(self.alloc, bytes)?);
        let name = Text::from_str(self.alloc, name)?;
        self.log.push(Event::Put { name, bytes })?;
        Ok(())
    }

    fn refuse_put(&mut self, name: &str, bytes: &[u8]) -> Result<(), StoreFault>
        ensures { self.new.log ≡ self.old.log ++ events_of_put name.now bytes.now result }
    {
        let bytes = Seq::from_vec(Vec::from_slice(self.alloc, bytes)?);
        let name = Text::from_str(self.alloc, name)?;
        self.log.push(Event::NotPut { name, bytes })?;
        Err(StoreFault::Device)
    }
}

impl Store for Files {
    ghost events = { λ s. Some s.log };

    ghost files = { λ _. None };

    fn read(&mut self, _alloc: Global, name: &str) -> Result<Vec<u8>, StoreFault> {
        match self.refusal() {
            Some(StoreFault::Memory) => Err(StoreFault::Memory),
            Some(StoreFault::Device) => self.refuse_read(name),
            None => match self.bytes_of(name)? {
                Some(bytes) => self.give(name, bytes),
                None => self.refuse_read(name),
            },
        }
    }

    fn put(&mut self, name: &str, bytes: &[u8]) -> Result<(), StoreFault> {
        match self.refusal() {
            Some(StoreFault::Memory) => Err(StoreFault::Memory),
            Some(StoreFault::Device) => self.refuse_put(name, bytes),
            None => self.take(name, bytes),
        }
    }
}

/// A writer that accepts nothing, for this reason.
#[derive(Drop)]
pub(crate) struct Refusing {
    pub kind: ErrorKind,
}

impl Write for Refusing {
    fn write(&mut self, _buf: &[u8]) -> io::Result<usize> {
        Err(io::Error::from(self.kind))
    }

    fn flush(&mut self) -> io::Result<()> {
        Ok(())
    }
}
