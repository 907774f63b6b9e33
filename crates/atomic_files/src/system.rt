//! What is asked of a file system.

ghost use Rattle.std.specs.Prelude.{◌≡◌, ℕ, List, Option};
ghost use Rattle.atomic_files.specs.Files.{Known};
ghost use Rattle.atomic_files.specs.Steps.{Created, Looked, ReadsFile, Removed, Renamed, Unchanged, WrittenTo};

use std::alloc::Global;

/// Why a call of a file system fails.
#[derive(Clone, Copy, Debug, PartialEq, Eq)]
pub enum SystemFault {
    /// The system refused.
    Device,
    /// Out of memory.
    Memory,
}

/// What a name names.
#[derive(Clone, Copy, Debug, PartialEq, Eq)]
pub enum Kind {
    /// Nothing.
    Missing,
    /// A regular file.
    Regular,
    /// Another thing: a folder, a device, a pipe or a symbolic link.
    Other,
}

/// Why a file could not be created.
#[derive(Clone, Copy, Debug, PartialEq, Eq)]
pub enum CreateFault {
    /// The name is taken. Nothing was changed.
    Taken,
    /// The file could not be created. Nothing was changed.
    Refused(SystemFault),
    /// The file was created, and could not be written to its end.
    Cut(SystemFault),
}

/// A file system, by names: a name is a path.
pub trait FileSystem {
    ghost use Rattle.atomic_files.specs.Files.{Node as NodeAt};

    /// What the names name, where that is known. It isn't known of a real system, which others change too.
    ghost files: { Self → Option (List ℕ → NodeAt) };

    /// All bytes of a file.
    fn read(&mut self, alloc: Global, name: &str) -> Result<Vec<u8>, SystemFault>
        ensures { Known (ReadsFile name.now result) (files self.old) (files self.new) };

    /// What the name names. It fails where a regular file can't be written.
    fn kind(&mut self, name: &str) -> Result<Kind, SystemFault>
        ensures { Known (Looked name.now result) (files self.old) (files self.new) };

    /// Creates a regular file with these bytes, where the name names nothing.
    fn create(&mut self, name: &str, bytes: &[u8]) -> Result<(), CreateFault>
        ensures { Known (Created name.now bytes.now result) (files self.old) (files self.new) };

    /// Gives the file `to` the permissions of the file `from`.
    fn copy_permissions(&mut self, from: &str, to: &str) -> Result<(), SystemFault>
        ensures { Known Unchanged (files self.old) (files self.new) };

    /// Renames a regular file, over the regular file of the new name where there is one.
    fn rename(&mut self, old: &str, new: &str) -> Result<(), SystemFault>
        ensures { Known (Renamed old.now new.now result) (files self.old) (files self.new) };

    /// Removes a file.
    fn remove(&mut self, name: &str) -> Result<(), SystemFault>
        ensures { Known (Removed name.now result) (files self.old) (files self.new) };

    /// Writes the bytes to a thing that is not a regular file.
    fn write_to(&mut self, name: &str, bytes: &[u8]) -> Result<(), SystemFault>
        ensures { Known (WrittenTo name.now) (files self.old) (files self.new) };
}
