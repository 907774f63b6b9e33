//! The arguments that satisfy the imports of a library.

ghost use Rattle.std.specs.Prelude.{◌≡◌, IfOk};

use comp_lists::{Seq, Text, TryClone};
use standard_kinds::ExportKind;
use std::alloc::{AllocError, Global};

/// A user module that others name: main, or an adapter by its name.
#[derive(Debug, Drop, PartialEq, Eq)]
pub enum MainOrAdapter {
    Main,
    Adapter(Text),
}

/// An export of a user module under a name of its own.
#[derive(Debug, PartialEq, Eq)]
pub struct Item {
    /// The name under which it is imported.
    pub alias: Text,
    pub kind: ExportKind,
    /// The module that exports it.
    pub which: MainOrAdapter,
    /// The name under which that exports it.
    pub name: Text,
}

impl Drop for Item {
    fn drop(self) {
        let Item {
            alias: _,
            kind: _,
            which: _,
            name: _,
        } = self;
    }
}

/// What satisfies the imports from one module.
#[derive(Debug, Drop, PartialEq, Eq)]
pub enum Instance {
    /// All exports of a module.
    MainOrAdapter(MainOrAdapter),
    /// These exports.
    Items(Seq<Item>),
}

/// An argument of a library: the module that it imports from, and what satisfies these imports.
#[derive(Debug, Drop, PartialEq, Eq)]
pub struct LibraryArgument {
    pub name: Text,
    pub instance: Instance,
}

/// What makes an adapter a library: it is linked as the arguments say, and not by roles alone.
#[derive(Debug, Drop, PartialEq, Eq)]
pub struct LibraryInfo {
    pub arguments: Seq<LibraryArgument>,
}

impl TryClone for MainOrAdapter {
    fn try_clone(&self, alloc: Global) -> Result<MainOrAdapter, AllocError> {
        match self {
            MainOrAdapter::Main => Ok(MainOrAdapter::Main),
            MainOrAdapter::Adapter(name) => Ok(MainOrAdapter::Adapter(name.clone(alloc)?)),
        }
    }
}

impl TryClone for Item {
    fn try_clone(&self, alloc: Global) -> Result<Item, AllocError> {
        let alias = self.alias.clone(alloc)?;
        let which = self.which.try_clone(alloc)?;
        let name = self.name.clone(alloc)?;
        Ok(Item {
            alias,
            kind: self.kind,
            which,
            name,
        })
    }
}

impl TryClone for Instance {
    fn try_clone(&self, alloc: Global) -> Result<Instance, AllocError> {
        match self {
            Instance::MainOrAdapter(which) => {
                Ok(Instance::MainOrAdapter(which.try_clone(alloc)?))
            }
            Instance::Items(items) => Ok(Instance::Items(items.clone(alloc)?)),
        }
    }
}

impl TryClone for LibraryArgument {
    fn try_clone(&self, alloc: Global) -> Result<LibraryArgument, AllocError> {
        let name = self.name.clone(alloc)?;
        let instance = self.instance.try_clone(alloc)?;
        Ok(LibraryArgument { name, instance })
    }
}

impl TryClone for LibraryInfo {
    fn try_clone(&self, alloc: Global) -> Result<LibraryInfo, AllocError> {
        Ok(LibraryInfo {
            arguments: self.arguments.clone(alloc)?,
        })
    }
}

impl MainOrAdapter {
    /// An equal one, memory allowing.
    pub fn clone(&self, alloc: Global) -> Result<MainOrAdapter, AllocError>
        ensures { IfOk result (λ x. x ≡ self.now) }
    {
        self.try_clone(alloc)
    }
}

impl Item {
    /// An equal one, memory allowing.
    pub fn clone(&self, alloc: Global) -> Result<Item, AllocError>
        ensures { IfOk result (λ x. x ≡ self.now) }
    {
        self.try_clone(alloc)
    }
}

impl Instance {
    /// An equal one, memory allowing.
    pub fn clone(&self, alloc: Global) -> Result<Instance, AllocError>
        ensures { IfOk result (λ x. x ≡ self.now) }
    {
        self.try_clone(alloc)
    }
}

impl LibraryInfo {
    /// An equal one, memory allowing.
    pub fn clone(&self, alloc: Global) -> Result<LibraryInfo, AllocError>
        ensures { IfOk result (λ x. x ≡ self.now) }
    {
        self.try_clone(alloc)
    }
}
