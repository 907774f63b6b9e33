//! Definitions of a component.
//!
//! Component model, binary format: `section`. A definition is an [`Item`] or a nested component, whose
//! definitions are items: components nest one deep, by their type.

ghost use Rattle.std.specs.Prelude.{◌≡◌, nat_eq, if◌then◌else◌, length, Some, None};
ghost use Rattle.std.specs.Cmp.Lexicographic.{pointwise};
ghost use Rattle.std.specs.Cmp.Rules.{comparing};
ghost use Rattle.std.proofs.Common.{rules};
ghost use Rattle.core_types.specs.Core.{is_core_module, core_preamble};

use crate::canon::{CanonicalOption, Intrinsic};
use crate::space::Sort;
use crate::types::{Alias, Description, ExternName, InstanceType, TypeDef};
use comp_lists::{Bytes, Seq, SharedBytes, Text};
use standard_kinds::ExportKind;
use std::marker::Model;

/// What a core module begins with: its magic number, and its version.
const CORE_PREAMBLE: [u8; 8] = [0x00, 0x61, 0x73, 0x6d, 0x01, 0x00, 0x00, 0x00];

/// Whether bytes begin as a core module does.
fn is_core_module(bytes: &[u8]) -> bool
    ensures { result ≡ is_core_module bytes.now }
{
    match bytes.get(..8) {
        Some(front) => front == CORE_PREAMBLE.as_slice(),
        None => false,
    }
}

/// A core module, by its bytes, which begin with the preamble of core modules (core standard, binary
/// format: `module`). The bytes after that are not read.
#[derive(Debug, Drop)]
pub struct CoreModule {
    bytes: SharedBytes,
}

impl Model for CoreModule {
    ghost use Rattle.std.specs.Prelude.{List, ℕ};
    ghost use Rattle.core_types.specs.Core.{IsCoreModule};

    ghost Value = { List ℕ };

    ghost view = { λ m. m.bytes };

    ghost invariant = { λ m. IsCoreModule m.bytes };
}

impl CoreModule {
    /// The core module of these bytes, where they begin as one does.
    pub fn from_bytes(bytes: SharedBytes) -> Option<CoreModule>
        ensures { result ≡ (if is_core_module bytes then Some bytes else None) }
    {
        if is_core_module(bytes.as_slice()) {
            Some(CoreModule { bytes })
        } else {
            None
        }
    }

    /// The bytes, with the preamble.
    pub fn bytes(&self) -> &SharedBytes
        ensures { result.now ≡ self.now }
    {
        &self.bytes
    }

    /// The bytes, with the preamble.
    pub fn as_slice(&self) -> &[u8]
        ensures { result.now ≡ self.now }
    {
        self.bytes.as_slice()
    }

    /// How many bytes there are.
    pub fn len(&self) -> usize
        ensures { result ≡ length self.now }
    {
        self.bytes.len()
    }
}

impl PartialEq for CoreModule {
    ghost eq = { pointwise nat_eq };

    ghost laws = { Prim.search (comparing, rules) };

    fn eq(&self, other: &Self) -> bool {
        self.bytes == other.bytes
    }
}

impl Eq for CoreModule {
    ghost laws = { Prim.search (comparing, rules) };
}

/// What a core instantiation gives for a module name: a core instance.
#[derive(Debug, Drop, PartialEq, Eq)]
pub struct CoreArgument {
    pub name: Text,
    pub instance: u32,
}

/// An export of a core instance that is made of items at hand.
#[derive(Debug, Drop, PartialEq, Eq)]
pub struct CoreInlineExport {
    pub name: Text,
    pub kind: ExportKind,
    pub index: u32,
}

/// What an instantiation gives for an import name.
#[derive(Debug, Drop, PartialEq, Eq)]
pub struct Argument {
    pub name: Text,
    pub sort: Sort,
    pub index: u32,
}

/// A definition that is no component.
#[derive(Debug, PartialEq, Eq)]
pub enum Item {
    CoreModule(CoreModule),
    CoreInstantiate {
        module: u32,
        args: Seq<CoreArgument>,
    },
    CoreExports(Seq<CoreInlineExport>),
    Instantiate {
        component: u32,
        args: Seq<Argument>,
    },
    Alias(Alias),
    Type(TypeDef),
    InstanceType(InstanceType),
    /// A function for a core function.
    Lift {
        func: u32,
        options: Seq<CanonicalOption>,
        ty: u32,
    },
    /// A core function for a function.
    Lower {
        func: u32,
        options: Seq<CanonicalOption>,
    },
    Intrinsic(Intrinsic),
    Import {
        name: ExternName,
        description: Description,
    },
    /// An export, which is an item of its own too.
    Export {
        name: ExternName,
        sort: Sort,
        index: u32,
        description: Option<Description>,
    },
    Custom {
        name: Text,
        contents: Bytes,
    },
}

impl Drop for Item {
    fn drop(self) {
        match self {
            Item::CoreModule(_) => {}
            Item::CoreInstantiate { module: _, args: _ } => {}
            Item::CoreExports(_) => {}
            Item::Instantiate {
                component: _,
                args: _,
            } => {}
            Item::Alias(_) => {}
            Item::Type(_) => {}
            Item::InstanceType(_) => {}
            Item::Lift {
                func: _,
                options: _,
                ty: _,
            } => {}
            Item::Lower {
                func: _,
                options: _,
            } => {}
            Item::Intrinsic(_) => {}
            Item::Import {
                name: _,
                description: _,
            } => {}
            Item::Export {
                name: _,
                sort: _,
                index: _,
                description: _,
            } => {}
            Item::Custom {
                name: _,
                contents: _,
            } => {}
        }
    }
}

/// A definition of a component.
#[derive(Debug, Drop, PartialEq, Eq)]
pub enum Def {
    Item(Item),
    Component(Seq<Item>),
}

/// The definitions of a component, in order.
pub type Defs = Seq<Def>;
