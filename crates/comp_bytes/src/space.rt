//! Sorts of items, and the index spaces that they count up in.
//!
//! Component model, binary format: `core:sort`, `sort`.

ghost use Rattle.std.specs.Prelude.{◌≡◌};
ghost use Rattle.comp_bytes.specs.Spaces.{ordinal, kind_space, export_space, sort_space};

use standard_kinds::ExportKind;
use std::fmt;

/// A kind of item that an instance exports.
#[derive(Clone, Copy, Debug, PartialEq, Eq)]
pub enum ComponentExportKind {
    Func,
    Type,
    Component,
    Instance,
}

/// A sort of item that a component exports, or that an instantiation is given.
#[derive(Clone, Copy, Debug, PartialEq, Eq)]
pub enum Sort {
    Core(ExportKind),
    Func,
    Type,
    Component,
    Instance,
}

/// An index space of a component, in the order of the bytes of their sorts.
#[derive(Clone, Copy, Debug, PartialEq, Eq)]
pub enum Space {
    CoreFunc,
    CoreTable,
    CoreMemory,
    CoreGlobal,
    CoreModule,
    CoreInstance,
    Func,
    Type,
    Component,
    Instance,
}

impl Space {
    /// Its ordinal in that order, from 0.
    pub fn ordinal(self) -> usize
        ensures { result ≡ ordinal self }
    {
        self as usize
    }
}

/// The space's word, as `core-func` or `instance`.
impl fmt::Display for Space {
    fn fmt<W: fmt::Write>(&self, f: &mut fmt::Formatter<W>) -> fmt::Result {
        match self {
            Space::CoreFunc => write!(f, "core-func"),
            Space::CoreTable => write!(f, "core-table"),
            Space::CoreMemory => write!(f, "core-memory"),
            Space::CoreGlobal => write!(f, "core-global"),
            Space::CoreModule => write!(f, "core-module"),
            Space::CoreInstance => write!(f, "core-instance"),
            Space::Func => write!(f, "func"),
            Space::Type => write!(f, "type"),
            Space::Component => write!(f, "component"),
            Space::Instance => write!(f, "instance"),
        }
    }
}

/// The space in which a core item of a kind is counted.
pub fn space_of_kind(kind: ExportKind) -> Space
    ensures { result ≡ kind_space kind }
{
    match kind {
        ExportKind::Func => Space::CoreFunc,
        ExportKind::Table => Space::CoreTable,
        ExportKind::Memory => Space::CoreMemory,
        ExportKind::Global => Space::CoreGlobal,
    }
}

impl ComponentExportKind {
    /// The space in which an item of this kind is counted.
    pub fn space(self) -> Space
        ensures { result ≡ export_space self }
    {
        match self {
            ComponentExportKind::Func => Space::Func,
            ComponentExportKind::Type => Space::Type,
            ComponentExportKind::Component => Space::Component,
            ComponentExportKind::Instance => Space::Instance,
        }
    }
}

impl Sort {
    /// The space in which an item of this sort is counted.
    pub fn space(self) -> Space
        ensures { result ≡ sort_space self }
    {
        match self {
            Sort::Core(kind) => space_of_kind(kind),
            Sort::Func => Space::Func,
            Sort::Type => Space::Type,
            Sort::Component => Space::Component,
            Sort::Instance => Space::Instance,
        }
    }
}
