//! Types, imports and exports of a core module.

use comp_lists::{Seq, Text};

/// A value type.
#[derive(Clone, Copy, Debug, PartialEq, Eq)]
pub enum ValType {
    I32,
    I64,
    F32,
    F64,
    V128,
    /// A reference to any function, or none.
    FuncRef,
    /// Any other reference.
    OtherRef,
}

/// The type of a function.
#[derive(Debug, Drop)]
pub struct FuncType {
    pub params: Seq<ValType>,
    pub results: Seq<ValType>,
}

/// How large a table or a memory is, in elements or pages.
#[derive(Clone, Copy, Debug, PartialEq, Eq)]
pub struct Limits {
    pub minimum: u64,
    pub maximum: Option<u64>,
    /// Whether it is shared, or has addresses of 64 bits.
    pub is_wide: bool,
}

/// What an import or a definition is.
#[derive(Clone, Copy, Debug, PartialEq, Eq)]
pub enum EntityType {
    /// A function, by the index of its type.
    Function(u32),
    Table { element: ValType, limits: Limits },
    Memory(Limits),
    Global { val_type: ValType, mutable: bool },
    /// A tag, by the index of its type.
    Tag(u32),
}

/// An import.
#[derive(Debug, Drop)]
pub struct CoreImport {
    pub module: Text,
    pub field: Text,
    pub entity: EntityType,
}

/// What kind of item an export names.
#[derive(Clone, Copy, Debug, PartialEq, Eq)]
pub(crate) enum ExportKind {
    Function,
    Table,
    Memory,
    Global,
    Tag,
}

/// Which item an export names.
#[derive(Clone, Copy, Debug, PartialEq, Eq)]
pub(crate) struct ExportIndex {
    pub kind: ExportKind,
    /// Its index among the items of its kind.
    pub index: u32,
}

/// An export, as it is encoded.
#[derive(Debug, Drop)]
pub(crate) struct CoreExport {
    pub name: Text,
    pub index: ExportIndex,
}

/// The item that an export names.
#[derive(Clone, Copy, Debug, PartialEq, Eq)]
pub enum ExportedItem {
    Entity(EntityType),
    /// A tag. Its type is unknown, since the section of tags is skipped.
    Tag,
}
