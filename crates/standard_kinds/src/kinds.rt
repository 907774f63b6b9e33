//! The kinds.

/// A value type that needs no definition. Component model, binary format: `primvaltype`.
#[derive(Clone, Copy, Debug, PartialEq, Eq, Hash)]
pub enum Primitive {
    Bool,
    S8,
    U8,
    S16,
    U16,
    S32,
    U32,
    S64,
    U64,
    F32,
    F64,
    Char,
    String,
    ErrorContext,
}

/// A kind of core item that a core instance exports. Component model, binary format: `core:sort`.
#[derive(Clone, Copy, Debug, PartialEq, Eq)]
pub enum ExportKind {
    Func,
    Table,
    Memory,
    Global,
}

/// How a core module encodes strings in its memory. Canonical ABI: `string-encoding`.
#[derive(Clone, Copy, Debug, PartialEq, Eq, Hash)]
pub enum StringEncoding {
    UTF8,
    UTF16,
    CompactUTF16,
}
