//! What is imported, and constants.
//!
//! Core standard, binary format: modules, with typed function references.

use core_types::{GlobalType, MemoryType, TableType};

/// What an import is: a function, by its type index, or an item of a type.
#[derive(Clone, Copy, PartialEq, Eq)]
pub enum EntityType {
    Function(u32),
    Table(TableType),
    Memory(MemoryType),
    Global(GlobalType),
}

/// A constant expression: a number, or a function by its index.
#[derive(Clone, Copy, PartialEq, Eq)]
pub enum ConstExpr {
    I32(i32),
    I64(i64),
    RefFunc(u32),
}
