//! Types of core items.
//!
//! Core standard, binary format: types, with typed function references.

use comp_lists::{Seq, TryClone};
use std::alloc::{AllocError, Global};

/// A reference type: any function or none, or a function of a type that was defined, by its type
/// index, which is never null.
#[derive(Clone, Copy, Debug, PartialEq, Eq, Hash)]
pub enum RefType {
    FuncRef,
    Concrete(u32),
}

/// A value type.
#[derive(Clone, Copy, Debug, PartialEq, Eq, Hash)]
pub enum ValType {
    I32,
    I64,
    F32,
    F64,
    Ref(RefType),
}

/// The type of a function.
#[derive(Debug, Drop, PartialEq, Eq, Hash)]
pub struct FuncType {
    pub params: Seq<ValType>,
    pub results: Seq<ValType>,
}

/// The type of a global.
#[derive(Clone, Copy, Debug, PartialEq, Eq)]
pub struct GlobalType {
    pub val_type: ValType,
    pub mutable: bool,
}

/// The type of a table, its size in elements.
#[derive(Clone, Copy, Debug, PartialEq, Eq)]
pub struct TableType {
    pub element_type: RefType,
    pub minimum: u32,
    pub maximum: Option<u32>,
}

/// The type of a memory, its size in pages of 64 KiB.
#[derive(Clone, Copy, Debug, PartialEq, Eq)]
pub struct MemoryType {
    pub minimum: u32,
    pub maximum: Option<u32>,
}

impl TryClone for ValType {
    fn try_clone(&self, _alloc: Global) -> Result<ValType, AllocError> {
        Ok(*self)
    }
}

impl TryClone for FuncType {
    fn try_clone(&self, alloc: Global) -> Result<FuncType, AllocError> {
        let params = self.params.clone(alloc)?;
        let results = self.results.clone(alloc)?;
        Ok(FuncType { params, results })
    }
}
