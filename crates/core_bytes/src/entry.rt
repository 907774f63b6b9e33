//! Entries of sections that are more than a type or a number.
//!
//! Core standard, binary format: import, global, export, element and data section; appendix, custom
//! sections: name maps.

use crate::entity::{ConstExpr, EntityType};
use comp_lists::{Bytes, Seq, Text, TryClone};
use core_types::GlobalType;
use standard_kinds::ExportKind;
use std::alloc::{AllocError, Global};

/// An import, by the two parts of its name.
#[derive(Drop, PartialEq, Eq)]
pub struct Import {
    pub module_name: Text,
    pub field: Text,
    pub entity: EntityType,
}

/// A global, and what it is at first.
#[derive(Clone, Copy, PartialEq, Eq)]
pub struct DefinedGlobal {
    pub global_type: GlobalType,
    pub init: ConstExpr,
}

/// An export, by the index of the item among those of its kind.
#[derive(Drop, PartialEq, Eq)]
pub struct Export {
    pub name: Text,
    pub kind: ExportKind,
    pub index: u32,
}

/// An element segment: functions for the slots of a table from `offset` on, or functions that are
/// only declared. `table: None` is table 0, in the short form.
#[derive(Drop, PartialEq, Eq)]
pub enum ElementSegment {
    Active {
        table: Option<u32>,
        offset: i32,
        functions: Seq<u32>,
    },
    Declared(Seq<u32>),
}

/// A data segment: bytes for memory 0 from `offset` on.
#[derive(Drop, PartialEq, Eq)]
pub struct DataSegment {
    pub offset: i32,
    pub bytes: Bytes,
}

/// A debug name of the item of this index.
#[derive(Drop, PartialEq, Eq)]
pub struct Naming {
    pub index: u32,
    pub name: Text,
}

impl TryClone for Import {
    fn try_clone(&self, alloc: Global) -> Result<Import, AllocError> {
        let module_name = self.module_name.clone(alloc)?;
        let field = self.field.clone(alloc)?;
        Ok(Import {
            module_name,
            field,
            entity: self.entity,
        })
    }
}

impl TryClone for Export {
    fn try_clone(&self, alloc: Global) -> Result<Export, AllocError> {
        let name = self.name.clone(alloc)?;
        Ok(Export {
            name,
            kind: self.kind,
            index: self.index,
        })
    }
}

impl TryClone for ElementSegment {
    fn try_clone(&self, alloc: Global) -> Result<ElementSegment, AllocError> {
        match self {
            ElementSegment::Active {
                table,
                offset,
                functions,
            } => Ok(ElementSegment::Active {
                table: *table,
                offset: *offset,
                functions: functions.clone(alloc)?,
            }),
            ElementSegment::Declared(functions) => {
                Ok(ElementSegment::Declared(functions.clone(alloc)?))
            }
        }
    }
}

impl TryClone for DataSegment {
    fn try_clone(&self, alloc: Global) -> Result<DataSegment, AllocError> {
        let bytes = self.bytes.clone(alloc)?;
        Ok(DataSegment {
            offset: self.offset,
            bytes,
        })
    }
}

impl TryClone for Naming {
    fn try_clone(&self, alloc: Global) -> Result<Naming, AllocError> {
        let name = self.name.clone(alloc)?;
        Ok(Naming {
            index: self.index,
            name,
        })
    }
}
