//! Instructions, and the bodies of functions.
//!
//! Core standard, binary format: instructions, code section, with typed function references and tail
//! calls.

use comp_lists::{Seq, TryClone};
use core_types::ValType;
use std::alloc::{AllocError, Global};

/// An instruction. Numbers are the indices that its bytes hold, and the numbers of constants.
#[derive(Clone, Copy, PartialEq, Eq)]
pub enum Instruction {
    Unreachable,
    Call(u32),
    CallIndirect { type_index: u32, table: u32 },
    ReturnCallRef(u32),
    Select,
    LocalGet(u32),
    LocalSet(u32),
    GlobalGet(u32),
    GlobalSet(u32),
    /// Aligned to four bytes, at offset 0 of memory 0.
    I32Store,
    I32Const(i32),
    I64Const(i64),
    I32Add,
    RefFunc(u32),
}

/// So many local variables of one type.
#[derive(Clone, Copy, PartialEq, Eq)]
pub struct LocalRun {
    pub count: u32,
    pub val_type: ValType,
}

/// The body of a function: its local variables after the parameters, and its instructions without
/// their end.
#[derive(Drop, PartialEq, Eq)]
pub struct Body {
    pub locals: Seq<LocalRun>,
    pub instructions: Seq<Instruction>,
}

impl TryClone for Instruction {
    fn try_clone(&self, _alloc: Global) -> Result<Instruction, AllocError> {
        Ok(*self)
    }
}

impl TryClone for LocalRun {
    fn try_clone(&self, _alloc: Global) -> Result<LocalRun, AllocError> {
        Ok(*self)
    }
}

impl TryClone for Body {
    fn try_clone(&self, alloc: Global) -> Result<Body, AllocError> {
        let locals = self.locals.clone(alloc)?;
        let instructions = self.instructions.clone(alloc)?;
        Ok(Body {
            locals,
            instructions,
        })
    }
}
