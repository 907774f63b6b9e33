//! Shims as their module has them, and the cell of the thread-local base.

use comp_lists::Text;
use core_runs::Shim;
use core_types::ValType;

/// A shim: its code, and its debug name.
#[derive(Debug, Drop)]
pub struct ShimFunction {
    pub code: Shim,
    pub debug_name: Text,
}

/// The cell of the thread-local base: the type of what it holds, `i32` or `i64`, and the types of
/// the function that reads it and of the one that sets it, by their indices.
#[derive(Clone, Copy, PartialEq, Eq, Debug)]
pub struct ThreadCell {
    pub val_type: ValType,
    pub getter_type: u32,
    pub setter_type: u32,
}
