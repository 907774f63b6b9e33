//! The types of core items, and their bytes; and the preamble of every core module.
//!
//! Upward this crate promises: the bytes of a type are those of `specs/Grammar.antt`, to be read
//! next to the binary format of the core standard. `specs/Core.antt` has the preamble of core
//! modules.
//!
//! In reading order: `types` (the types), `writing` (each as bytes).
#![tactic(auto)]

mod types;
mod writing;

pub use types::{FuncType, GlobalType, MemoryType, RefType, TableType, ValType};
