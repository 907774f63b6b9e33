//! Parts of core modules that `core_sections` passes over: the names of globals, imports as they
//! are encoded, the indices of exports, the bodies of functions and where their instructions begin,
//! and whether a data segment is active.
//!
//! Each call reads the contents of one section. Upward this crate promises that its answers are
//! those of `specs/`, which are made of the definitions of `core_sections`; what is malformed has
//! no answer. No instruction is read. Nothing is reserved by a number that was only read.
//!
//! In reading order: `numbers`, `names` (sections of names), `exports`, `bodies` (functions),
//! `imports`, `segments` (data).
#![tactic(auto)]

mod bodies;
mod exports;
mod imports;
mod names;
mod numbers;
mod segments;

pub use bodies::{function_bodies, instructions_of};
pub use exports::{ExportedIndex, exported_indices};
pub use imports::{ImportParts, import_parts};
pub use names::{GlobalName, global_names};
pub use numbers::read_number;
pub use segments::is_active;
