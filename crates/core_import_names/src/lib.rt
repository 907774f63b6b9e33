//! What the names of core imports mean in a world: their roles.
//!
//! A core module that a generator of bindings made has no record of its roles: they follow from the names, by the
//! world. There are two forms of names, the older one, with words in square brackets, and the standard one, which
//! begins with `cm32p2` (component model, build targets). `specs/ImportNames.antt` is the table of both.
//!
//! Upward this crate promises that each answer is that of the table, and that the names of two roles differ.
//!
//! In reading order: `fields` (the functions and resources in a name), `imports` (whole names), `laws` (the names of
//! two roles differ).
#![tactic(auto)]

mod fields;
mod imports;
mod laws;

pub use imports::{ModuleKind, import_role};
pub use laws::{import_names_differ, imports_are_read_back};
