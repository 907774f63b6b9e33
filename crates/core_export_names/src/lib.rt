//! What the names of core exports mean in a world: their roles.
//!
//! There are two forms of names, the older one, which is the function's name or the label of its interface and the
//! function's name, and the standard one, which begins with `cm32p2` (component model, build targets).
//! `specs/ExportNames.antt` is the table of both.
//!
//! Upward this crate promises that each answer is that of the table.
#![tactic(auto)]

mod exports;

pub use exports::export_role;
