//! Records: the JSON that gives the roles of a core module's exports.
//!
//! There is one public call: [`read_core_exports`] returns the role of each core export, or the fault of
//! the first value that is wrong, with its JSON pointer (`specs/CoreExports.antt`, and below it one file a
//! topic). A role names something that the record's own world exports.
//!
//! In reading order: `kinds` (names of kinds), `export_roles`, `core_exports`.
#![tactic(auto)]

mod core_exports;
mod export_roles;
mod kinds;

pub use core_exports::read_core_exports;
