//! Records: the JSON that gives the roles of a core module's imports.
//!
//! There is one public call: [`read_core_imports`] returns the role of each core import, or the fault of
//! the first value that is wrong, with its JSON pointer (`specs/CoreImports.antt`, and below it one file a
//! topic). A role names something in the record's own world, on the side that the role is of.
//!
//! In reading order: `values` (values that roles take), `payloads` (streams and futures that functions
//! have), `met_world` (a world with these), `kinds` (names of kinds), `payload_roles`, `import_roles`,
//! `core_imports`.
#![tactic(auto)]

mod core_imports;
mod import_roles;
mod kinds;
mod met_world;
mod payload_roles;
mod payloads;
mod values;

pub use core_imports::read_core_imports;
