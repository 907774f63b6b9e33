//! What several records of one module say together, and what several modules say of their world.
//!
//! Worlds are merged by name and key: what both say of an interface or an import must be the same, and
//! no export may be in both. The roles of the records of one module are merged by core import and by
//! field; a function has the encoding of the first record that names it.
//!
//! Each public call returns exactly what its definition in `specs/` gives, unless it runs out of memory
//! (`specs/Merging.antt`, `specs/ModuleRecords.antt`); of a merged world it also shows what its tables have
//! for each key. `specs/Causes.antt` says when merging is refused. Nothing here knows the JSON of a
//! record.
//!
//! In reading order: `bindgen` (what is said), `tables` (two tables merged), `merging` (worlds),
//! `assigning` (roles), `encodings`, `module_records` (the records of one module).
#![tactic(auto)]

mod assigning;
mod bindgen;
mod encodings;
mod merging;
mod module_records;
mod tables;

pub use bindgen::{Bindgen, FunctionOf, Roles, no_bindgen};
pub use merging::{merge, merge_wit};
pub use module_records::bindgen_of;
