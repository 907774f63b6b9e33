//! Worlds in which compatible versions of imported interfaces are merged.
//!
//! Each public call returns exactly what its definition in `specs/` gives, unless it runs out of
//! memory. Nothing here knows the JSON of a record.
//!
//! In reading order: `compatible` (canonical ids), `groups` (which interface becomes which), `uses`
//! (which interfaces one names), `containment` (each interface that becomes another is contained in it),
//! `renamed` (the world without those interfaces), `taking` (the new order: each time the first whose
//! uses are taken), `order` (imports in that order), `reach` (exported interfaces that reach exported
//! ones), `versions` (the whole).
#![tactic(auto)]

mod compatible;
mod containment;
mod groups;
mod order;
mod reach;
mod renamed;
mod taking;
mod uses;
mod versions;

pub use compatible::{Compatible, compatible_of};
pub use groups::{Candidate, Greatest, greatest_imports, renames};
pub use reach::check_reach;
pub use versions::{MergedVersions, merge_versions};
