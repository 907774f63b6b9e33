//! A lower layer by WIT packages and by records: what the tools that generate bindings write into a core module.
//!
//! [`PackageLower`] implements [`comp_worlds::Lower`]; it guarantees the clauses of that trait over
//! the definitions of `specs/` and of `gathered_worlds`, which does what comes after decoding. The
//! component of a module is described by the custom sections whose name begins `component-type`.
//! One that is binary is a package (`wit_packages`), another one is a record (`records`); several
//! of them are merged (`record_merge`), and equal ones count once. Where there is a package, or no
//! such section, the names of core imports and core exports say their roles (`core_import_names`,
//! `core_export_names`), unless a record gives one; and a function import whose name means nothing
//! is one of the adapter of its module's name.
//!
//! In reading order: `fault`, `sections` (what describes the component), `reading` (records and packages), `roles` (by
//! names), `decoding`, `lower` (the layer).
#![tactic(auto)]

mod decoding;
mod fault;
mod lower;
mod reading;
mod roles;
mod sections;

pub use fault::LowerFault;
pub use lower::PackageLower;
