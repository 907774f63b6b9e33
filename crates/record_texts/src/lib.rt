//! The JSON record that says what a module says of its component.
//!
//! A module whose component is described by a WIT package, and by the names of its core imports and
//! exports, says the same as one with such a record. [`record_text`] writes it: for people, who look
//! at it and change it. The guarantee: the text has the value that `specs/Records.antt` gives, member
//! by member. Nothing here reads a package or a module.
//!
//! In reading order: `fault` (why there is no record), `values` (arrays and objects), `names`
//! (interfaces by their indices), `types`, `functions`, `interfaces`, `items` (the world's),
//! `import_roles` and `export_roles`, `record` (all of it). The definitions are in `specs/`; `Types`
//! has those of `types`, and `Worlds` those of `functions`, `interfaces` and `items`.
#![tactic(auto)]

mod export_roles;
mod fault;
mod functions;
mod import_roles;
mod interfaces;
mod items;
mod names;
mod record;
mod types;
mod values;

pub use fault::RecordTextFault;
pub use record::record_text;
