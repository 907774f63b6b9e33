//! The types of the interfaces that the user modules have to export. They are defined at the root
//! of a component before its user modules are instantiated, those of each interface behind those of
//! the exported ones that it uses.
//!
//! In reading order: `export_order` (whether what an interface uses is there), `own_resources` (the
//! resources among the types, with their destructors), `interfaces` (all types, interface by
//! interface). `specs/ExportedTypes.antt` says what is defined.
#![tactic(auto)]

mod export_order;
mod interfaces;
mod own_resources;

pub use interfaces::define_exported_types;
pub use own_resources::ShimSources;
