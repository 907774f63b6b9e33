//! Modules whose component is described by a record, made of those that have it described otherwise.
//!
//! A generator of bindings writes a WIT package into a module, and says by names what each core import
//! and export is. [`record_module`] writes the JSON record that says the same, in the place of the
//! package, for people who look at it and change it. The guarantee (`specs/Recorded.antt`): all else of
//! the module stays, and the record has the value of what the module said.
//!
//! In reading order: `fault` (why there is no such module), `sections` (a custom section), `modules`
//! (the module).
#![tactic(auto)]

mod fault;
mod modules;
mod sections;

pub use fault::RecordingFault;
pub use modules::record_module;
