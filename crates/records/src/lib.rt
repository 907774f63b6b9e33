//! Records: the JSON that describes a component's world, and the roles of a core module's imports and
//! exports in it.
//!
//! There is one public call: [`read_record`] returns the record that bytes encode, or the fault of the
//! first value that is wrong, with its JSON pointer (`specs/Records.antt`). The world is read by
//! `record_worlds`, and the roles by `record_import_roles` and `record_export_roles`.
#![tactic(auto)]

mod record;

pub use record::read_record;
