//! Warnings: what this encoder takes and a validator of components refuses; and those of names: a name that isn't in
//! kebab case, and one that its list has before, if perhaps in other letters.
//!
//! A [`Warning`] is a rule that is broken, and the place where. Upward this crate promises that each call
//! adds exactly the warnings that `specs/` lists for its names, in their order, and that its only error is
//! out of memory. The crates above list the warnings of worlds and of modules; [`show_warnings`] is their text.
//!
//! In reading order: `warning` (a warning as a value), `noting` (one that is added), `forms` (the form of
//! names), `repeats` (names that occur twice), `labels` (both, of a list), `lines` (warnings as text).
#![tactic(auto)]

mod forms;
mod labels;
mod lines;
mod noting;
mod repeats;
mod warning;

pub use forms::{add_interface_name, add_label, add_plain_name, add_world_name};
pub use labels::add_labels;
pub use lines::show_warnings;
pub use noting::{longer, note, note_at};
pub use repeats::add_repeats;
pub use warning::{Warning, WarningKind};
