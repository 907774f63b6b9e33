//! The names of a component's definitions: none occurs twice in its list, and those of imports and
//! exports are well formed by the component model.
//!
//! [`check_names`] accepts exactly where both hold (`NamesOk` of `specs/Names.antt`), unless it is out of
//! memory, and reports a name that is wrong else. [`is_formed`] decides the form of a name, whose grammar is
//! `specs/NameForm.antt`; [`is_label`], [`is_plain_name`] and [`is_unversioned`] answer its parts as values (`specs/Tests.antt`).
//!
//! In reading order: `fault` (what is wrong), `label`, `version`, `prefix`, `form` (the form of
//! names), `tests` (these as values), `met`, `listing` (one list of names), `lists` (which lists there are), `checking`
//! (the definitions in turn), `names` (a whole component).
#![tactic(auto)]

mod checking;
mod fault;
mod form;
mod label;
mod listing;
mod lists;
mod met;
mod names;
mod prefix;
mod tests;
mod version;

pub use fault::NameFault;
pub use form::is_formed;
pub use names::check_names;
pub use tests::{is_label, is_plain_name, is_unversioned};
