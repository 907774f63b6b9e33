//! What a world has by name: the functions and resources of the world itself and of its interfaces, and the
//! interfaces by the labels that names of core imports and core exports have.
//!
//! The tables of a world are made once ([`WorldNames`]); then a look-up takes the time of the name's length, whatever
//! the size of the world.
//!
//! In reading order: `tables`, `labels` (which interface a label is of), `scopes` (the functions and resources of
//! the world or an interface).
#![tactic(auto)]

mod labels;
mod scopes;
mod tables;

pub use labels::{Side, canonical_label, imported_label, labelled};
pub use scopes::{Scope, has_function, is_own_resource, of_interface, owned, resource, root};
pub use tables::{Resources, WorldNames, resources_of};
