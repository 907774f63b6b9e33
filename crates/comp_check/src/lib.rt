//! The check of components: each index names an earlier item, and names are distinct and well formed.
//!
//! [`check`] takes definitions of `comp_bytes`, and accepts exactly those that are right (`IsRight` of
//! `specs/Faults.antt`): each index names an earlier item of its space in its scope
//! (`Scoped` of `comp_bytes`), and the names are right (`NamesOk` of `comp_names`, which this crate calls).
//! Else it reports what is wrong, or that it is out of memory. [`check_indexes`] is the part that checks indices,
//! and allocates nothing; what a refused index shows is `specs/Indexes.antt`, which follows `Scoped` line by line.
//! [`read_component`] reads definitions from their bytes, with the faults of this crate; its result is
//! the one list that the bytes encode.
//!
//! A scope has one counter for each space, and each reference is looked up once, so a check takes
//! time linear in the definitions.
//!
//! In reading order: `fault` (what is wrong), `scope` (counters, and an index in a scope), `refers` (what
//! names items by index), `types`, `canon`, `items` (the items that a definition names, and the space in
//! which it makes one), `indexes` (definitions one after the other, in their scopes), `reading`, `checking`
//! (a whole component).
#![tactic(auto)]

mod canon;
mod checking;
mod fault;
mod indexes;
mod items;
mod reading;
mod refers;
mod scope;
mod types;

pub use checking::check;
pub use fault::{CheckFault, IndexFault};
pub use indexes::check_indexes;
pub use reading::read_component;
