//! Warnings of a world: what its interfaces, types and functions have that this encoder takes and a validator of
//! components refuses.
//!
//! Upward this crate promises [`add_world_warnings`]: it adds the warnings that `specs/Worlds.antt` lists for a
//! world, of its interfaces, its imports and its exports in order, and its only error is out of memory. Each rule is a
//! test of a name, a type or a function (`specs/`), and a warning has the path of that, in the words of a
//! record, with names in the place of indices.
//!
//! A type is the list of its nodes, so that all tests of types are tests of lists. What they need of other types is
//! in two tables that are made once: which types are resources, and which hold borrowed handles.
//!
//! In reading order: `facts` (these tables), `nodes` (tests of nodes), `handles` (owned and borrowed handles as the types of
//! functions), `types`, `functions`, `worlds`.
#![tactic(auto)]

mod facts;
mod functions;
mod handles;
mod nodes;
mod types;
mod worlds;

pub use worlds::add_world_warnings;
