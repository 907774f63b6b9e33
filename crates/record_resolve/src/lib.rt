//! From the names in records to a resolve with one world.
//!
//! A record has interfaces, types and functions by name; a `Resolve` has them by number. [`resolve`]
//! makes the types one after the other, in an order in which each name of a sound record refers to a
//! type that is made earlier, and returns the numbers of the interfaces of both sides by name, and the
//! first key of each.
//!
//! An exported interface is a copy of its own, also where it is imported too. Within exported copies,
//! and in exported functions, a type of an exported interface is that of its copy; everywhere else a
//! name refers to the imported type. Equal unnamed types of one interface, of one copy, or of the world
//! are one type.
//!
//! Each public call returns exactly what its definition in `specs/` gives, and the result is sound.
//! Nothing here knows the JSON of a record.
//!
//! In reading order: `making` (what is made, and the types to which names refer), `kinds` (what a node
//! makes of its parts), `sharing` (unnamed types), `types` (lists of nodes), `functions`, `ids`,
//! `interfaces`, `worlds` (the interfaces and the items of a world, in order), `interface_keys` (the
//! keys of interfaces), `resolving` (the whole), `other_names` (interfaces that became others).
#![tactic(auto)]

mod functions;
mod ids;
mod interface_keys;
mod interfaces;
mod kinds;
mod making;
mod other_names;
mod resolving;
mod sharing;
mod types;
mod worlds;

pub use resolving::{Resolved, resolve};
