//! What a record says of the world: its interfaces, its imports and its exports.
//!
//! The members `interfaces`, `imports` and `exports` of a record become a world in which each interface
//! has its name instead of its index in the record; with it come the interfaces of the record by index,
//! for those that read the rest of the record. Each public call returns exactly what
//! `specs/Worlds.antt` gives, unless it runs out of memory.
//!
//! In reading order: `items` (the items of imports and exports as they are written in the record),
//! `naming` (names of interfaces), `tables` (interfaces and items by name), `rules` (what items may
//! name), `indexing` (interfaces by index), `world` (all of it).
#![tactic(auto)]

mod indexing;
mod items;
mod naming;
mod rules;
mod tables;
mod world;

pub use world::read_world;
