//! Components that are built definition by definition.
//!
//! [`ComponentBuilder`] holds the definitions of `comp_bytes` that were added so far, the debug names of
//! their items, and how many items each index space has. It alone allocates indices.
//!
//! The guarantees: each call adds exactly one definition and returns the index of the item that it
//! makes (`Adds` of `specs/Built.antt`, `IsAt` of `comp_bytes`); an error other than out of memory
//! comes only where a space is full (`Full`) or a count or a size that would be written passes 2^32
//! - 1 (`Refused`), and leaves the builder unchanged; and the bytes that
//! [`ComponentBuilder::finish`] returns encode the definitions that were added (`Encodes`), as many
//! as [`ComponentBuilder::measure`] says without taking memory (`Measures`).
//!
//! In reading order: `builder` (the fields, debug names, the finish) and `defining` (one call for each form of
//! definition).
#![tactic(auto)]

mod builder;
mod defining;

pub use builder::ComponentBuilder;
