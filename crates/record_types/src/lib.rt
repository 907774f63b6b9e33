//! Types, functions and interfaces, from values of JSON.
//!
//! A type is read into the list of its nodes, each after its parts, with its size; a reference to a
//! type has the index of an interface until the world's names are known. Each public call returns
//! exactly what its definition in `specs/` gives, unless it runs out of memory. Nothing here knows the
//! contents of a world.
//!
//! In reading order, each file upon those before it: `known` (what is known of named types), `sizes`
//! (sizes of types, and the limits), `primitives` (names of primitive types), `references` (named types
//! by index and name), `plain` (types without inner types), `types` (all types), `named` (names and
//! their types), `functions`, `ids` (ids of interfaces), `interfaces` (all of it).
//!
//! The definitions are in `specs/` under the same names; `Types` has those of `plain` and of `types`,
//! and `Scopes` says which types may be named.
#![tactic(auto)]

mod functions;
mod ids;
mod interfaces;
mod known;
mod named;
mod plain;
mod primitives;
mod references;
mod sizes;
mod types;

pub use functions::read_function;
pub use interfaces::read_interfaces;
pub use known::{ReadInterface, Scope, Size, TypeFacts};
pub use named::read_named_type;
