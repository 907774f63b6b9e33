//! What the types of a WIT package mean: indices of a scope, resolved to the values that records become.
//!
//! A declaration of a world or of an instance type names types by their indices in its scope. An entry of a scope
//! ([`Entry`]) is a name, which a reference keeps, or a definition, which a reference puts in its place. So a package
//! and a record of the same world give equal values, a type being the list of its nodes (`record_values`).
//!
//! The size of a type is counted before its nodes are made, since a chain of pairs is exponential in its length. A type
//! has at most 100 levels and 10,000 nodes, as in records.
//!
//! Upward this crate promises that the entry of a type ([`entry_of`]) and the content of an
//! instance type ([`content_of`]) are those of `specs/Types.antt`, `Functions.antt` and
//! `Instances.antt`, memory aside, and that where they refuse, it is for the cause that these
//! definitions give.
//!
//! In reading order: `fault` (causes), `scopes` (entries), `sizes`, `types` and `nodes` (types
//! of values), `functions`, `named` (types
//! that get a name), `instances` (the content of an instance type).
#![tactic(auto)]

mod fault;
mod functions;
mod instances;
mod named;
mod nodes;
mod scopes;
mod sizes;
mod types;

pub use fault::{Cause, TypeFault};
pub use functions::{entry_of, named_function};
pub use instances::{MemberFault, content_of};
pub use named::{Meaning, meaning_of, plain_name, resource};
pub use scopes::{Content, Entry, Facts, Signature, Size};
