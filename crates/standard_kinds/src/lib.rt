//! Kinds that the standards list, and that several crates name: primitive types of WIT, kinds of core items, and
//! string encodings. They depend on nothing, so that no crate has to wait for another for the sake of a name.
//!
//! In reading order: `kinds` (the kinds), `bytes` (the byte of a kind of core item).
#![tactic(auto)]

mod bytes;
mod kinds;

pub use bytes::byte_of_kind;
pub use kinds::{ExportKind, Primitive, StringEncoding};
