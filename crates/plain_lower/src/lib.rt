//! A lower layer by records: the component of a module is described as JSON in the custom sections of
//! the module whose name begins `component-type`.
//!
//! [`PlainLower`] implements [`comp_worlds::Lower`]; it guarantees the clauses of that trait over
//! the definitions of `specs/` and of `gathered_worlds`, which does what comes after decoding. A
//! record is read by `records` and the crates below it, and the records of a module are put
//! together by `record_merge`. `specs/Causes` says when each fault of decoding is right, in words
//! that don't follow the code. Nothing here knows JSON.
//!
//! In reading order: `decoding` (the records of a module), `lower` (the layer).
#![tactic(auto)]

mod decoding;
mod lower;

pub use lower::PlainLower;
pub use record_faults::PlainFault;
pub use record_merge::Bindgen;
