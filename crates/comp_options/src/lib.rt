//! The options that a canonical function needs.
//!
//! The sets follow from a function's types and from the form in which it is called, or from the
//! element type of a stream or a future. Nothing here depends on a world or its core modules. The
//! guarantees: the sets are those of `specs/Options.antt` and `specs/Payloads.antt`, and they are
//! listed in order, each option where it is needed; it refuses only where a memory or a realloc is
//! needed and missing.
//!
//! In reading order: `required` (which options a canonical function needs, and the list of the options), `laws`
//! (laws of those).
#![tactic(auto)]

mod laws;
mod required;

pub use laws::{count_equals_len, lowering_adds_realloc};
pub use required::{OptionFault, Options, RequiredOptions};
