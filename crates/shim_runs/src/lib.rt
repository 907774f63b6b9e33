//! What a run does with the two modules that are generated for shims.
//!
//! The definitions are in `specs/ShimRuns.antt`; `laws` has what is proved of them. They are lemmas
//! of `proofs/` for the laws above, and this crate has no code.
#![tactic(auto)]

mod laws;

pub use laws::{empty_shims_trap, filled_shims_forward};
