//! The state of an encoding: each step appends the definitions that the world needs.
//!
//! [`EncodingState`] holds the root of a component under construction (`root_imports`) and the
//! items made so far; [`encode_world`] runs the steps in their order. What a step guarantees is in
//! `specs/Rules.antt` of `comp_terms`: the list of definitions only grows (`Grows`), each new
//! definition keeps the rule of its kind, the landmarks of the list are those of the world. Nothing
//! here depends on how a component runs; the look-ups are private to the state, and no public
//! contract mentions them.
//!
//! In reading order: `state` (the fields, and each step), `encode` (the steps in order). The steps
//! themselves are in crates of their own: `comp_imports`, `core_instances`, `main_exports`.
#![tactic(auto)]

mod encode;
mod state;

pub use core_options::StateFault;
pub use encode::encode_world;
pub use state::{EncodingState, Step};
