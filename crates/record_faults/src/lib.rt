//! Why the lower layer by records refuses a module, a record, a merge or a world.
//!
//! Its steps end early with a [`Failure`]; what callers see is the flat [`PlainFault`], which is made
//! of it once, at the top. The crates that prepare a world, and the layer itself, depend on this one.
#![tactic(auto)]

mod fault;

pub use fault::{Failure, PlainFault, Refusal};
