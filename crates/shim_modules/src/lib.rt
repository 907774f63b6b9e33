//! The module of shims: generated functions that the user modules import in the place of functions
//! which can't exist yet, because they need a memory or an export of an instance that is made
//! later. A shim passes all its parameters to the function in the slot of its number in a table,
//! and returns all its results. Another generated module fills the table. A user module that
//! imports its memory is given one that the module of shims defines. And where a thread's base
//! can't be kept by the host, the module of shims keeps it for all modules: one mutable global, the
//! cell, with a function that reads it and one that sets it.
//!
//! The module is the value of `specs/Shims.antt`. What its functions do is said by the laws of
//! [`core_runs`] on modules of shims; that this module is one is `shim_modules_are_shims`. This
//! crate knows no world: it is given the memory, the cell, and the shims in order.
//!
//! In reading order: `shims` (what is given), `sections` (the parts of the module), `module` (the whole), `laws`.
#![tactic(auto)]

mod laws;
mod module;
mod sections;
mod shims;

pub use laws::shim_modules_are_shims;
pub use module::shim_module;
pub use shims::{ShimFunction, ThreadCell};
