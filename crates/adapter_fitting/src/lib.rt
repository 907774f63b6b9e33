//! What is done to core modules before they are given to the encoder: an adapter gets its stack,
//! and a main module that has none gets the realloc which that asks for.
//!
//! An adapter is written in a language whose functions need a stack in memory, and the memory is
//! main's. One that names the globals `__stack_pointer` and `allocation_state` asks for its stack
//! to be allocated when it is first called: [`fit_adapter`] adds a function that does so, by main's
//! realloc, and that each exported function calls before all that it does. It refuses an adapter
//! that would write over main's memory. [`give_realloc`] adds to a main module without one a
//! realloc for adapters that answers such a call with a page of memory, and
//! [`name_adapter_realloc`] lets an adapter import that one. The first two only append, and the
//! third changes a name: no index changes its meaning, and no instruction is read.
//! [`has_active_data`] says whether a module would write data of its own into memory when it is
//! instantiated.
//!
//! Upward this crate promises that the answers are those of `specs/`: which modules are changed,
//! and what exactly is written (`specs/Fitting.antt`, `specs/MainRealloc.antt`,
//! `specs/AdapterRealloc.antt`, `specs/Allocation.antt`). Time and memory are linear in the module,
//! but for the look-up of exported functions.
//!
//! In reading order: `fault`; `places` (sections and their order); `stack` (its globals), `realloc`
//! (the import of main's), `indices` (what is read of a module); `allocation` (the functions that
//! are added), `checks` (what has to hold), `data`, `fitting`, `main_realloc`, `adapter_realloc`.
#![tactic(auto)]

mod adapter_realloc;
mod allocation;
mod checks;
mod data;
mod fault;
mod fitting;
mod indices;
mod main_realloc;
mod places;
mod realloc;
mod stack;

pub use adapter_realloc::{name_adapter_realloc, names_adapter_realloc};
pub use data::has_active_data;
pub use fault::{FitFault, Refusal};
pub use fitting::fit_adapter;
pub use main_realloc::give_realloc;
