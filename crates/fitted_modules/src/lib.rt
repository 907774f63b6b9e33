//! A main module and its adapters before they are encoded: each adapter that has a stack is fitted,
//! and main gets the realloc which that takes, where it has none.
//!
//! Upward this crate promises one call, [`fit_modules`], whose result is that of
//! `specs/Modules.antt`: what becomes of each module, and which one is refused. A module that can't
//! be read is left as it is, since the encoder's lower layer reads all of it and refuses it.
//!
//! In reading order: `fault`; `changes` (one module); `modules` (all of them).
#![tactic(auto)]

mod changes;
mod fault;
mod modules;

pub use fault::ModulesFault;
pub use modules::{Modules, NamedModule, fit_modules};
