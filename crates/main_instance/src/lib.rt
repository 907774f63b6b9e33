//! What the imports of a user module are given, when it is instantiated.
//!
//! A function of the world is given as a lowering, or, where its calls need a memory and main
//! doesn't import its memory, as a shim: an export of the instance of shims, which stands for a
//! lowering that is made after the user modules. The functions of a resource's handles are given as
//! themselves, and so are main's memory and what main exports; a return from an exported function is
//! given as itself, or as a shim where it needs a memory that isn't there yet, and so are waits and
//! the making of an error context; what reads the debug message of one is always given as a shim; a
//! function of a stream or a future is given as itself, but a read or a write with a realloc, or where
//! main imports no memory, as a shim;
//! a function that an adapter exports is given as a shim, since the adapter is instantiated later. Where the thread-local base can't be
//! in a task's context, the module of shims has a cell for it, with a function that reads it and one
//! that sets it. There is an inline instance for each module that the user module imports from, with
//! an entry for each field.
//!
//! In reading order: `calls` (string encodings, and the kinds of shims), `shims` (their module and
//! its instance), `cell` (the functions of the cell of the thread-local base), `own_handles`
//! (functions of the handles of own resources), `direct` (the options of lowerings without a shim),
//! `returns` (returns from exported functions), `memory_functions` (waits, and functions of error
//! contexts), `payloads` (reads and writes of streams and futures), `others` (what other user modules export), `instances` (what each import is given). In
//! `specs/`: `Calls`, `Direct`, `Shims`, and `Sources` (what is taken as given).
//!
//! Upward this crate promises: each argument is what the link table names for each of its fields,
//! or a shim that stands for it (`IsArgumentFor` of `comp_terms`); definitions grow at their end,
//! and each keeps its rule.
#![tactic(auto)]

mod calls;
mod cell;
mod direct;
mod instances;
mod memory_functions;
mod others;
mod own_handles;
mod payloads;
mod returns;
mod shims;

pub use calls::main_or_adapter;
pub use instances::ImportSources;
pub use shims::{MadeShims, encode_shim_instantiation, shim_alias};
