//! The required exports of a world, those of main and then those of the adapters in order: each
//! function is lifted from the core export of its user module that implements it, with main's
//! memory, and the module's realloc, string encoding, post-return and callback, as far as its type
//! and its form ask for them. A function at the root is exported as its lift; the functions of an interface, and the
//! types of which they are made, are given to a nested component (`nested_components`), whose
//! instance is exported in the place of the interface.
//!
//! In reading order: `tables` (core exports by the functions that they belong to), `sources` (what
//! functions are lifted from), `options` (the options of a lift), `lifts` (lifts), `arguments`
//! (what a nested component is given), `exports` (exports, key by key), `modules` (one user module
//! after the other). In `specs/`: `Tables`, `Exports` (what is taken as given, and what is lifted
//! for a required function).
//!
//! Upward this crate promises: each lift is the one that the link table names for the required
//! function, with its type and its options (`IsRequiredLift` of `comp_terms`); the instance that is
//! exported for an interface passes on the lift of each of its functions; definitions grow at their
//! end, and each keeps its rule. What a user module or the world lacks for a lift is the cause of a
//! refusal (`core_options`).
#![tactic(auto)]

mod arguments;
mod exports;
mod lifts;
mod modules;
mod options;
mod sources;
mod tables;

pub use modules::export_all;
