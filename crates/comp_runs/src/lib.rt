//! What running a list of definitions does: the machine, its store and the ways in which a run ends.
//!
//! This crate holds definitions alone, which the crates above cite, and they know nothing of the
//! encoder or of a world. In reading order: `specs/Store.antt` (what a run has made, over the store
//! of `core_runs`), `specs/Machine.antt` (a component that is being run), `specs/Signatures.antt`
//! (the core types of canonical functions), `specs/Instances.antt` (what is made where a module is
//! instantiated, or an instance is imported), `specs/Running.antt` (the effect of each definition).
#![tactic(auto)]
