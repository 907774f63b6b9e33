//! The world of the modules that were gathered, once what each of them says was decoded: what several modules say of
//! their world is merged ([`merge`]), and the validated world is prepared ([`prepare`]).
//!
//! These are the calls of every lower layer whose metadata is a `Bindgen` of `record_merge`,
//! whatever spelled it. A world is prepared in steps, each a crate of its own: `record_versions`
//! merges compatible versions, `record_resolve` resolves names, `record_imports` and
//! `record_exports` check the roles of main, and then of each adapter in order, against their core
//! types; `linked_modules` compares what the modules import from each other; and `supported_worlds`
//! refuses what is not encoded yet. `specs/Preparing` puts them together, and `specs/Causes` says
//! when each fault is right, and of which module, in words that don't follow the code.
//!
//! In reading order: `merging`; `combined` (the world of all modules), `reach` (which exports of others a module may
//! import), `checking` (a module's roles), `modules` (a module of the world), `arguments` (of a library), `adapters`,
//! `preparing` (the validated world).
#![tactic(auto)]

mod adapters;
mod arguments;
mod checking;
mod combined;
mod merging;
mod modules;
mod preparing;
mod reach;

pub use merging::merge;
pub use preparing::prepare;
