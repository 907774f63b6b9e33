//! The roles of the core exports of a user module, and whether the module has those that are required.
//!
//! [`read_exports`] resolves the role of each core export, by the role that a record gives it and in
//! the resolve that was made of the record's world; an export without a role is left out. It refuses an
//! export whose role names nothing there, whose type is not the one that the role requires, or that is
//! the post-return or the callback of a function that can't have one. [`require_all`] gives the keys of
//! the world that the required exports have; it refuses where the world exports nothing there, where a
//! function there is no core export, and where one that is called with a callback has none (Canonical
//! ABI: `canon lift`, with its options `post-return` and `callback`).
//!
//! Each public call returns exactly what its definition in `specs/` gives, unless it runs out of
//! memory; `Causes` says when each refusal is right, in words that don't follow the code. Functions are
//! looked up in tables, so that the time is linear in the number of exports and of required functions.
//!
//! In reading order: `meaning` (the role of one export), `exporting` (the roles of all), `functions`
//! (the functions of exports), `taking` (post-returns and callbacks), `requiring` (the exports that are
//! required of a module).
#![tactic(auto)]

mod exporting;
mod functions;
mod meaning;
mod requiring;
mod taking;

pub use exporting::read_exports;
pub use requiring::require_all;
