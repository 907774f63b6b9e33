//! The types of other interfaces of which an interface is made.
//!
//! An interface may use types of others: directly, where it lists another name for one or names one
//! in a function, and through types that it uses. [`all_foreign_types`] lists them all, each once
//! and behind those of which it is made itself, as one meets them who walks through the types that
//! the interface lists and then through its functions. Each type is entered once: the time is
//! linear in the number of the types that are met and of their parts.
//!
//! (Where only those are wanted that are met first, there is `foreign_types` of `type_scopes`.)
//!
//! In reading order: `walk` (what was met so far), `meeting` (types), `interface` (all of an interface).
//!
//! In `specs/`: `Foreign` (which types are listed, and in which order), `Walking` (what is known of a walk).
#![tactic(auto)]

mod interface;
mod meeting;
mod walk;

pub use interface::all_foreign_types;
