//! The root of a component as a scope of types, and what is imported there by a name of the world:
//! its types, and the functions that core modules use. The interfaces, which come before both, are
//! imported by `comp_imports`.
//!
//! [`RootScope`] is the root of a component as a scope of types
//! ([`ValtypeEncoder`](wit_types::ValtypeEncoder)): a type of the resolve is defined there once,
//! before what names it. A named type of the world is imported before any function.
//!
//! What an imported interface exports is known by its instance: a type of it that the root names is an alias
//! ([`RootScope::alias_type`]).
//!
//! The types of exported interfaces are defined at the root, too: with them the functions of an
//! interface are lifted, and they are given to the component that exports them. Then the root
//! forgets them, and knows the instance that exports them in their place: a type of it that another
//! exported interface uses is an alias ([`RootScope::enter_export`]). A type that an exported
//! interface uses of an imported one is an alias, as above, and stays known. [`MetTypes`] says
//! which of all these types are at hand.
//!
//! In reading order: `met_types` (which types are at hand), `root_scope` (the scope, and types in
//! it), `aliases` (aliases of types of interfaces), `world_types` (imports of types), `used` (the
//! functions that core modules use), `functions` (imports of functions), `exported_types` (the
//! types of exported interfaces), `payload_types` (the types of streams and futures of core imports).
//! In `specs/`: `Met` (which types are at hand), `RootScopes` (what
//! the scope takes as given, and how it grows), `Growing` (lists of definitions that grow),
//! `Interfaces` (what is known of the interfaces that were imported), `Imports` (of the functions,
//! and of the next import), `Forgetting` (what becomes of the tables when a type is forgotten).
//!
//! Upward this crate promises: where the imported interfaces are known, [`RootScope::import_types`]
//! and [`RootScope::import_functions`] import exactly the types of the world and the functions that
//! core modules use, in its order; the type of each function, imported or asked for by
//! [`RootScope::function_type`], denotes the tree of the function in the world; an alias of a type,
//! and what [`RootScope::dropped_resource`], [`RootScope::exported_type`] and
//! [`RootScope::payload_type`] return, denotes the tree of the type; after [`RootScope::forget_exported_types`] no table has a type of the
//! interface, and all else is as it was; definitions grow at their end, and each keeps the rule of
//! its kind (`Grows` of `comp_terms`). A refusal is out of memory, or a full index space.
#![tactic(auto)]

mod aliases;
mod exported_types;
mod functions;
mod met_types;
mod own_resources;
mod payload_types;
mod root_scope;
mod used;
mod world_types;

pub use exported_types::types_of;
pub use met_types::MetTypes;
pub use root_scope::{HasWorld, RootScope};
