//! The items of a component under construction, each by the term that says what it is.
//!
//! [`ComponentItems`] wraps the builder of `comp_builder`. Each call adds one definition, or finds
//! the one that an earlier call added, and returns the index of its item; the contract says which
//! term the index has (`specs/Terms.antt` of `comp_terms`), of a type, what it denotes, and of a
//! type of instances and of an imported instance, what its members are (`specs/Inventories.antt` of
//! `comp_trees`). Nothing here knows a world, and no type is found again: a scope of types does
//! that (`root_imports`). One look-up is private to it: the aliases of what core instances export,
//! by instance, kind and name. An alias of what an imported instance exports is new at each call.
//!
//! The guarantees: definitions only grow at their end (`Extends`); an error other than out of memory comes
//! only where a space is full (`Full` of `comp_builder`); a call that adds one definition leaves everything
//! as it was where it is refused (`Adds` of `comp_builder`).
//!
//! In reading order: `alias_key` (by what aliases are found), `items` (the fields), `core_items`
//! (core modules, core instances, and what these export), `types` (types), `instances` (imported
//! instances, and what these export), `functions` (imports, lowerings, lifts and exports), `nested`
//! (nested components, and their instances), `intrinsics` (built-in functions).
#![tactic(auto)]

mod alias_key;
mod core_items;
mod functions;
mod instances;
mod intrinsics;
mod items;
mod nested;
mod types;

pub use items::ComponentItems;
