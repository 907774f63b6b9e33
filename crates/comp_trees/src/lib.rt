//! Types as closed trees, by which types from different places are compared.
//!
//! A type of a [`Resolve`](wit_data::Resolve) and a type of a component name other types by their indices. Their trees
//! name none: a tree holds all that the type is made of, and a resource is known by what it is. So that two types are
//! the same is an equation, and what follows from a type alone is plain recursion on its tree.
//!
//! This crate holds definitions and their laws alone. In reading order: `specs/Trees.antt` (the
//! trees of types and of functions), `specs/WitTrees.antt` (those of WIT),
//! `specs/DefinedTrees.antt` (those that a component defines), `specs/DefinedScopes.antt` (those of
//! definitions one after the other), `specs/Members.antt` (those of instance types, what an
//! instance exports, and which members an import can have), `specs/Flattening.antt` (core values of
//! types and core signatures of functions, by their trees), `laws` (what holds of them).
//!
//! Upward this crate promises: the tree of a type of a resolve is made of the trees of the types
//! that it names ([`trees_of_parts`]), and nothing in it is unknown ([`trees_are_known`]); the core
//! values of a type are those of its tree ([`flat_of_trees`]); the core signature of a function is
//! that of its tree, in each form of call ([`signatures_of_trees`]); what a type of a component
//! denotes, it denotes in each longer scope ([`trees_are_kept`]). For proofs above:
//! `proofs/Folds.antt` (a function that takes the values of one fold over types to those of another
//! at each kind does so at each type; what each step of a fold keeps holds of all its values),
//! `proofs/Knowing.antt` (the tree of a kind is known where those of its parts are),
//! `proofs/Resources.antt` (`same_resource` tells whether two resources are one),
//! `proofs/KnownScopes.antt` (where nothing in a type is unknown, it names types of its scope
//! alone).
#![tactic(auto)]

mod laws;

pub use laws::{
    flat_of_trees, signatures_of_trees, trees_are_kept, trees_are_known, trees_of_parts,
};
