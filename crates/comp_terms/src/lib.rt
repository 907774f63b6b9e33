//! What an item of a list of definitions is, as a value (a term), and the rules that a list keeps
//! which is encoded for a world.
//!
//! This crate holds definitions alone, which the crates above cite: `specs/Terms.antt` (terms, and
//! the items that they describe; it knows no world), `specs/Planned.antt` (which terms the link
//! table of a world asks for), `specs/Exports.antt` (the instances of nested components, and what
//! is exported), `specs/Rules.antt` (the rule of each definition, and the landmarks of the whole
//! list). They are no part of a promise: `link_laws` proves from them that the list links.
//! `proofs/HasShims.antt` says where there is a module of shims.
#![tactic(auto)]
