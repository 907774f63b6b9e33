//! What a nested component imports and exports, which is how an exported interface is given its types.
//!
//! The functions and types of an exported interface are lifted and defined at the root of the
//! component. A nested component imports them, and exports them again under the names of the
//! interface, with types of its own; its instance is what the component exports.
//!
//! This crate holds definitions alone, which the crates above cite. In reading order:
//! `specs/Nested.antt` (what the items of a nested component are, and which may stand in one),
//! `specs/Naming.antt` (the names of its imports).
#![tactic(auto)]
