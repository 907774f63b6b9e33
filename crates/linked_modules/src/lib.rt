//! What the modules of a world give each other: whether each import that another module provides names what is
//! there, may have it, and matches it (core standard, validation: import matching).
//!
//! `specs/LinkCauses.antt` says when each refusal is right, in words that don't follow the code.
//!
//! In reading order: `reports` (refusals), `giving` (what an import is given by another module), `linking` (what all
//! modules give to each other).
#![tactic(auto)]

mod giving;
mod linking;
mod reports;

pub use linking::check_links;
