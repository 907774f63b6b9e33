//! How much of a WIT package is copied where what its indices name is put in their place.
//!
//! A type without a name is copied where it is used, so that a package of a few bytes can say a
//! world of any size: a chain of pairs, or many uses of one long type. Here it is counted
//! beforehand, in nodes and bytes of text, by the declarations alone and in one pass, and nothing
//! is built. [`first_over`] gives the declaration with which a world says more than 64 for each
//! byte of its package, and 65,536 besides. (The component model sets no limit; this is this
//! project's own.)
//!
//! Upward this crate promises that the answer is that of `specs/Worlds.antt`. The indices of types are those of
//! `wit_packages`; one that names nothing weighs nothing here, and is refused there.
//!
//! In reading order: `weights` (of types), `instances`, `worlds`.
#![tactic(auto)]

mod instances;
mod weights;
mod worlds;

pub use worlds::first_over;
