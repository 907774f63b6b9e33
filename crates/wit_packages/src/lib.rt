//! WIT packages in binary form: what they say, in the values that records become.
//!
//! Tools such as wit-bindgen write a package into a custom section of a core module whose name begins `component-type`.
//! [`read_package`] gives the names of its world, how its functions encode texts, and the world: the same value that a
//! record of this world becomes (`record_values`), in the order in which the package imports and exports its items.
//!
//! Three layers refuse, each with a place: the grammar at an offset of the bytes
//! (`package_syntax`), the sections as a whole ([`Lack`]), and the meaning at a declaration of the
//! world ([`Wrong`]), whose indices are looked up in scopes (`package_types`).
//!
//! What a package says, with each use of a type without a name as a copy of it, is bounded by its
//! length before anything is built (`package_copies`).
//!
//! Upward this crate promises that the result is that of `package_of` (`specs/Packages.antt`), memory aside.
//!
//! In reading order: `fault` (refusals), `state` (what is said so far), `steps` and `interfaces`
//! (what a declaration says), `worlds` (a world from its declarations), `packages`.
#![tactic(auto)]

mod fault;
mod interfaces;
mod packages;
mod state;
mod steps;
mod worlds;

pub use fault::{Lack, PackageFault, Wrong};
pub use packages::{Package, read_package};
