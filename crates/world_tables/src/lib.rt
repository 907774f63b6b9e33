//! The tables that follow from a world's parts: how its imports are lowered, which types are live, and which exported
//! interfaces name which.
//!
//! Upward this crate promises that [`world_of_parts`] returns the world of its parts, with its tables (`whole_of` of
//! `comp_worlds`), and fails only for lack of memory; that [`interface_of`] finds an interface by its number; and that
//! [`interface_types`] are the types that it names.
//!
//! In reading order: `uses` (what core imports use) and `imported` (the lowerings of the world's
//! imports); `mentions` (what names which types); `walk` and `meeting` (the interfaces to which the
//! types belong that are reached), `places` (where interfaces stand among the exports) and
//! `reached` (live types, and exported interfaces that others name); `tables` (all of them);
//! `worlds` (a world with its tables).
//!
//! In `specs/`: `Walking` (what is known of a walk), `Placing` (what a table of places says).
#![tactic(auto)]

mod imported;
mod meeting;
mod mentions;
mod places;
mod reached;
mod tables;
mod uses;
mod walk;
mod worlds;

pub use mentions::{interface_of, interface_types};
pub use worlds::world_of_parts;
