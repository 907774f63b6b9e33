//! The core types of a module's imports and exports, which its record doesn't give.
//!
//! It gives the types of a module's imports ([`imported`]) and of the exports that it offers to
//! others ([`offered`], with [`extern_type`], [`item_type`] and [`memory_type`] for one import or
//! export), and decides whether an import or an export has the type that its role requires
//! ([`fits_import`], [`fits_export`]): `specs/Asked.antt` is the table of the roles. What main
//! exports is not compared here, since only main's module gives its type.
//!
//! In reading order: `offering`; then `finding` (the functions that roles name), `intrinsics` (the types
//! of built-in functions), `fitting`.
#![tactic(auto)]

mod finding;
mod fitting;
mod intrinsics;
mod offering;

pub use fitting::{fits_export, fits_import};
pub use offering::{extern_type, imported, item_type, memory_type, offered};
