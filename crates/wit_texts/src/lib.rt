//! WIT types and functions as text, for test programs.
//!
//! Types are written one after another, with `; ` between them: how a type is made, and of what. A
//! part is the name of a primitive type, the index of a type, or `_` where there is none; `u32*17`
//! is seventeen of them. A function has the types of its parameters, an arrow `->`, and the type of
//! its result, where it has one.
//!
//! In reading order: `types`, `resolves` (of such types), `functions` (and the forms in which they are called).
#![tactic(auto)]

mod functions;
mod resolves;
mod types;

pub use functions::{FORMS, abi_of, function_of, named_function_of};
pub use resolves::{empty_interface, resolve_of, resolve_with};
pub use types::{id, kind, push_type};
