//! Types of core functions, each once, by index.
//!
//! The type section of a generated module has no type twice: each function names its type by the index that
//! [`CoreTypes::intern`] returned for it. A look-up takes the time of a hash, whatever the number of types.
//! `specs/Interning.antt` says what the types are after a call, and which index each has.
#![tactic(auto)]

mod interning;

pub use interning::CoreTypes;
