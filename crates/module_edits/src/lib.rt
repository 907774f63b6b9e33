//! A core module with one more function, its last, which each exported function calls before all
//! that it does; and a core module whose imports of one name have another one.
//!
//! Of the first, the sections of types, functions and code, and that of exports where the function
//! is exported, get one more entry at their end, so that no index of the module changes its
//! meaning. An exported function has a call of the new one in front of its instructions, behind its
//! locals; one that is imported has no body, and stays as it is. All else is kept, byte for byte
//! (`specs/Additions.antt`); the counts and sizes of what is changed are written the shortest way.
//!
//! In reading order: `additions` (the function), `entries` (lists with one more entry), `code` (bodies),
//! `sections`, `laws` (what holds of all modules that get one); `renaming` (of imports).
#![tactic(auto)]

mod additions;
mod code;
mod entries;
mod laws;
mod renaming;
mod sections;

pub use additions::NewFunction;
pub use laws::sections_are_edited;
pub use renaming::{ImportName, put_with_import_name};
pub use sections::put_with_function;
