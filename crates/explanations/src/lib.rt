//! What the codes of failures mean, and what to do.
//!
//! Upward this crate promises one call, [`explanation`]: for each code that the program prints it
//! answers the text of that code, and for all other words nothing (`specs/Codes.antt`). The texts
//! are the rows of docs/ERRORS.md.
//!
//! In reading order: `texts`, `codes`.
#![tactic(auto)]

mod codes;
mod texts;

pub use codes::explanation;
