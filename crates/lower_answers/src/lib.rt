//! The results of a lower layer for records and modules, as text: for tests of any such layer.
//!
//! In reading order: `answers` (the results, as text), `cases` (the inputs).
#![tactic(auto)]

mod answers;
mod cases;

pub use answers::{module_answer, modules_answer, records_answer};
pub use cases::{Kind, answer_of};
