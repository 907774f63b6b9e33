//! Files of cases, for test programs: each line is a case, `NAME: EXPECTED <- INPUT`.
//!
//! The words of a program are the names of its files, each on one topic. A line `given:` has the
//! values that the inputs after it are about, and a line that begins with `#` is a comment. A
//! program prints each answer that isn't the expected one, after the names of its file and its
//! case, and of each file whether all are as expected: so an expected answer stands in the data
//! alone. A fault of the system, as memory that is refused, is reported on standard error, and the
//! status is 1.
//!
//! The expected answers aren't the program's: each file says where they are from.
//!
//! In reading order: `lines` (cases, and the words of their inputs), `programs` (the answers of a
//! program to its files).
#![tactic(auto)]

mod lines;
mod programs;

pub use lines::{Case, bytes_of, number, word_and_rest};
pub use programs::{Topic, answer_files};
