//! The program `tests_of_bytes`: components as bytes, how they are built, read, checked and shown, by cases.
//!
//! The input of a case is a call with its arguments (`test_cases` says how the files are read). The
//! expected answers were worked out by hand from the binary format of components.
//!
//! In reading order: `cases` (the calls of inputs), `components` (components by their bytes: how
//! they are read, checked and shown), `building` (components that are built again, and measured),
//! `values` (counts, spaces and the texts of faults).
#![tactic(auto)]

mod building;
mod cases;
mod components;
mod values;

use cases::answer;
use std::alloc::{AllocError, Global};
use std::process::ExitCode;
use test_cases::{Topic, answer_files};

/// All files have calls.
#[derive(Clone, Copy)]
struct Calls;

impl Topic for Calls {
    fn of(_name: &str) -> Option<Calls> {
        Some(Calls)
    }

    fn answer(self, alloc: Global, _given: &str, input: &str) -> Result<String, AllocError> {
        answer(alloc, input)
    }
}

fn main(rt: HostRuntime) -> ExitCode {
    answer_files::<Calls, HostRuntime>(&rt)
}
