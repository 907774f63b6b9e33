//! The program `tests_of_fitting`: adapters that get a stack, main modules that get a realloc,
//! imports of it that get another name, and active data, by cases.
//!
//! The input of a case is a call and the digits of a module (`test_cases` says how the files are
//! read). The expected answers were made by another program, after the binary format of core
//! modules.
//!
//! In reading order: `cases` (the calls of inputs).
#![tactic(auto)]

mod cases;

use cases::answer;
use std::alloc::{AllocError, Global};
use std::process::ExitCode;
use test_cases::{Topic, answer_files};

/// All files have calls.
#[derive(Clone, Copy)]
struct Calls;

impl Topic for Calls {
    fn of(_name: &str) -> Option<Calls> {
        Some(Calls)
    }

    fn answer(self, alloc: Global, _given: &str, input: &str) -> Result<String, AllocError> {
        answer(alloc, input)
    }
}

fn main(rt: HostRuntime) -> ExitCode {
    answer_files::<Calls, HostRuntime>(&rt)
}
