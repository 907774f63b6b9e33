//! The program `tests_of_modules`: core modules, how they are read, written and generated, by cases.
//!
//! The input of a case is a call with its arguments (`test_cases` says how the files are read). The
//! expected answers were worked out by hand from the binary format of core modules.
//!
//! Modules that are read are in the data. What is written has no bytes before: it is made in the code, and the
//! input is its name.
//!
//! In reading order: `cases` (the calls of inputs), `answers` (bytes and faults as texts),
//! `reading` (modules that are read and stripped), `bodies` (generated bodies), `sections` (sections that
//! are written), `modules` (new modules and sections, and laws).
#![tactic(auto)]

mod answers;
mod bodies;
mod cases;
mod modules;
mod reading;
mod sections;

use cases::answer;
use std::alloc::{AllocError, Global};
use std::process::ExitCode;
use test_cases::{Topic, answer_files};

/// All files have calls.
#[derive(Clone, Copy)]
struct Calls;

impl Topic for Calls {
    fn of(_name: &str) -> Option<Calls> {
        Some(Calls)
    }

    fn answer(self, alloc: Global, _given: &str, input: &str) -> Result<String, AllocError> {
        answer(alloc, input)
    }
}

fn main(rt: HostRuntime) -> ExitCode {
    answer_files::<Calls, HostRuntime>(&rt)
}
