//! The program `tests_of_packages`: what WIT packages in binary form say, tested on cases from
//! files (`test_cases` says how they are read; each file says where its expected answers are from).
//!
//! In reading order: `faults` (why a package is refused), `worlds` (what one says, as text).
#![tactic(auto)]

mod faults;
mod worlds;

use std::alloc::{AllocError, Global};
use std::process::ExitCode;
use test_cases::answer_files;

/// What the cases of a file are about.
#[derive(Clone, Copy)]
enum Topic {
    Worlds,
    Faults,
}

impl test_cases::Topic for Topic {
    fn of(name: &str) -> Option<Topic> {
        match name {
            "worlds.txt" => Some(Topic::Worlds),
            "faults.txt" => Some(Topic::Faults),
            _ => None,
        }
    }

    fn answer(self, alloc: Global, _given: &str, input: &str) -> Result<String, AllocError> {
        match self {
            Topic::Worlds => worlds::answer(alloc, input),
            Topic::Faults => worlds::answer(alloc, input),
        }
    }
}

fn main(rt: HostRuntime) -> ExitCode {
    answer_files::<Topic, HostRuntime>(&rt)
}
