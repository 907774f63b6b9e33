//! The program `tests_of_shims`: which shims worlds need, tested on cases from a file (`test_cases`
//! says how it is read; the file says where its expected answers are from).
//!
//! In reading order: `modules` (modules that are described by words), `worlds` (the worlds of
//! these), `returns` (whether shims can be planned for a world), `shims` (the questions).
#![tactic(auto)]

mod modules;
mod returns;
mod shims;
mod worlds;

use std::alloc::{AllocError, Global};
use std::process::ExitCode;
use test_cases::answer_files;

/// What the cases of a file are about.
#[derive(Clone, Copy)]
enum Topic {
    Shims,
}

impl test_cases::Topic for Topic {
    fn of(name: &str) -> Option<Topic> {
        match name {
            "shims.txt" => Some(Topic::Shims),
            _ => None,
        }
    }

    fn answer(self, alloc: Global, _given: &str, input: &str) -> Result<String, AllocError> {
        match self {
            Topic::Shims => shims::answer(alloc, input),
        }
    }
}

fn main(rt: HostRuntime) -> ExitCode {
    answer_files::<Topic, HostRuntime>(&rt)
}
