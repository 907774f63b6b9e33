//! The program `tests_of_names`: what names of core imports and core exports mean in worlds, tested on cases from files
//! (`test_cases` says how they are read; each file says where its expected answers are from).
//!
//! In reading order: `worlds` (worlds, read), `roles` (printed roles), `names` (names in a world).
#![tactic(auto)]

mod names;
mod roles;
mod worlds;

use std::alloc::{AllocError, Global};
use std::process::ExitCode;
use test_cases::answer_files;

/// What the cases of a file are about.
#[derive(Clone, Copy)]
enum Topic {
    Names,
}

impl test_cases::Topic for Topic {
    fn of(name: &str) -> Option<Topic> {
        match name {
            "older.txt" => Some(Topic::Names),
            "standard.txt" => Some(Topic::Names),
            "refused.txt" => Some(Topic::Names),
            _ => None,
        }
    }

    fn answer(self, alloc: Global, given: &str, input: &str) -> Result<String, AllocError> {
        match self {
            Topic::Names => names::answer(alloc, given, input),
        }
    }
}

fn main(rt: HostRuntime) -> ExitCode {
    answer_files::<Topic, HostRuntime>(&rt)
}
