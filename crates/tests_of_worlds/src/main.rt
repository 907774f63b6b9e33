//! The program `tests_of_worlds`: worlds, and what follows from their parts, tested on cases from
//! files (`test_cases` says how they are read; each file says where its expected answers are from).
//!
//! In reading order: `worlds` (other modules of a world), `tables` (what follows from a world's
//! parts). Types and functions are read by `wit_texts`.
#![tactic(auto)]

mod tables;
mod worlds;

use std::alloc::{AllocError, Global};
use std::process::ExitCode;
use test_cases::answer_files;

/// What the cases of a file are about.
#[derive(Clone, Copy)]
enum Topic {
    Worlds,
    Tables,
}

impl test_cases::Topic for Topic {
    fn of(name: &str) -> Option<Topic> {
        match name {
            "worlds.txt" => Some(Topic::Worlds),
            "tables.txt" => Some(Topic::Tables),
            _ => None,
        }
    }

    fn answer(self, alloc: Global, _given: &str, input: &str) -> Result<String, AllocError> {
        match self {
            Topic::Worlds => worlds::answer(alloc, input),
            Topic::Tables => tables::answer(alloc, input),
        }
    }
}

fn main(rt: HostRuntime) -> ExitCode {
    answer_files::<Topic, HostRuntime>(&rt)
}
