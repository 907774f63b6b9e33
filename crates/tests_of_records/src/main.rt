//! The program `tests_of_records`: what records say, and the resolve that is made of it, tested on
//! cases from files (`test_cases` says how they are read; each file says where its expected answers
//! are from). The cases of refused records, with their paths, are in the program `record_cases`.
//!
//! In reading order: `faults` (printed faults), then the topics: `types` (the nodes and sizes of
//! types, and functions), `worlds` (interfaces of whole records), `wits` (worlds by names),
//! `versions` (compatible interfaces), `resolving` (how many types a world has), `kinds` (the types
//! to which functions belong).
#![tactic(auto)]

mod faults;
mod kinds;
mod resolving;
mod types;
mod versions;
mod wits;
mod worlds;

use std::alloc::{AllocError, Global};
use std::process::ExitCode;
use test_cases::answer_files;

/// What the cases of a file are about.
#[derive(Clone, Copy)]
enum Topic {
    Types,
    Functions,
    Worlds,
    Versions,
    Resolving,
    Kinds,
}

impl test_cases::Topic for Topic {
    fn of(name: &str) -> Option<Topic> {
        match name {
            "types.txt" => Some(Topic::Types),
            "functions.txt" => Some(Topic::Functions),
            "worlds.txt" => Some(Topic::Worlds),
            "versions.txt" => Some(Topic::Versions),
            "resolving.txt" => Some(Topic::Resolving),
            "kinds.txt" => Some(Topic::Kinds),
            _ => None,
        }
    }

    fn answer(self, alloc: Global, given: &str, input: &str) -> Result<String, AllocError> {
        match self {
            Topic::Types => types::answer(alloc, given, input),
            Topic::Functions => types::function_answer(alloc, given, input),
            Topic::Worlds => worlds::answer(alloc, input),
            Topic::Versions => versions::answer(alloc, input),
            Topic::Resolving => resolving::answer(alloc, input),
            Topic::Kinds => kinds::answer(alloc, input),
        }
    }
}

fn main(rt: HostRuntime) -> ExitCode {
    answer_files::<Topic, HostRuntime>(&rt)
}
