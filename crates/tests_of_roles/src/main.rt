//! The program `tests_of_roles`: canonical options, and the roles of core imports and exports,
//! tested on cases from files (`test_cases` says how they are read; each file says where its
//! expected answers are from).
//!
//! In reading order: `options`, `exports` and `imports` (look-ups in roles), and `matching` (what
//! may be given for an import). Types and functions of WIT are read by `wit_texts`.
#![tactic(auto)]

mod exports;
mod imports;
mod matching;
mod options;

use std::alloc::{AllocError, Global};
use std::process::ExitCode;
use test_cases::answer_files;

/// What the cases of a file are about.
#[derive(Clone, Copy)]
enum Topic {
    Options,
    Exports,
    Imports,
    Matching,
}

impl test_cases::Topic for Topic {
    fn of(name: &str) -> Option<Topic> {
        match name {
            "options.txt" => Some(Topic::Options),
            "exports.txt" => Some(Topic::Exports),
            "imports.txt" => Some(Topic::Imports),
            "matching.txt" => Some(Topic::Matching),
            _ => None,
        }
    }

    fn answer(self, alloc: Global, given: &str, input: &str) -> Result<String, AllocError> {
        match self {
            Topic::Options => options::answer(alloc, given, input),
            Topic::Exports => exports::answer(alloc, given, input),
            Topic::Imports => imports::answer(alloc, given, input),
            Topic::Matching => matching::answer(alloc, input),
        }
    }
}

fn main(rt: HostRuntime) -> ExitCode {
    answer_files::<Topic, HostRuntime>(&rt)
}
