//! The program `tests_of_wit`: what follows from WIT values alone, tested on cases from files
//! (`test_cases` says how they are read; each file says where its expected answers are from).
//!
//! In reading order: `signatures` (core signatures), `soundness` and `positions` (what is sound), `names`, `contents`,
//! `reached` (live types). Types and functions are read by `wit_texts`.
#![tactic(auto)]

mod contents;
mod names;
mod positions;
mod reached;
mod signatures;
mod soundness;

use std::alloc::{AllocError, Global};
use std::process::ExitCode;
use test_cases::answer_files;

/// What the cases of a file are about.
#[derive(Clone, Copy)]
enum Topic {
    Signatures,
    Soundness,
    Positions,
    Names,
    Contents,
    Reached,
}

impl test_cases::Topic for Topic {
    fn of(name: &str) -> Option<Topic> {
        match name {
            "signatures.txt" => Some(Topic::Signatures),
            "soundness.txt" => Some(Topic::Soundness),
            "positions.txt" => Some(Topic::Positions),
            "names.txt" => Some(Topic::Names),
            "contents.txt" => Some(Topic::Contents),
            "reached.txt" => Some(Topic::Reached),
            _ => None,
        }
    }

    fn answer(self, alloc: Global, given: &str, input: &str) -> Result<String, AllocError> {
        match self {
            Topic::Signatures => signatures::answer(alloc, input),
            Topic::Soundness => soundness::answer(alloc, input),
            Topic::Positions => positions::answer(alloc, input),
            Topic::Names => names::answer(alloc, given, input),
            Topic::Contents => contents::answer(alloc, given, input),
            Topic::Reached => reached::answer(alloc, given, input),
        }
    }
}

fn main(rt: HostRuntime) -> ExitCode {
    answer_files::<Topic, HostRuntime>(&rt)
}
