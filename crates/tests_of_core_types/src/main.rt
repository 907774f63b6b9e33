//! The program `tests_of_core_types`: what a core module offers to others, and the core types that
//! roles require, tested on cases from files (`test_cases` says how they are read; each file says
//! where its expected answers are from).
//!
//! In reading order: `offers` (what a core module offers, and sizes), and the core types of roles:
//! `made` (the world they are in), `imports`, `exports` and `roles`.
#![tactic(auto)]

mod exports;
mod imports;
mod made;
mod offers;
mod roles;

use std::alloc::{AllocError, Global};
use std::process::ExitCode;
use test_cases::answer_files;

/// What the cases of a file are about.
#[derive(Clone, Copy)]
enum Topic {
    Offers,
    Sizes,
    Roles,
}

impl test_cases::Topic for Topic {
    fn of(name: &str) -> Option<Topic> {
        match name {
            "offers.txt" => Some(Topic::Offers),
            "sizes.txt" => Some(Topic::Sizes),
            "roles.txt" => Some(Topic::Roles),
            _ => None,
        }
    }

    fn answer(self, alloc: Global, given: &str, input: &str) -> Result<String, AllocError> {
        match self {
            Topic::Offers => offers::answer(alloc, input),
            Topic::Sizes => offers::size_answer(alloc, input),
            Topic::Roles => roles::answer(alloc, input),
        }
    }
}

fn main(rt: HostRuntime) -> ExitCode {
    answer_files::<Topic, HostRuntime>(&rt)
}
