//! The answers of a program to the cases of its files.

use crate::lines::Case;
use std::alloc::{AllocError, Global};
use std::env::Env;
use std::fs::Files;
use std::io::{Eprint, Print};
use std::process::ExitCode;
use std::{env, fs, io};

/// What the cases of a file are about.
pub trait Topic: Copy {
    /// The topic of a file, by its name.
    fn of(name: &str) -> Option<Self>;

    /// The answer to an input on the given values.
    fn answer(self, alloc: Global, given: &str, input: &str) -> Result<String, AllocError>;
}

/// How many answers are as expected, and how many aren't.
#[derive(Clone, Copy)]
struct Count {
    expected: u32,
    other: u32,
}

const NONE: Count = Count {
    expected: 0,
    other: 0,
};

/// Counts the answer to a case of a file, and prints it where it is another than the expected one.
fn take_answer<R: Print>(
    rt: &R,
    count: &mut Count,
    file: &str,
    case: Case<'_>,
    answer: &str,
) -> io::Result<()> {
    if answer == case.expected {
        count.expected = count.expected.saturating_add(1);
        Ok(())
    } else {
        count.other = count.other.saturating_add(1);
        println!(rt;
            "{file}: {}: {answer} (expected: {})",
            case.name, case.expected
        )
    }
}

/// Takes the answer to the case of a line.
fn take_line<T: Topic, R: Print + AllocGlobal>(
    rt: &R,
    count: &mut Count,
    topic: T,
    file: &str,
    given: &str,
    line: &str,
) -> io::Result<()> {
    let case = Case::of(line);
    let answer = topic.answer(rt.alloc(), given, case.input)?;
    take_answer(rt, count, file, case, answer.as_str())
}

/// Takes the answers to the cases of lines on the given values.
fn take_lines<T: Topic, R: Print + AllocGlobal>(
    rt: &R,
    count: &mut Count,
    topic: T,
    file: &str,
    given: &str,
    lines: &str,
) -> io::Result<()> {
    for line in lines.lines() {
        if !line.starts_with("#") {
            take_line(rt, count, topic, file, given, line)?;
        }
    }
    Ok(())
}

/// Takes the answers to the cases of a file: those before the first `given:`, and those after each.
fn take_groups<T: Topic, R: Print + AllocGlobal>(
    rt: &R,
    count: &mut Count,
    topic: T,
    file: &str,
    text: &str,
) -> io::Result<()> {
    for group in text.split("given: ") {
        let (given, lines) = group.split_once("\n").unwrap_or((group, ""));
        take_lines(rt, count, topic, file, given, lines)?;
    }
    Ok(())
}

/// Prints what the answers of a file come to.
fn print_sum<R: Print>(rt: &R, count: Count, file: &str) -> io::Result<()> {
    if count.other > 0 {
        println!(rt;
            "{file}: {} as expected, {} otherwise",
            count.expected, count.other
        )
    } else if count.expected > 0 {
        println!(rt; "{file}: as expected")
    } else {
        println!(rt; "{file}: no case")
    }
}

/// Answers the cases of the file of this name.
fn answer_file<T: Topic, R: Files + Print + AllocGlobal>(
    rt: &R,
    topic: T,
    name: &str,
) -> io::Result<()> {
    let text = fs::read_to_string(rt, name)?;
    let mut count = NONE;
    take_groups(rt, &mut count, topic, name, text.as_str())?;
    print_sum(rt, count, name)
}

/// Answers the cases of all files that the program's words name.
fn answer_all<T: Topic, R: Env + Files + Print + AllocGlobal>(rt: &R) -> io::Result<()> {
    for name in env::args(rt)?.skip(1) {
        match T::of(name.as_str()) {
            Some(topic) => answer_file(rt, topic, name.as_str())?,
            None => println!(rt; "{name}: no topic has this name")?,
        }
    }
    Ok(())
}

/// Answers the cases of the files that the program's words name, prints each answer that isn't the expected one, and
/// what those of each file come to, and reports a fault.
pub fn answer_files<T: Topic, R: Env + Files + Print + Eprint + AllocGlobal>(rt: &R) -> ExitCode {
    match answer_all::<T, R>(rt) {
        Ok(()) => ExitCode::from(0),
        Err(fault) => {
            let _ = eprintln!(rt; "error: {fault}");
            ExitCode::from(1)
        }
    }
}
