//! The program `reader_mutations`: it reads components that were changed, each in turn, and counts the
//! results.
//!
//! First come all strings of at most two bytes after a component's preamble. Then, for each FILE of its
//! arguments, all prefixes of the file, and all files that differ from it in one byte. A line for each group
//! says how many were read and how many refused. What is read, the writer writes back to the same bytes:
//! in [`reading::read_back`] any other case is proved not to occur.
//!
//! In reading order: `reading` (the result of one reading), `counting` (the counts of results), `changing` (the
//! changed bytes).
#![tactic(auto)]

mod changing;
mod counting;
mod reading;

use changing::{changes, cuts, tails};
use std::process::ExitCode;
use std::{env, fs, io};

fn run(rt: &HostRuntime) -> io::Result<()> {
    let alloc = rt.alloc();
    println!(rt; "up to two bytes: {}", tails(alloc)?)?;
    for name in env::args(rt)?.skip(1) {
        let mut bytes = fs::read(rt, name.as_str())?;
        println!(rt; "{name}, cut: {}", cuts(alloc, &bytes)?)?;
        println!(rt; "{name}, one byte changed: {}", changes(alloc, &mut bytes)?)?;
    }
    Ok(())
}

fn main(rt: HostRuntime) -> ExitCode {
    match run(&rt) {
        Ok(()) => ExitCode::from(0),
        Err(_) => ExitCode::from(1),
    }
}
