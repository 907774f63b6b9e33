//! The program `generated_modules`: it prints core modules of the kinds that are generated, one line each,
//! the name and the bytes in hexadecimal digits.
//!
//! They are the modules of `core_runs`' worked examples, made by the writers. The expected output is
//! in the file `stdout` next to `src`; `tests/run_modules.sh` takes the modules from there, and runs them
//! in an engine.
//!
//! In reading order: `sections` (sections of a few entries), `shims` (shims and their fixups), `others`
//! (wrappers, start functions, a cell, a memory), `hex` (how bytes are shown).
#![tactic(auto)]

mod hex;
mod others;
mod sections;
mod shims;

use byte_encoding::BuildFault;
use hex::Hex;
use std::alloc::Global;
use std::io;
use std::process::ExitCode;

/// Why the program stops: a module could not be made, or a line could not be printed.
#[derive(Clone, Copy)]
enum Failure {
    Making,
    Output,
}

/// Prints a line.
fn print_module(
    rt: &HostRuntime,
    name: &str,
    bytes: Result<Vec<u8>, BuildFault>,
) -> Result<(), Failure> {
    let Ok(bytes) = bytes else {
        return Err(Failure::Making);
    };
    print(rt, name, bytes.as_slice()).map_err(|_fault| Failure::Output)
}

fn print(rt: &HostRuntime, name: &str, bytes: &[u8]) -> io::Result<()> {
    println!(rt; "{name} {}", Hex::new(bytes))?;
    Ok(())
}

/// Shims in both forms, and what fills them.
fn print_shims(rt: &HostRuntime, alloc: Global) -> Result<(), Failure> {
    print_module(rt, "table_shim", shims::table_shims(alloc, 1))?;
    print_module(rt, "table_fill", shims::table_fills(alloc, 1))?;
    print_module(rt, "ref_shim", shims::ref_shims(alloc, 1))?;
    print_module(rt, "ref_fill", shims::ref_fills(alloc, 1))
}

/// The same for twelve shims.
fn print_twelve(rt: &HostRuntime, alloc: Global) -> Result<(), Failure> {
    print_module(rt, "twelve_table_shims", shims::table_shims(alloc, 12))?;
    print_module(rt, "twelve_table_fills", shims::table_fills(alloc, 12))?;
    print_module(rt, "twelve_ref_shims", shims::ref_shims(alloc, 12))?;
    print_module(rt, "twelve_ref_fills", shims::ref_fills(alloc, 12))
}

/// Wrappers, and a function that is only imported.
fn print_wrappers(rt: &HostRuntime, alloc: Global) -> Result<(), Failure> {
    print_module(rt, "code_wrappers", others::code_wrappers(alloc))?;
    print_module(rt, "sync_wrappers", others::sync_wrappers(alloc))?;
    print_module(rt, "one_import", others::one_import(alloc))
}

/// Start functions.
fn print_starts(rt: &HostRuntime, alloc: Global) -> Result<(), Failure> {
    print_module(rt, "imported_start", others::imported_start(alloc))?;
    print_module(rt, "hooks_around", others::hooks_around(alloc))?;
    print_module(rt, "data_and_call", others::data_and_call(alloc))?;
    print_module(rt, "address", others::address(alloc))
}

fn run(rt: &HostRuntime) -> Result<(), Failure> {
    let alloc = rt.alloc();
    print_shims(rt, alloc)?;
    print_twelve(rt, alloc)?;
    print_wrappers(rt, alloc)?;
    print_starts(rt, alloc)?;
    print_module(rt, "memory", others::memory(alloc))?;
    print_module(rt, "cell", others::cell(alloc))
}

fn main(rt: HostRuntime) -> ExitCode {
    match run(&rt) {
        Ok(()) => ExitCode::from(0),
        Err(Failure::Making) => ExitCode::from(1),
        Err(Failure::Output) => ExitCode::from(2),
    }
}
