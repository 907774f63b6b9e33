//! Runs with adapters: which files are read, in which order, and what a run ends with.

use crate::modules::{CUT, DATA, EMPTY, MAIN};
use crate::store::Files;
use command_line::{Event, run_with};
use plain_lower::PlainLower;
use std::alloc::{AllocError, Global};
use std::test::Fail;

/// The line for arguments that are not those of the program.
const USAGE: &str =
    "usage: component_new new OUT MAIN [options] | lint MAIN [options] | record OUT MODULE | defs FILE | links FILE | explain CODE\n";

/// The store of these runs.
fn store_of(alloc: Global) -> Result<Files, AllocError> {
    let mut store = Files::new(alloc, "main.wasm", MAIN)?;
    let more = [
        ("a.wasm", EMPTY),
        ("b.wasm", EMPTY),
        ("b=c", EMPTY),
        ("cut.wasm", CUT),
        ("data.wasm", DATA),
        ("nothing.wasm", b"".as_slice()),
    ];
    for (name, bytes) in more {
        store.add(name, bytes)?;
    }
    Ok(store)
}

/// An event as a text: the name of a file that was read, or of one that was not, behind a `!`, or `put`.
fn event_text(alloc: Global, event: &Event) -> Result<String, AllocError> {
    match event {
        Event::Read { name, .. } => format!(in alloc; "{}", name.as_str()),
        Event::NotRead { name } => format!(in alloc; "!{}", name.as_str()),
        _ => String::from_str(alloc, "put"),
    }
}

/// The events, in order, with spaces between them.
fn log_text(alloc: Global, log: &[Event]) -> Result<String, AllocError> {
    let mut text = String::new(alloc);
    for event in log {
        let word = event_text(alloc, event)?;
        if !text.is_empty() {
            text.push(' ')?;
        }
        text.push_str(word.as_str())?;
    }
    Ok(text)
}

/// `new out.wasm`, and these words.
fn words_of(alloc: Global, words: &[&str]) -> Result<Vec<String>, AllocError> {
    let mut all = Vec::new(alloc);
    all.push(String::from_str(alloc, "new")?)?;
    all.push(String::from_str(alloc, "out.wasm")?)?;
    for word in words {
        all.push(String::from_str(alloc, word)?)?;
    }
    Ok(all)
}

/// The status of a run with these words behind OUT, its events, and its line on standard error.
fn run(alloc: Global, words: &[&str]) -> Result<(u8, String, Vec<u8>), AllocError> {
    let words = words_of(alloc, words)?;
    let mut store = store_of(alloc)?;
    let mut out = Vec::new(alloc);
    let mut err = Vec::new(alloc);
    let status = run_with(
        alloc,
        PlainLower::new(),
        &words,
        &mut store,
        &mut out,
        &mut err,
    );
    Ok((status, log_text(alloc, store.log.as_slice())?, err))
}

/// Whether a run ends so: with this status, these events and this line.
fn ends(alloc: Global, words: &[&str], status: u8, log: &str, line: &str) -> Result<bool, Fail> {
    let (ended, events, err) = run(alloc, words)?;
    Ok(ended == status && events.as_str() == log && err.as_slice() == line.as_bytes())
}

#[test]
fn adapters_are_read_in_order(rt: HostRuntime) -> Result<(), Fail> {
    let alloc = rt.alloc();
    let runs: [(&[&str], &str); 8] = [
        (
            &["main.wasm", "--adapt", "a=a.wasm", "--adapt", "b=b.wasm"],
            "main.wasm a.wasm b.wasm put",
        ),
        (
            &["main.wasm", "--adapt", "b=b.wasm", "--adapt", "a=a.wasm"],
            "main.wasm b.wasm a.wasm put",
        ),
        (
            &[
                "main.wasm",
                "--validate",
                "--adapt",
                "a=a.wasm",
                "--no-names",
            ],
            "main.wasm a.wasm put",
        ),
        (&["main.wasm", "--adapt", "a=b=c"], "main.wasm b=c put"),
        (&["main.wasm", "--adapt", "=a.wasm"], "main.wasm a.wasm put"),
        (
            &["main.wasm", "--adapt", "--validate=a.wasm"],
            "main.wasm a.wasm put",
        ),
        (
            &["main.wasm", "--adapt", "main=a.wasm", "--adapt", "é=a.wasm"],
            "main.wasm a.wasm a.wasm put",
        ),
        (
            &[
                "main.wasm",
                "--adapt",
                "a=a.wasm",
                "--adapt",
                "a=b.wasm",
                "--adapt",
                "c=b.wasm",
            ],
            "main.wasm a.wasm b.wasm b.wasm put",
        ),
    ];
    for (words, log) in runs {
        assert!(rt; ends(alloc, words, 0, log, "")?);
    }
    Ok(())
}

#[test]
fn all_files_are_read_before_a_module_is_refused(rt: HostRuntime) -> Result<(), Fail> {
    let alloc = rt.alloc();
    let not_read = "error: read \"none.wasm\"\n";
    let no_module = "error: E3 Lower: P2 NotModule\n";
    let cut = "error: E3 Lower: P3 Section place=8\n";
    let conflict = "error: E3 Lower: P7 MergeConflict name=\"g\"\n";
    let data = "error: F15 ActiveData adapter=\"d\"\n";
    let runs: [(&[&str], &str, &str); 9] = [
        (
            &[
                "main.wasm",
                "--adapt",
                "a=a.wasm",
                "--adapt",
                "b=none.wasm",
                "--adapt",
                "c=b.wasm",
            ],
            "main.wasm a.wasm !none.wasm",
            not_read,
        ),
        (
            &["none.wasm", "--adapt", "a=nothing.wasm"],
            "!none.wasm",
            not_read,
        ),
        (
            &["main.wasm", "--adapt", "a="],
            "main.wasm !",
            "error: read \"\"\n",
        ),
        (
            &[
                "main.wasm",
                "--adapt",
                "a=nothing.wasm",
                "--adapt",
                "b=b.wasm",
            ],
            "main.wasm nothing.wasm b.wasm",
            no_module,
        ),
        (
            &[
                "main.wasm",
                "--adapt",
                "a=cut.wasm",
                "--adapt",
                "b=none.wasm",
            ],
            "main.wasm cut.wasm !none.wasm",
            not_read,
        ),
        (
            &["cut.wasm", "--adapt", "a=nothing.wasm"],
            "cut.wasm nothing.wasm",
            cut,
        ),
        (
            &["nothing.wasm", "--adapt", "a=cut.wasm"],
            "nothing.wasm cut.wasm",
            no_module,
        ),
        (
            &[
                "nothing.wasm",
                "--adapt",
                "a=a.wasm",
                "--adapt",
                "d=data.wasm",
            ],
            "nothing.wasm a.wasm data.wasm",
            data,
        ),
        (
            &[
                "main.wasm",
                "--adapt",
                "a=main.wasm",
                "--adapt",
                "b=nothing.wasm",
            ],
            "main.wasm main.wasm nothing.wasm",
            conflict,
        ),
    ];
    for (words, log, line) in runs {
        assert!(rt; ends(alloc, words, 1, log, line)?);
    }
    Ok(())
}

#[test]
fn wrong_adapters_are_reported_before_anything_is_read(rt: HostRuntime) -> Result<(), Fail> {
    let alloc = rt.alloc();
    let wrong: [&[&str]; 10] = [
        &["main.wasm", "--adapt"],
        &["main.wasm", "--validate", "--adapt"],
        &["main.wasm", "--adapt", "a"],
        &["main.wasm", "--adapt", "--validate"],
        &["main.wasm", "--adapt", "a=a.wasm", "--adapt", "b.wasm"],
        &["main.wasm", "--adapt", "--adapt", "a=a.wasm"],
        &["main.wasm", "--adapt=a=a.wasm"],
        &["main.wasm", "--adapt", "a=a.wasm", "b=b.wasm"],
        &[
            "main.wasm",
            "--validate",
            "--adapt",
            "a=a.wasm",
            "--validate",
        ],
        &["--adapt", "a=a.wasm", "main.wasm"],
    ];
    for words in wrong {
        assert!(rt; ends(alloc, words, 2, "", USAGE)?);
    }
    Ok(())
}
