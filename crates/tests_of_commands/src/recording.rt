//! Runs that put a module with its record.

use crate::modules::{
    COMPONENT, CUT, EMPTY, EMPTY_COMPONENT, MAIN, NAMED_COMPONENT, OPEN, PACKAGE, SHIMMED,
};
use crate::runs::{ends, puts, run_on};
use crate::store::Files;
use command_line::{Event, StoreFault};
use comp_lists::Bytes;
use std::alloc::{AllocError, Global};
use std::test::Fail;

const RECORD: [&str; 3] = ["record", "out.wasm", "main.wasm"];

/// The bytes that a store was given last, after one file was read.
fn put_in(alloc: Global, store: &Files) -> Result<Option<Bytes>, AllocError> {
    match store.log.as_slice() {
        [Event::Read { .. }, Event::Put { bytes, .. }] => Ok(Some(bytes.clone(alloc)?)),
        _ => Ok(None),
    }
}

/// The module with its record that a run puts, where it says nothing.
fn recorded(alloc: Global, main: &[u8]) -> Result<Bytes, Fail> {
    let mut store = Files::new(alloc, "main.wasm", main)?;
    let answer = run_on(alloc, &RECORD, &mut store)?;
    if answer.status != 0 || !answer.out.is_empty() || !answer.err.is_empty() {
        return Err(Fail::from("the run failed"));
    }
    match put_in(alloc, &store)? {
        Some(bytes) => Ok(bytes),
        None => Err(Fail::from("nothing was put")),
    }
}

#[test]
fn a_module_with_its_record_has_the_same_component(rt: HostRuntime) -> Result<(), Fail> {
    let alloc = rt.alloc();
    let words = ["new", "out.wasm", "main.wasm"];
    for (main, component) in [
        (EMPTY, EMPTY_COMPONENT),
        (MAIN, COMPONENT),
        (SHIMMED, NAMED_COMPONENT),
    ] {
        let module = recorded(alloc, main)?;
        assert!(rt; puts(alloc, &words, module.as_slice(), component)?);
    }
    Ok(())
}

#[test]
fn refusals_of_records_are_reported(rt: HostRuntime) -> Result<(), Fail> {
    let alloc = rt.alloc();
    let lines = [
        (b"".as_slice(), "error: E3 Lower: P2 NotModule\n"),
        (CUT, "error: E3 Lower: P3 Section place=8\n"),
        (
            PACKAGE,
            "error: E3 Lower: P4 PackageBinary section=0 reason=Encoding\n",
        ),
        (OPEN, "error: E3 Lower: P5 Json\n"),
    ];
    for (main, line) in lines {
        assert!(rt; ends(alloc, &RECORD, main, 1, "", line)?);
    }
    let missing = ["record", "out.wasm", "b.wasm"];
    assert!(rt; ends(alloc, &missing, MAIN, 1, "", "error: read \"b.wasm\"\n")?);
    Ok(())
}

#[test]
fn a_refusal_of_the_store_is_reported(rt: HostRuntime) -> Result<(), Fail> {
    let alloc = rt.alloc();
    let reported = [
        (0, StoreFault::Device, "error: read \"main.wasm\"\n"),
        (1, StoreFault::Device, "error: write \"out.wasm\"\n"),
        (0, StoreFault::Memory, "error: E1 Memory\n"),
        (1, StoreFault::Memory, "error: E1 Memory\n"),
    ];
    for (calls, fault, line) in reported {
        let mut store = Files::new(alloc, "main.wasm", MAIN)?;
        store.refusal = Some((calls, fault));
        let answer = run_on(alloc, &RECORD, &mut store)?;
        assert_eq!(rt; answer.status, 1);
        assert_eq!(rt; answer.err.as_slice(), line.as_bytes());
    }
    Ok(())
}
