//! Runs that print warnings of modules.

use crate::modules::{CUT, DIGIT_FIRST, EMPTY, MAIN, PACKAGE};
use crate::runs::{ends, run_on};
use crate::store::Files;
use std::test::Fail;

#[test]
fn warnings_are_printed(rt: HostRuntime) -> Result<(), Fail> {
    let alloc = rt.alloc();
    let digit = "L1 NotKebab \"main\" \"imports\" \"1f\"\n";
    let runs = [
        (MAIN, 0, ""),
        (DIGIT_FIRST, 1, digit),
        (EMPTY, 1, "L10 NoRecord \"main\"\n"),
    ];
    for (main, status, out) in runs {
        assert!(rt; ends(alloc, &["lint", "main.wasm"], main, status, out, "")?);
    }
    Ok(())
}

#[test]
fn warnings_of_adapters_are_printed_behind_those_of_main(rt: HostRuntime) -> Result<(), Fail> {
    let alloc = rt.alloc();
    let mut store = Files::new(alloc, "main.wasm", DIGIT_FIRST)?;
    store.add("a.wasm", EMPTY)?;
    let words = ["lint", "main.wasm", "--adapt", "a=a.wasm"];
    let answer = run_on(alloc, &words, &mut store)?;
    assert_eq!(rt; answer.status, 1);
    assert_eq!(rt;
        answer.out.as_slice(),
        b"L1 NotKebab \"main\" \"imports\" \"1f\"\nL10 NoRecord \"a\"\n".as_slice()
    );
    assert!(rt; answer.err.is_empty() && store.log.len() == 2);
    Ok(())
}

#[test]
fn modules_that_can_not_be_read_have_no_warnings(rt: HostRuntime) -> Result<(), Fail> {
    let alloc = rt.alloc();
    let runs = [
        (
            b"".as_slice(),
            "main.wasm",
            "error: E3 Lower: P2 NotModule\n",
        ),
        (CUT, "main.wasm", "error: E3 Lower: P3 Section place=8\n"),
        (
            PACKAGE,
            "main.wasm",
            "error: E3 Lower: P4 PackageBinary section=0 reason=Encoding\n",
        ),
        (MAIN, "b.wasm", "error: read \"b.wasm\"\n"),
    ];
    for (main, file, err) in runs {
        assert!(rt; ends(alloc, &["lint", file], main, 1, "", err)?);
    }
    Ok(())
}
