//! Modules through the encoder's calls, with the layer that the program uses.

use crate::modules::{COMPONENT, CUT, EMPTY, EMPTY_COMPONENT, MAIN, OPEN, PACKAGE};
use byte_encoding::next_count;
use comp_encoder::{ComponentEncoder, EncodeFault, Lower};
use plain_lower::{PlainFault, PlainLower};
use std::alloc::{AllocError, Global};
use std::fmt::Display;
use std::test::Fail;

/// The fault of a call, as it prints.
fn fault_text<T, F: Display>(
    alloc: Global,
    answer: &Result<T, EncodeFault<F>>,
) -> Result<String, AllocError> {
    match answer {
        Ok(_) => String::from_str(alloc, "no fault"),
        Err(fault) => format!(in alloc; "{fault}"),
    }
}

/// The result of `encode` after one module.
fn encoded<L: Lower + Drop>(
    alloc: Global,
    lower: L,
    bytes: &[u8],
) -> Result<Vec<u8>, EncodeFault<L::Fault>> {
    let mut encoder = ComponentEncoder::new(alloc, lower);
    encoder.module(bytes)?.encode()
}

/// The fault of a module that is given twice, and the result of `encode` after that.
fn given_twice<L: Lower + Drop>(
    alloc: Global,
    lower: L,
    bytes: &[u8],
) -> Result<(String, Vec<u8>), Fail> {
    let mut encoder = ComponentEncoder::new(alloc, lower);
    encoder.module(bytes)?;
    let again = fault_text(alloc, &encoder.add_module(Vec::from_slice(alloc, bytes)?))?;
    Ok((again, encoder.encode()?))
}

#[test]
fn a_module_becomes_its_component(rt: HostRuntime) -> Result<(), Fail> {
    let alloc = rt.alloc();
    assert_eq!(rt;
        encoded(alloc, PlainLower::new(), MAIN)?.as_slice(),
        COMPONENT
    );
    assert_eq!(rt;
        encoded(alloc, PlainLower::new(), EMPTY)?.as_slice(),
        EMPTY_COMPONENT
    );
    Ok(())
}

#[test]
fn a_refused_module_leaves_the_encoder_as_it_was(rt: HostRuntime) -> Result<(), Fail> {
    let (fault, component) = given_twice(rt.alloc(), PlainLower::new(), MAIN)?;
    assert_eq!(rt; fault.as_str(), "E3 Lower: P7 MergeConflict name=\"g\"");
    assert_eq!(rt; component.as_slice(), COMPONENT);
    Ok(())
}

#[test]
fn refusals_of_the_layer_are_reported(rt: HostRuntime) -> Result<(), Fail> {
    let alloc = rt.alloc();
    let reported = [
        (b"".as_slice(), "E3 Lower: P2 NotModule"),
        (CUT, "E3 Lower: P3 Section place=8"),
        (PACKAGE, "E3 Lower: P4 PackageBinary"),
        (OPEN, "E3 Lower: P5 Json"),
    ];
    for (bytes, fault) in reported {
        let text = fault_text(alloc, &encoded(alloc, PlainLower::new(), bytes))?;
        assert_eq!(rt; text.as_str(), fault);
    }
    Ok(())
}

/// The fault for a count of 2^32, which the binary format can't hold.
fn too_many() -> EncodeFault<PlainFault> {
    match next_count(u32::MAX) {
        Ok(_) => EncodeFault::NoModule,
        Err(excess) => EncodeFault::TooMany { excess },
    }
}

#[test]
fn a_count_that_is_too_large_is_reported(rt: HostRuntime) -> Result<(), Fail> {
    let text = format!(in rt.alloc(); "{}", too_many())?;
    assert_eq!(rt; text.as_str(), "E16 TooMany excess=4294967296");
    Ok(())
}
