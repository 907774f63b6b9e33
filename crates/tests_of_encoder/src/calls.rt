//! Encoders over the stub: their results, and how their faults print.

use crate::layers::{StubFault, StubLower};
use comp_encoder::{
    ComponentEncoder, EncodeFault, Instance, Item, LibraryArgument, LibraryInfo, MainOrAdapter,
};
use comp_lists::{Seq, Text};
use standard_kinds::ExportKind;
use std::alloc::{AllocError, Global};

const CORE: &[u8] = b"\0asm\x01\0\0\0";

/// A core module with an empty custom section.
const LONGER: &[u8] = b"\0asm\x01\0\0\0\0\x01\0";

/// The fault of a call, as it prints.
fn fault_text<T>(
    alloc: Global,
    answer: &Result<T, EncodeFault<StubFault>>,
) -> Result<String, AllocError> {
    match answer {
        Ok(_) => String::from_str(alloc, "no fault"),
        Err(EncodeFault::Memory) => Err(AllocError),
        Err(fault) => format!(in alloc; "{fault}"),
    }
}

/// The result of `encode`, as text, after `module` took these bytes.
fn after(alloc: Global, lower: StubLower, bytes: &[u8]) -> Result<String, AllocError> {
    let mut encoder = ComponentEncoder::new(alloc, lower);
    let answer = match encoder.module(bytes) {
        Ok(encoder) => encoder.encode(),
        Err(fault) => Err(fault),
    };
    fault_text(alloc, &answer)
}

#[test]
fn without_a_module_there_is_no_component(rt: HostRuntime) {
    let alloc = rt.alloc();
    let encoder = ComponentEncoder::new(alloc, StubLower::NoEncoding);
    let reported = fault_text(alloc, &encoder.encode()).expect(&rt, "memory");
    assert_eq!(rt; reported.as_str(), "E2 NoModule");
}

#[test]
fn the_refusals_of_encode_are_reported(rt: HostRuntime) {
    let alloc = rt.alloc();
    let reported = [
        (StubLower::NoEncoding, b"".as_slice(), "E2 NoModule"),
        (StubLower::NoEncoding, b"\0asm", "E3 Lower: S2 Refused"),
        (
            StubLower::NoEncoding,
            CORE,
            "E9 NoEncoding place=\"$root::f\"",
        ),
        (StubLower::Refusing, CORE, "E3 Lower: S2 Refused"),
        (StubLower::Listing, b"\0asm", "E3 Lower: S2 Refused"),
        (
            StubLower::Listing,
            CORE,
            "E3 Lower: S3 Gathered adapters=\"\"",
        ),
    ];
    for (lower, bytes, fault) in reported {
        let answer = after(alloc, lower, bytes).expect(&rt, "memory");
        assert_eq!(rt; answer.as_str(), fault);
    }
}

/// A call that gives the encoder an adapter, or a library with arguments. Each argument is a word:
/// `main`, `items of` an adapter, or an adapter's name.
#[derive(Clone, Copy)]
struct Call {
    name: &'static str,
    bytes: &'static [u8],
    arguments: Option<&'static [&'static str]>,
}

/// The module of a name: main or an adapter.
fn module_of(alloc: Global, name: &str) -> Result<MainOrAdapter, AllocError> {
    if name == "main" {
        return Ok(MainOrAdapter::Main);
    }
    Ok(MainOrAdapter::Adapter(Text::from_str(alloc, name)?))
}

/// The memory of a module.
fn memory_of(alloc: Global, name: &str) -> Result<Item, AllocError> {
    let which = module_of(alloc, name)?;
    let alias = Text::from_str(alloc, "memory")?;
    let name = Text::from_str(alloc, "memory")?;
    Ok(Item {
        alias,
        kind: ExportKind::Memory,
        which,
        name,
    })
}

/// Two items: the memory of main, and that of a module.
fn items_of(alloc: Global, name: &str) -> Result<Instance, AllocError> {
    let mut items = Seq::new(alloc);
    items.push(memory_of(alloc, "main")?)?;
    items.push(memory_of(alloc, name)?)?;
    Ok(Instance::Items(items))
}

fn instance_of(alloc: Global, word: &str) -> Result<Instance, AllocError> {
    match word.strip_prefix("items of ") {
        Some(name) => items_of(alloc, name),
        None => Ok(Instance::MainOrAdapter(module_of(alloc, word)?)),
    }
}

/// The arguments of a library, all of one name.
fn info_of(alloc: Global, words: &[&str]) -> Result<LibraryInfo, AllocError> {
    let mut arguments = Seq::new(alloc);
    for word in words {
        let instance = instance_of(alloc, word)?;
        let name = Text::from_str(alloc, "env")?;
        arguments.push(LibraryArgument { name, instance })?;
    }
    Ok(LibraryInfo { arguments })
}

/// Makes a call.
fn make(
    alloc: Global,
    encoder: &mut ComponentEncoder<StubLower>,
    call: Call,
) -> Result<(), EncodeFault<StubFault>> {
    match call.arguments {
        None => encoder.adapter(call.name, call.bytes)?,
        Some(words) => encoder.library(call.name, call.bytes, info_of(alloc, words)?)?,
    };
    Ok(())
}

/// The result of each call, and then that of `encode`, which names the adapters that were gathered.
fn after_calls(alloc: Global, calls: &[Call]) -> Result<String, AllocError> {
    let mut encoder = ComponentEncoder::new(alloc, StubLower::Listing);
    let mut text = fault_text(alloc, &encoder.add_module(Vec::from_slice(alloc, CORE)?))?;
    for call in calls {
        text.push_str("; ")?;
        text.push_str(&fault_text(alloc, &make(alloc, &mut encoder, *call))?)?;
    }
    text.push_str("; ")?;
    text.push_str(&fault_text(alloc, &encoder.encode())?)?;
    Ok(text)
}

const A: Call = Call {
    name: "a",
    bytes: CORE,
    arguments: None,
};

const B: Call = Call {
    name: "b",
    bytes: LONGER,
    arguments: None,
};

/// A library `l` with these arguments.
fn library(arguments: &'static [&'static str]) -> Call {
    Call {
        name: "l",
        bytes: CORE,
        arguments: Some(arguments),
    }
}

#[test]
fn adapters_are_gathered_in_order(rt: HostRuntime) {
    let answers = after_calls(rt.alloc(), &[B, A]).expect(&rt, "memory");
    assert_eq!(rt;
        answers.as_str(),
        "no fault; no fault; no fault; E3 Lower: S3 Gathered adapters=\"b=11 a=8\""
    );
}

#[test]
fn an_adapter_of_a_name_that_is_there_takes_its_place(rt: HostRuntime) {
    let again = Call {
        name: "a",
        bytes: LONGER,
        arguments: Some(&["b"]),
    };
    let answers = after_calls(rt.alloc(), &[A, B, again]).expect(&rt, "memory");
    assert_eq!(rt;
        answers.as_str(),
        "no fault; no fault; no fault; no fault; E3 Lower: S3 Gathered adapters=\"a=11+1 b=11\""
    );
}

#[test]
fn a_refused_adapter_leaves_the_encoder_as_it_was(rt: HostRuntime) {
    let refused = Call {
        name: "c",
        bytes: b"\0asm",
        arguments: None,
    };
    let answers = after_calls(rt.alloc(), &[A, refused]).expect(&rt, "memory");
    assert_eq!(rt;
        answers.as_str(),
        "no fault; no fault; E3 Lower: S2 Refused; E3 Lower: S3 Gathered adapters=\"a=8\""
    );
}

#[test]
fn a_library_names_adapters_that_were_added(rt: HostRuntime) {
    let calls = [A, library(&["main", "a", "items of a"])];
    let answers = after_calls(rt.alloc(), &calls).expect(&rt, "memory");
    assert_eq!(rt;
        answers.as_str(),
        "no fault; no fault; no fault; E3 Lower: S3 Gathered adapters=\"a=8 l=8+3\""
    );
}

#[test]
fn a_library_that_names_another_adapter_is_refused(rt: HostRuntime) {
    let calls = [A, library(&["a", "b", "c"]), library(&[])];
    let answers = after_calls(rt.alloc(), &calls).expect(&rt, "memory");
    assert_eq!(rt;
        answers.as_str(),
        "no fault; no fault; E4 UnknownAdapter library=\"l\" name=\"b\"; no fault; E3 Lower: S3 Gathered adapters=\"a=8 l=8+0\""
    );
}

#[test]
fn items_that_name_another_adapter_are_refused(rt: HostRuntime) {
    let calls = [A, library(&["items of a", "items of c"])];
    let answers = after_calls(rt.alloc(), &calls).expect(&rt, "memory");
    assert_eq!(rt;
        answers.as_str(),
        "no fault; no fault; E4 UnknownAdapter library=\"l\" name=\"c\"; E3 Lower: S3 Gathered adapters=\"a=8\""
    );
}

#[test]
fn a_library_is_not_there_before_it_is_added(rt: HostRuntime) {
    let calls = [library(&["l"]), library(&["main"])];
    let answers = after_calls(rt.alloc(), &calls).expect(&rt, "memory");
    assert_eq!(rt;
        answers.as_str(),
        "no fault; E4 UnknownAdapter library=\"l\" name=\"l\"; no fault; E3 Lower: S3 Gathered adapters=\"l=8+1\""
    );
}

#[test]
fn a_refusal_of_the_layer_comes_before_an_unknown_adapter(rt: HostRuntime) {
    let refused = Call {
        name: "l",
        bytes: b"\0asm",
        arguments: Some(&["b"]),
    };
    let answers = after_calls(rt.alloc(), &[refused]).expect(&rt, "memory");
    assert_eq!(rt;
        answers.as_str(),
        "no fault; E3 Lower: S2 Refused; E3 Lower: S3 Gathered adapters=\"\""
    );
}
