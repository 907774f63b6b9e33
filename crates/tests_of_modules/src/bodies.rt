//! The bodies of generated functions.

use core_bytes::Body;
use core_runs::{
    AfterHook, Bracket, GlobalFill, StartStep, TaskHook, ref_shim_body, start_body, stub_body,
    table_shim_body, tls_get_body, tls_set_body, wrapper_body,
};
use std::alloc::{AllocError, Global};

/// The hooks round a callback.
const CALLBACK: Bracket = Bracket {
    before: Some(TaskHook::AsyncResume),
    after: AfterHook::ByStatus,
};

/// The hooks round a post-return.
const POST_RETURN: Bracket = Bracket {
    before: None,
    after: AfterHook::Always(TaskHook::SyncFinish),
};

/// A hook in front alone.
const OPEN: Bracket = Bracket {
    before: Some(TaskHook::ReallocStart),
    after: AfterHook::Nothing,
};

const FILLS: [GlobalFill; 1] = [GlobalFill {
    global: 1,
    function: 2,
}];

const STEPS: [StartStep; 2] = [
    StartStep::Hook {
        hook: 3,
        moment: TaskHook::InitializeStart,
    },
    StartStep::Thunk(4),
];

const TO_MEMORY: [StartStep; 1] = [StartStep::AddressToMemory {
    base: 0,
    offset: 1,
    address: 64,
}];

const TO_GLOBAL: [StartStep; 1] = [StartStep::AddressToGlobal {
    base: 0,
    offset: 1,
    global: 2,
}];

/// The body of this name.
pub(crate) fn body(alloc: Global, name: &str) -> Result<Body, AllocError> {
    match name {
        "table_shim(2, 0, 0)" => table_shim_body(alloc, 2, 0, 0),
        "table_shim(0, 64, 3)" => table_shim_body(alloc, 0, 64, 3),
        "table_shim(0, 0xffff_ffff, 0)" => table_shim_body(alloc, 0, 0xffff_ffff, 0),
        "ref_shim(2, 0, 0)" => ref_shim_body(alloc, 2, 0, 0),
        "wrapper(3, CALLBACK, 0, 2)" => wrapper_body(alloc, 3, CALLBACK, 0, 2),
        "wrapper(1, POST_RETURN, 0, 2)" => wrapper_body(alloc, 1, POST_RETURN, 0, 2),
        "wrapper(0, OPEN, 1, 2)" => wrapper_body(alloc, 0, OPEN, 1, 2),
        "start(FILLS, STEPS)" => start_body(alloc, &FILLS, &STEPS),
        "start([], TO_MEMORY)" => start_body(alloc, &[], &TO_MEMORY),
        "start([], TO_GLOBAL)" => start_body(alloc, &[], &TO_GLOBAL),
        "tls_get(5)" => tls_get_body(alloc, 5),
        "tls_set(5)" => tls_set_body(alloc, 5),
        _ => stub_body(alloc),
    }
}
