//! Options of canonical functions, and the intrinsics.
//!
//! Component model, binary format: `canonopt`, `canon`; Canonical ABI: `canon` built-ins.

use crate::types::ComponentValType;
use comp_lists::Seq;

/// An option of a lift, a lower or an intrinsic. Numbers are indices of core memories and core
/// functions.
#[derive(Clone, Copy, Debug, PartialEq, Eq)]
pub enum CanonicalOption {
    Utf8,
    Utf16,
    CompactUtf16,
    Memory(u32),
    Realloc(u32),
    PostReturn(u32),
    Async,
    Callback(u32),
}

/// The core type of a context slot.
#[derive(Clone, Copy, Debug, PartialEq, Eq)]
pub enum ContextType {
    I32,
    I64,
}

/// A core function that the runtime has. `ty` and numbers without a name are type indices, but those
/// of the two waits are memory indices.
#[derive(Debug, PartialEq, Eq)]
pub enum Intrinsic {
    ResourceNew(u32),
    ResourceDrop(u32),
    ResourceRep(u32),
    TaskCancel,
    SubtaskCancel {
        async_: bool,
    },
    TaskReturn {
        result: Option<ComponentValType>,
        options: Seq<CanonicalOption>,
    },
    ContextGet {
        ty: ContextType,
        slot: u32,
    },
    ContextSet {
        ty: ContextType,
        slot: u32,
    },
    SubtaskDrop,
    StreamNew(u32),
    StreamRead {
        ty: u32,
        options: Seq<CanonicalOption>,
    },
    StreamWrite {
        ty: u32,
        options: Seq<CanonicalOption>,
    },
    StreamCancelRead {
        ty: u32,
        async_: bool,
    },
    StreamCancelWrite {
        ty: u32,
        async_: bool,
    },
    StreamDropReadable(u32),
    StreamDropWritable(u32),
    FutureNew(u32),
    FutureRead {
        ty: u32,
        options: Seq<CanonicalOption>,
    },
    FutureWrite {
        ty: u32,
        options: Seq<CanonicalOption>,
    },
    FutureCancelRead {
        ty: u32,
        async_: bool,
    },
    FutureCancelWrite {
        ty: u32,
        async_: bool,
    },
    FutureDropReadable(u32),
    FutureDropWritable(u32),
    ErrorContextNew {
        options: Seq<CanonicalOption>,
    },
    ErrorContextDebugMessage {
        options: Seq<CanonicalOption>,
    },
    ErrorContextDrop,
    WaitableSetNew,
    WaitableSetWait {
        memory: u32,
    },
    WaitableSetPoll {
        memory: u32,
    },
    WaitableSetDrop,
    WaitableJoin,
    BackpressureInc,
    BackpressureDec,
}

impl Drop for Intrinsic {
    fn drop(self) {
        match self {
            Intrinsic::ResourceNew(_) => {}
            Intrinsic::ResourceDrop(_) => {}
            Intrinsic::ResourceRep(_) => {}
            Intrinsic::TaskCancel => {}
            Intrinsic::SubtaskCancel { async_: _ } => {}
            Intrinsic::TaskReturn {
                result: _,
                options: _,
            } => {}
            Intrinsic::ContextGet { ty: _, slot: _ } => {}
            Intrinsic::ContextSet { ty: _, slot: _ } => {}
            Intrinsic::SubtaskDrop => {}
            Intrinsic::StreamNew(_) => {}
            Intrinsic::StreamRead { ty: _, options: _ } => {}
            Intrinsic::StreamWrite { ty: _, options: _ } => {}
            Intrinsic::StreamCancelRead { ty: _, async_: _ } => {}
            Intrinsic::StreamCancelWrite { ty: _, async_: _ } => {}
            Intrinsic::StreamDropReadable(_) => {}
            Intrinsic::StreamDropWritable(_) => {}
            Intrinsic::FutureNew(_) => {}
            Intrinsic::FutureRead { ty: _, options: _ } => {}
            Intrinsic::FutureWrite { ty: _, options: _ } => {}
            Intrinsic::FutureCancelRead { ty: _, async_: _ } => {}
            Intrinsic::FutureCancelWrite { ty: _, async_: _ } => {}
            Intrinsic::FutureDropReadable(_) => {}
            Intrinsic::FutureDropWritable(_) => {}
            Intrinsic::ErrorContextNew { options: _ } => {}
            Intrinsic::ErrorContextDebugMessage { options: _ } => {}
            Intrinsic::ErrorContextDrop => {}
            Intrinsic::WaitableSetNew => {}
            Intrinsic::WaitableSetWait { memory: _ } => {}
            Intrinsic::WaitableSetPoll { memory: _ } => {}
            Intrinsic::WaitableSetDrop => {}
            Intrinsic::WaitableJoin => {}
            Intrinsic::BackpressureInc => {}
            Intrinsic::BackpressureDec => {}
        }
    }
}
