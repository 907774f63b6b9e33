//! The roles of the imports and exports of a core module.

use crate::names::{Owner, TypeName};
use comp_lists::Text;
use core_types::ValType;
use standard_kinds::{ExportKind, StringEncoding};
use wit_data::AbiVariant;

/// A built-in function without arguments of its own (Canonical ABI: `canon` built-ins).
#[derive(Clone, Copy, PartialEq, Eq)]
pub enum Intrinsic {
    TaskCancel,
    BackpressureInc,
    BackpressureDec,
    WaitableSetNew,
    WaitableSetWait,
    WaitableSetPoll,
    WaitableSetDrop,
    WaitableJoin,
    SubtaskDrop,
    ErrorContextDrop,
}

/// A carrier of values between components: a stream or a future.
#[derive(Clone, Copy, PartialEq, Eq)]
pub enum PayloadKind {
    Stream,
    Future,
}

/// An operation on a stream or a future (Canonical ABI: `stream.new`, `future.read` and the like).
#[derive(Clone, Copy, PartialEq, Eq)]
pub enum PayloadOperation {
    New,
    Read,
    Write,
    CancelRead,
    CancelWrite,
    DropReadable,
    DropWritable,
}

/// A stream or a future: one without values, or the one that occurs at an index in the parameters and
/// then the result of a function that the world imports or exports.
#[derive(Drop, PartialEq, Eq)]
pub enum Payload {
    Unit,
    Met {
        imported: bool,
        owner: Owner,
        function: Text,
        index: u32,
    },
}

/// The role of a core import.
#[derive(PartialEq, Eq)]
pub enum ImportRole {
    /// A function that the world or an imported interface has, and how it is called.
    Function {
        owner: Owner,
        name: Text,
        abi: AbiVariant,
    },
    /// `resource.drop` of an imported resource.
    ImportedDrop(TypeName),
    /// `resource.drop`, `resource.rep` and `resource.new` of an exported resource.
    ExportedDrop(TypeName),
    ExportedRep(TypeName),
    ExportedNew(TypeName),
    /// `task.return` of an exported function.
    TaskReturn {
        owner: Owner,
        function: Text,
    },
    Intrinsic(Intrinsic),
    SubtaskCancel {
        is_async: bool,
    },
    /// An operation on a stream or a future; only reads, writes and their cancellations can be
    /// asynchronous.
    Payload {
        kind: PayloadKind,
        operation: PayloadOperation,
        payload: Payload,
        is_async: bool,
    },
    ErrorContextNew(StringEncoding),
    ErrorContextDebugMessage(StringEncoding),
    /// `context.get` and `context.set` of a slot.
    ContextGet {
        ty: ValType,
        slot: u32,
    },
    ContextSet {
        ty: ValType,
        slot: u32,
    },
    /// The base address of the thread-local data of the running task.
    TlsGet(ValType),
    TlsSet(ValType),
    /// The memory of the main module.
    Memory,
    /// An export of the main module.
    MainExport {
        name: Text,
        kind: ExportKind,
    },
    /// A function that an adapter exports.
    AdapterExport {
        adapter: Text,
        function: Text,
    },
}

impl Drop for ImportRole {
    fn drop(self) {
        match self {
            ImportRole::Function {
                owner: _,
                name: _,
                abi: _,
            } => {}
            ImportRole::ImportedDrop(_) => {}
            ImportRole::ExportedDrop(_) => {}
            ImportRole::ExportedRep(_) => {}
            ImportRole::ExportedNew(_) => {}
            ImportRole::TaskReturn {
                owner: _,
                function: _,
            } => {}
            ImportRole::Intrinsic(_) => {}
            ImportRole::SubtaskCancel { is_async: _ } => {}
            ImportRole::Payload {
                kind: _,
                operation: _,
                payload: _,
                is_async: _,
            } => {}
            ImportRole::ErrorContextNew(_) => {}
            ImportRole::ErrorContextDebugMessage(_) => {}
            ImportRole::ContextGet { ty: _, slot: _ } => {}
            ImportRole::ContextSet { ty: _, slot: _ } => {}
            ImportRole::TlsGet(_) => {}
            ImportRole::TlsSet(_) => {}
            ImportRole::Memory => {}
            ImportRole::MainExport { name: _, kind: _ } => {}
            ImportRole::AdapterExport {
                adapter: _,
                function: _,
            } => {}
        }
    }
}

/// An export with a meaning of its own, whatever the world.
#[derive(Clone, Copy, PartialEq, Eq, Hash)]
pub enum PlainExport {
    Memory,
    /// The realloc of all calls that have none of their own.
    Realloc,
    ImportRealloc,
    ExportRealloc,
    /// It has no effect.
    AdapterRealloc,
    Initialize,
    TaskHook,
}

/// The role of a core export.
#[derive(PartialEq, Eq, Hash)]
pub enum ExportRole {
    /// A function that the world or an exported interface has, and how it is called.
    Function {
        owner: Owner,
        name: Text,
        abi: AbiVariant,
    },
    /// The function that is called with the core results of a function once they were read.
    PostReturn {
        owner: Owner,
        function: Text,
    },
    /// The function that continues an asynchronous function.
    Callback {
        owner: Owner,
        function: Text,
    },
    /// The destructor of an exported resource.
    Destructor(TypeName),
    Plain(PlainExport),
}

impl Drop for ExportRole {
    fn drop(self) {
        match self {
            ExportRole::Function {
                owner: _,
                name: _,
                abi: _,
            } => {}
            ExportRole::PostReturn {
                owner: _,
                function: _,
            } => {}
            ExportRole::Callback {
                owner: _,
                function: _,
            } => {}
            ExportRole::Destructor(_) => {}
            ExportRole::Plain(_) => {}
        }
    }
}
