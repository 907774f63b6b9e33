//! The kinds of roles of core imports, by their names.

ghost use Rattle.std.specs.Prelude.{◌≡◌};
ghost use Rattle.record_import_roles.specs.Kinds.{intrinsic_from, payload_from, builtin_from, other_from, import_from};

use record_values::{Intrinsic, PayloadKind, PayloadOperation};

/// A kind of import role. The arguments follow it.
#[derive(Clone, Copy, PartialEq, Eq)]
pub(crate) enum ImportKind {
    WorldFunc,
    InterfaceFunc,
    ImportedDrop,
    ExportedDrop,
    ExportedRep,
    ExportedNew,
    TaskReturn,
    Intrinsic(Intrinsic),
    SubtaskCancel,
    Payload(PayloadKind, PayloadOperation),
    ErrorContextNew,
    ErrorContextDebugMessage,
    ContextGet,
    ContextSet,
    TlsGet,
    TlsSet,
    Memory,
    MainExport,
    AdapterExport,
}

fn intrinsic(name: &str) -> Option<Intrinsic>
    ensures { result ≡ intrinsic_from name.now }
{
    match name {
        "task-cancel" => Some(Intrinsic::TaskCancel),
        "backpressure-inc" => Some(Intrinsic::BackpressureInc),
        "backpressure-dec" => Some(Intrinsic::BackpressureDec),
        "waitable-set-new" => Some(Intrinsic::WaitableSetNew),
        "waitable-set-wait" => Some(Intrinsic::WaitableSetWait),
        "waitable-set-poll" => Some(Intrinsic::WaitableSetPoll),
        "waitable-set-drop" => Some(Intrinsic::WaitableSetDrop),
        "waitable-join" => Some(Intrinsic::WaitableJoin),
        "subtask-drop" => Some(Intrinsic::SubtaskDrop),
        "error-context-drop" => Some(Intrinsic::ErrorContextDrop),
        _ => None,
    }
}

/// A kind with a stream or a future.
fn payload(name: &str) -> Option<ImportKind>
    ensures { result ≡ payload_from name.now }
{
    use PayloadKind::{Future, Stream};
    match name {
        "stream-new" => Some(ImportKind::Payload(Stream, PayloadOperation::New)),
        "stream-read" => Some(ImportKind::Payload(Stream, PayloadOperation::Read)),
        "stream-write" => Some(ImportKind::Payload(Stream, PayloadOperation::Write)),
        "stream-cancel-read" => Some(ImportKind::Payload(Stream, PayloadOperation::CancelRead)),
        "stream-cancel-write" => Some(ImportKind::Payload(Stream, PayloadOperation::CancelWrite)),
        "stream-drop-readable" => Some(ImportKind::Payload(Stream, PayloadOperation::DropReadable)),
        "stream-drop-writable" => Some(ImportKind::Payload(Stream, PayloadOperation::DropWritable)),
        "future-new" => Some(ImportKind::Payload(Future, PayloadOperation::New)),
        "future-read" => Some(ImportKind::Payload(Future, PayloadOperation::Read)),
        "future-write" => Some(ImportKind::Payload(Future, PayloadOperation::Write)),
        "future-cancel-read" => Some(ImportKind::Payload(Future, PayloadOperation::CancelRead)),
        "future-cancel-write" => Some(ImportKind::Payload(Future, PayloadOperation::CancelWrite)),
        "future-drop-readable" => Some(ImportKind::Payload(Future, PayloadOperation::DropReadable)),
        "future-drop-writable" => Some(ImportKind::Payload(Future, PayloadOperation::DropWritable)),
        _ => None,
    }
}

/// A built-in function that takes arguments of its own.
fn builtin(name: &str) -> Option<ImportKind>
    ensures { result ≡ builtin_from name.now }
{
    match name {
        "task-return" => Some(ImportKind::TaskReturn),
        "subtask-cancel" => Some(ImportKind::SubtaskCancel),
        "error-context-new" => Some(ImportKind::ErrorContextNew),
        "error-context-debug-message" => Some(ImportKind::ErrorContextDebugMessage),
        "context-get" => Some(ImportKind::ContextGet),
        "context-set" => Some(ImportKind::ContextSet),
        "tls-get" => Some(ImportKind::TlsGet),
        "tls-set" => Some(ImportKind::TlsSet),
        _ => None,
    }
}

/// What the world, a resource or another module has.
fn other(name: &str) -> Option<ImportKind>
    ensures { result ≡ other_from name.now }
{
    match name {
        "world-func" => Some(ImportKind::WorldFunc),
        "interface-func" => Some(ImportKind::InterfaceFunc),
        "imported-drop" => Some(ImportKind::ImportedDrop),
        "exported-drop" => Some(ImportKind::ExportedDrop),
        "exported-rep" => Some(ImportKind::ExportedRep),
        "exported-new" => Some(ImportKind::ExportedNew),
        "memory" => Some(ImportKind::Memory),
        "main-export" => Some(ImportKind::MainExport),
        "adapter-export" => Some(ImportKind::AdapterExport),
        _ => None,
    }
}

/// The kind of import role of this name.
#[tactic(auto, unfolding(crate::specs::Kinds::import_from))]
pub(crate) fn import_kind(name: &str) -> Option<ImportKind>
    ensures { result ≡ import_from name.now }
{
    if let Some(kind) = other(name) {
        return Some(kind);
    }
    if let Some(intrinsic) = intrinsic(name) {
        return Some(ImportKind::Intrinsic(intrinsic));
    }
    if let Some(kind) = builtin(name) {
        return Some(kind);
    }
    payload(name)
}
