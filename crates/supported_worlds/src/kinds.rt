//! The kinds of roles, under the names that records have for them.

ghost use Rattle.std.specs.Prelude.{◌≡◌};
ghost use Rattle.std.specs.Option.{option_copied, option_or};
ghost use Rattle.supported_worlds.specs.Kinds.{stream_kind, future_kind, task_kind, value_kind, linked_kind, import_kind, export_kind};

use comp_roles::{Export, Import};

/// The built-in functions on streams.
fn stream_kind(role: &Import) -> Option<&'static str>
    ensures { option_copied result ≡ stream_kind role.now }
{
    match role {
        Import::StreamNew(_) => Some("stream-new"),
        Import::StreamRead { .. } => Some("stream-read"),
        Import::StreamWrite { .. } => Some("stream-write"),
        Import::StreamCancelRead { .. } => Some("stream-cancel-read"),
        Import::StreamCancelWrite { .. } => Some("stream-cancel-write"),
        Import::StreamDropReadable(_) => Some("stream-drop-readable"),
        Import::StreamDropWritable(_) => Some("stream-drop-writable"),
        _ => None,
    }
}

/// The built-in functions on futures.
fn future_kind(role: &Import) -> Option<&'static str>
    ensures { option_copied result ≡ future_kind role.now }
{
    match role {
        Import::FutureNew(_) => Some("future-new"),
        Import::FutureRead { .. } => Some("future-read"),
        Import::FutureWrite { .. } => Some("future-write"),
        Import::FutureCancelRead { .. } => Some("future-cancel-read"),
        Import::FutureCancelWrite { .. } => Some("future-cancel-write"),
        Import::FutureDropReadable(_) => Some("future-drop-readable"),
        Import::FutureDropWritable(_) => Some("future-drop-writable"),
        _ => None,
    }
}

/// The built-in functions on tasks, waitables and subtasks.
fn task_kind(role: &Import) -> Option<&'static str>
    ensures { option_copied result ≡ task_kind role.now }
{
    match role {
        Import::ExportedTaskReturn(..) => Some("task-return"),
        Import::ExportedTaskCancel => Some("task-cancel"),
        Import::BackpressureInc => Some("backpressure-inc"),
        Import::BackpressureDec => Some("backpressure-dec"),
        Import::WaitableSetNew => Some("waitable-set-new"),
        Import::WaitableSetWait => Some("waitable-set-wait"),
        Import::WaitableSetPoll => Some("waitable-set-poll"),
        Import::WaitableSetDrop => Some("waitable-set-drop"),
        Import::WaitableJoin => Some("waitable-join"),
        Import::SubtaskDrop => Some("subtask-drop"),
        Import::SubtaskCancel { .. } => Some("subtask-cancel"),
        _ => None,
    }
}

/// The built-in functions on resources, error contexts and the slots of a task's context.
fn value_kind(role: &Import) -> Option<&'static str>
    ensures { option_copied result ≡ value_kind role.now }
{
    match role {
        Import::ImportedResourceDrop(..) => Some("imported-drop"),
        Import::ExportedResourceDrop(..) => Some("exported-drop"),
        Import::ExportedResourceRep(..) => Some("exported-rep"),
        Import::ExportedResourceNew(..) => Some("exported-new"),
        Import::ErrorContextNew { .. } => Some("error-context-new"),
        Import::ErrorContextDebugMessage { .. } => Some("error-context-debug-message"),
        Import::ErrorContextDrop => Some("error-context-drop"),
        Import::ContextGet { .. } => Some("context-get"),
        Import::ContextSet { .. } => Some("context-set"),
        Import::TlsBaseGet { .. } => Some("tls-get"),
        Import::TlsBaseSet { .. } => Some("tls-set"),
        _ => None,
    }
}

/// Functions of the world, and the exports of main and of adapters.
fn linked_kind(role: &Import) -> Option<&'static str>
    ensures { option_copied result ≡ linked_kind role.now }
{
    match role {
        Import::WorldFunc(..) => Some("world-func"),
        Import::InterfaceFunc(..) => Some("interface-func"),
        Import::MainModuleMemory(_) => Some("memory"),
        Import::MainModuleExport { .. } => Some("main-export"),
        Import::AdapterExport { .. } => Some("adapter-export"),
        _ => None,
    }
}

/// The built-in functions on tasks, streams and futures.
fn waiting_kind(role: &Import) -> Option<&'static str>
    ensures { option_copied result
        ≡ option_or (task_kind role.now) (option_or (stream_kind role.now) (future_kind role.now)) }
{
    task_kind(role).or(stream_kind(role).or(future_kind(role)))
}

/// The kind of an import's role.
pub(crate) fn import_kind(role: &Import) -> &'static str
    ensures { result.now ≡ import_kind role.now }
{
    match linked_kind(role).or(value_kind(role).or(waiting_kind(role))) {
        Some(kind) => kind,
        None => "library",
    }
}

/// The kind of an export's role.
pub(crate) fn export_kind(role: &Export) -> &'static str
    ensures { result.now ≡ export_kind role.now }
{
    match role {
        Export::WorldFunc(..) => "world-func",
        Export::InterfaceFunc(..) => "interface-func",
        Export::WorldFuncPostReturn(_) => "world-post-return",
        Export::InterfaceFuncPostReturn(..) => "interface-post-return",
        Export::WorldFuncCallback(_) => "world-callback",
        Export::InterfaceFuncCallback(..) => "interface-callback",
        Export::ResourceDtor(_) => "dtor",
        Export::Memory(_) => "memory",
        Export::GeneralPurposeRealloc => "realloc",
        Export::GeneralPurposeImportRealloc => "import-realloc",
        Export::GeneralPurposeExportRealloc => "export-realloc",
        Export::ReallocForAdapter => "adapter-realloc",
        Export::Initialize => "initialize",
        Export::WasmTaskHook => "task-hook",
    }
}
