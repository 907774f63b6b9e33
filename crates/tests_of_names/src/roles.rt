//! Roles, printed: the kind, and then the owner, which is `-` for the world itself, and the other parts.

use core_types::ValType;
use record_values::{
    ExportRole, ImportRole, Intrinsic, Owner, Payload, PayloadKind, PayloadOperation, PlainExport,
};
use standard_kinds::{ExportKind, StringEncoding};
use std::alloc::{AllocError, Global};
use wit_data::AbiVariant;

fn owner(owner: &Owner) -> &str {
    match owner {
        Owner::World => "-",
        Owner::Interface(name) => name.text(),
    }
}

fn abi(abi: AbiVariant) -> &'static str {
    match abi {
        AbiVariant::GuestImport => "import",
        AbiVariant::GuestImportAsync => "import-async",
        AbiVariant::GuestExport => "export",
        AbiVariant::GuestExportAsync => "export-async",
        AbiVariant::GuestExportAsyncStackful => "export-stackful",
    }
}

fn intrinsic(intrinsic: Intrinsic) -> &'static str {
    match intrinsic {
        Intrinsic::TaskCancel => "task-cancel",
        Intrinsic::BackpressureInc => "backpressure-inc",
        Intrinsic::BackpressureDec => "backpressure-dec",
        Intrinsic::WaitableSetNew => "waitable-set-new",
        Intrinsic::WaitableSetWait => "waitable-set-wait",
        Intrinsic::WaitableSetPoll => "waitable-set-poll",
        Intrinsic::WaitableSetDrop => "waitable-set-drop",
        Intrinsic::WaitableJoin => "waitable-join",
        Intrinsic::SubtaskDrop => "subtask-drop",
        Intrinsic::ErrorContextDrop => "error-context-drop",
    }
}

fn payload_kind(kind: PayloadKind) -> &'static str {
    match kind {
        PayloadKind::Stream => "stream",
        PayloadKind::Future => "future",
    }
}

fn operation(operation: PayloadOperation) -> &'static str {
    match operation {
        PayloadOperation::New => "new",
        PayloadOperation::Read => "read",
        PayloadOperation::Write => "write",
        PayloadOperation::CancelRead => "cancel-read",
        PayloadOperation::CancelWrite => "cancel-write",
        PayloadOperation::DropReadable => "drop-readable",
        PayloadOperation::DropWritable => "drop-writable",
    }
}

fn encoding(encoding: StringEncoding) -> &'static str {
    match encoding {
        StringEncoding::UTF8 => "utf8",
        StringEncoding::UTF16 => "utf16",
        StringEncoding::CompactUTF16 => "compact",
    }
}

fn val_type(ty: ValType) -> &'static str {
    match ty {
        ValType::I32 => "i32",
        ValType::I64 => "i64",
        _ => "other",
    }
}

fn sort(kind: ExportKind) -> &'static str {
    match kind {
        ExportKind::Func => "func",
        ExportKind::Table => "table",
        ExportKind::Memory => "memory",
        ExportKind::Global => "global",
    }
}

fn form(is_async: bool) -> &'static str {
    if is_async { "async" } else { "sync" }
}

fn side(imported: bool) -> &'static str {
    if imported { "imported" } else { "exported" }
}

fn payload(alloc: Global, payload: &Payload) -> Result<String, AllocError> {
    match payload {
        Payload::Unit => String::from_str(alloc, "unit"),
        Payload::Met {
            imported,
            owner: of,
            function,
            index,
        } => {
            let side = side(*imported);
            format!(in alloc; "{index} {side} {} {}", owner(of), function.as_str())
        }
    }
}

/// An operation on a stream or future, and whether it is asynchronous.
fn payload_operation(
    alloc: Global,
    kind: PayloadKind,
    done: PayloadOperation,
    of: &Payload,
    is_async: bool,
) -> Result<String, AllocError> {
    let of = payload(alloc, of)?;
    let (kind, done, form) = (payload_kind(kind), operation(done), form(is_async));
    format!(in alloc; "{kind}-{done} {of} {form}")
}

/// The printed role of a core import.
pub(crate) fn print_import(alloc: Global, role: &ImportRole) -> Result<String, AllocError> {
    match role {
        ImportRole::Function {
            owner: of,
            name,
            abi: called,
        } => format!(in alloc; "function {} {} {}", owner(of), name.as_str(), abi(*called)),
        ImportRole::ImportedDrop(named) => {
            format!(in alloc; "drop {} {}", owner(&named.owner), named.name.as_str())
        }
        ImportRole::ExportedDrop(named) => {
            format!(in alloc;
                "exported-drop {} {}",
                owner(&named.owner),
                named.name.as_str()
            )
        }
        ImportRole::ExportedRep(named) => {
            format!(in alloc;
                "exported-rep {} {}",
                owner(&named.owner),
                named.name.as_str()
            )
        }
        ImportRole::ExportedNew(named) => {
            format!(in alloc;
                "exported-new {} {}",
                owner(&named.owner),
                named.name.as_str()
            )
        }
        ImportRole::TaskReturn {
            owner: of,
            function,
        } => format!(in alloc; "task-return {} {}", owner(of), function.as_str()),
        ImportRole::Intrinsic(which) => String::from_str(alloc, intrinsic(*which)),
        ImportRole::SubtaskCancel { is_async } => {
            format!(in alloc; "subtask-cancel {}", form(*is_async))
        }
        ImportRole::Payload {
            kind,
            operation,
            payload,
            is_async,
        } => payload_operation(alloc, *kind, *operation, payload, *is_async),
        ImportRole::ErrorContextNew(texts) => {
            format!(in alloc; "error-context-new {}", encoding(*texts))
        }
        ImportRole::ErrorContextDebugMessage(texts) => {
            format!(in alloc; "error-context-debug-message {}", encoding(*texts))
        }
        ImportRole::ContextGet { ty, slot } => {
            format!(in alloc; "context-get {} {slot}", val_type(*ty))
        }
        ImportRole::ContextSet { ty, slot } => {
            format!(in alloc; "context-set {} {slot}", val_type(*ty))
        }
        ImportRole::TlsGet(ty) => format!(in alloc; "tls-get {}", val_type(*ty)),
        ImportRole::TlsSet(ty) => format!(in alloc; "tls-set {}", val_type(*ty)),
        ImportRole::Memory => String::from_str(alloc, "memory"),
        ImportRole::MainExport { name, kind } => {
            format!(in alloc; "main-export {} {}", name.as_str(), sort(*kind))
        }
        ImportRole::AdapterExport { adapter, function } => {
            format!(in alloc; "adapter-export {} {}", adapter.as_str(), function.as_str())
        }
    }
}

fn plain(plain: PlainExport) -> &'static str {
    match plain {
        PlainExport::Memory => "memory",
        PlainExport::Realloc => "realloc",
        PlainExport::ImportRealloc => "import-realloc",
        PlainExport::ExportRealloc => "export-realloc",
        PlainExport::AdapterRealloc => "adapter-realloc",
        PlainExport::Initialize => "initialize",
        PlainExport::TaskHook => "task-hook",
    }
}

/// The printed role of a core export.
pub(crate) fn print_export(alloc: Global, role: &ExportRole) -> Result<String, AllocError> {
    match role {
        ExportRole::Function {
            owner: of,
            name,
            abi: called,
        } => format!(in alloc; "function {} {} {}", owner(of), name.as_str(), abi(*called)),
        ExportRole::PostReturn {
            owner: of,
            function,
        } => format!(in alloc; "post-return {} {}", owner(of), function.as_str()),
        ExportRole::Callback {
            owner: of,
            function,
        } => format!(in alloc; "callback {} {}", owner(of), function.as_str()),
        ExportRole::Destructor(named) => {
            format!(in alloc;
                "destructor {} {}",
                owner(&named.owner),
                named.name.as_str()
            )
        }
        ExportRole::Plain(which) => String::from_str(alloc, plain(*which)),
    }
}
