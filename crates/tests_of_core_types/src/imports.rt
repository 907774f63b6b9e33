//! Roles of core imports, by their words.

use crate::made::{EXPORTED, IMPORTED, h, k};
use comp_lists::Text;
use comp_roles::{Import, PayloadInfo, PayloadType};
use core_types::ValType;
use standard_kinds::StringEncoding;
use std::alloc::{AllocError, Global};
use test_cases::word_and_rest;
use wit_data::{AbiVariant, TypeId, WorldKey};
use wit_texts::abi_of;

/// The key of the imported interface, which has no name of its own.
pub(crate) fn key() -> WorldKey {
    WorldKey::Interface(IMPORTED)
}

pub(crate) fn resource() -> TypeId {
    TypeId { index: 0 }
}

/// Built-in functions.
pub(crate) fn built_in(word: &str) -> Import {
    match word {
        "imported-resource-drop" => Import::ImportedResourceDrop(key(), None, resource()),
        "exported-resource-drop" => Import::ExportedResourceDrop(key(), resource()),
        "exported-resource-rep" => Import::ExportedResourceRep(key(), resource()),
        "exported-resource-new" => Import::ExportedResourceNew(key(), resource()),
        "task-cancel" => Import::ExportedTaskCancel,
        "backpressure-inc" => Import::BackpressureInc,
        "backpressure-dec" => Import::BackpressureDec,
        "waitable-set-new" => Import::WaitableSetNew,
        "waitable-set-wait" => Import::WaitableSetWait,
        "waitable-set-poll" => Import::WaitableSetPoll,
        "waitable-set-drop" => Import::WaitableSetDrop,
        "waitable-join" => Import::WaitableJoin,
        "subtask-drop" => Import::SubtaskDrop,
        _ => Import::SubtaskCancel { async_: true },
    }
}

/// The type of a word.
fn value_type(word: &str) -> ValType {
    match word {
        "i32" => ValType::I32,
        "i64" => ValType::I64,
        "f32" => ValType::F32,
        _ => ValType::F64,
    }
}

/// Error contexts, and slots of a task's context.
pub(crate) fn of_a_task(text: &str) -> Import {
    let (word, rest) = word_and_rest(text);
    let encoding = StringEncoding::UTF8;
    let ty = value_type(rest);
    match word {
        "error-context-new" => Import::ErrorContextNew { encoding },
        "error-context-debug-message" => Import::ErrorContextDebugMessage { encoding },
        "error-context-drop" => Import::ErrorContextDrop,
        "context-get" => Import::ContextGet { ty, slot: 0 },
        "context-set" => Import::ContextSet { ty, slot: 1 },
        "tls-base-get" => Import::TlsBaseGet { ty },
        _ => Import::TlsBaseSet { ty },
    }
}

/// A stream without values.
fn payload(alloc: Global) -> PayloadInfo {
    PayloadInfo {
        name: Text::new(alloc),
        ty: PayloadType::UnitStream,
        key: None,
        interface: None,
        imported: false,
    }
}

/// What is done to a stream or a future.
fn with_payload(word: &str, info: PayloadInfo) -> Import {
    let async_ = false;
    match word {
        "stream-new" => Import::StreamNew(info),
        "stream-read" => Import::StreamRead { info, async_ },
        "stream-write" => Import::StreamWrite { info, async_ },
        "stream-cancel-read" => Import::StreamCancelRead { info, async_ },
        "stream-cancel-write" => Import::StreamCancelWrite { info, async_ },
        "stream-drop-readable" => Import::StreamDropReadable(info),
        "stream-drop-writable" => Import::StreamDropWritable(info),
        "future-new" => Import::FutureNew(info),
        "future-read" => Import::FutureRead { info, async_ },
        "future-write" => Import::FutureWrite { info, async_ },
        "future-cancel-read" => Import::FutureCancelRead { info, async_ },
        "future-cancel-write" => Import::FutureCancelWrite { info, async_ },
        "future-drop-readable" => Import::FutureDropReadable(info),
        _ => Import::FutureDropWritable(info),
    }
}

/// What is done to streams and futures.
pub(crate) fn of_a_payload(alloc: Global, word: &str) -> Import {
    with_payload(word, payload(alloc))
}

fn of_interface(name: Text, abi: AbiVariant) -> Import {
    Import::InterfaceFunc(key(), IMPORTED, name, abi)
}

fn of_root(name: Text, root: Text, abi: AbiVariant) -> Import {
    Import::WorldFunc(WorldKey::Name(root), name, abi)
}

/// A function that the world imports: `g` and `k` of the imported interface, others at its root.
pub(crate) fn function(alloc: Global, text: &str) -> Result<Import, AllocError> {
    let (name, abi) = word_and_rest(text);
    let text = Text::from_str(alloc, name)?;
    if name == "g" || name == "k" {
        return Ok(of_interface(text, abi_of(abi)));
    }
    let root = Text::from_str(alloc, name)?;
    Ok(of_root(text, root, abi_of(abi)))
}

/// `task.return` of `h` or of `k`.
pub(crate) fn task_return(alloc: Global, name: &str) -> Result<Import, AllocError> {
    if name == "k" {
        let function = k(alloc)?;
        return Ok(Import::ExportedTaskReturn(key(), Some(EXPORTED), function));
    }
    let function = h(alloc)?;
    Ok(Import::ExportedTaskReturn(key(), None, function))
}
