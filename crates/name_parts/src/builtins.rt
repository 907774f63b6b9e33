//! Built-in functions that no function of the world has a part in.

ghost use Rattle.std.specs.Prelude.{◌≡◌, IfOk};
ghost use Rattle.std.specs.Option.{option_copied};
ghost use Rattle.name_parts.specs.Builtins.{intrinsic, cancel_or_error, slot_of, slot, slot_after, context, builtin, is_not_encoded};

use crate::texts::{after, before, number};
use core_types::ValType;
use record_values::{ImportRole, Intrinsic};
use standard_kinds::StringEncoding;
use std::alloc::{AllocError, Global};

fn intrinsic(name: &str) -> Option<Intrinsic>
    ensures { result ≡ intrinsic name.now }
{
    match name {
        "[backpressure-inc]" => Some(Intrinsic::BackpressureInc),
        "[backpressure-dec]" => Some(Intrinsic::BackpressureDec),
        "[waitable-set-new]" => Some(Intrinsic::WaitableSetNew),
        "[waitable-set-wait]" => Some(Intrinsic::WaitableSetWait),
        "[waitable-set-poll]" => Some(Intrinsic::WaitableSetPoll),
        "[waitable-set-drop]" => Some(Intrinsic::WaitableSetDrop),
        "[waitable-join]" => Some(Intrinsic::WaitableJoin),
        "[subtask-drop]" => Some(Intrinsic::SubtaskDrop),
        "[error-context-drop]" => Some(Intrinsic::ErrorContextDrop),
        _ => None,
    }
}

fn cancel_or_error(name: &str) -> Option<ImportRole>
    ensures { result ≡ cancel_or_error name.now }
{
    use ImportRole::{ErrorContextDebugMessage, ErrorContextNew};
    match name {
        "[subtask-cancel]" => Some(ImportRole::SubtaskCancel { is_async: false }),
        "[async-lower][subtask-cancel]" => Some(ImportRole::SubtaskCancel { is_async: true }),
        "[error-context-new-utf8]" => Some(ErrorContextNew(StringEncoding::UTF8)),
        "[error-context-new-utf16]" => Some(ErrorContextNew(StringEncoding::UTF16)),
        "[error-context-new-latin1+utf16]" => Some(ErrorContextNew(StringEncoding::CompactUTF16)),
        "[error-context-debug-message-utf8]" => {
            Some(ErrorContextDebugMessage(StringEncoding::UTF8))
        }
        "[error-context-debug-message-utf16]" => {
            Some(ErrorContextDebugMessage(StringEncoding::UTF16))
        }
        "[error-context-debug-message-latin1+utf16]" => {
            Some(ErrorContextDebugMessage(StringEncoding::CompactUTF16))
        }
        _ => None,
    }
}

// ---- slots of the context

/// What a slot holds, and the slot's number.
type Slot = Option<(ValType, u32)>;

fn slot_of(alloc: Global, ty: ValType, text: Option<&str>) -> Result<Slot, AllocError>
    ensures { IfOk result (λ s. s ≡ slot_of ty (option_copied text.entry)) }
{
    let Some(text) = text else {
        return Ok(None);
    };
    match number(alloc, text)? {
        Some(slot) => Ok(Some((ty, slot))),
        None => Ok(None),
    }
}

fn slot(alloc: Global, text: &str) -> Result<Slot, AllocError>
    ensures { IfOk result (λ s. s ≡ slot text.now) }
{
    let plain = slot_of(alloc, ValType::I32, Some(text))?;
    if plain.is_some() {
        return Ok(plain);
    }
    let narrow = slot_of(alloc, ValType::I32, after("i32-", text))?;
    if narrow.is_some() {
        return Ok(narrow);
    }
    slot_of(alloc, ValType::I64, after("i64-", text))
}

fn slot_after(alloc: Global, beginning: &str, name: &str) -> Result<Slot, AllocError>
    ensures { IfOk result (λ s. s ≡ slot_after beginning.now name.now) }
{
    let Some(rest) = after(beginning, name) else {
        return Ok(None);
    };
    match before("]", rest) {
        Some(text) => slot(alloc, text),
        None => Ok(None),
    }
}

fn context(alloc: Global, name: &str) -> Result<Option<ImportRole>, AllocError>
    ensures { IfOk result (λ r. r ≡ context name.now) }
{
    if let Some((ty, slot)) = slot_after(alloc, "[context-get-", name)? {
        return Ok(Some(ImportRole::ContextGet { ty, slot }));
    }
    match slot_after(alloc, "[context-set-", name)? {
        Some((ty, slot)) => Ok(Some(ImportRole::ContextSet { ty, slot })),
        None => Ok(None),
    }
}

// ---- all of them

/// The role of a built-in function, by its name alone.
#[tactic(auto, unfolding(crate::specs::Builtins::builtin))]
pub fn builtin(alloc: Global, name: &str) -> Result<Option<ImportRole>, AllocError>
    ensures { IfOk result (λ r. r ≡ builtin name.now) }
{
    if let Some(intrinsic) = intrinsic(name) {
        return Ok(Some(ImportRole::Intrinsic(intrinsic)));
    }
    match cancel_or_error(name) {
        Some(role) => Ok(Some(role)),
        None => context(alloc, name),
    }
}

/// Whether a name is that of a built-in function that isn't encoded.
#[tactic(auto, unfolding(crate::specs::Builtins::is_not_encoded))]
pub fn is_not_encoded(name: &str) -> bool
    ensures { result ≡ is_not_encoded name.now }
{
    after("[thread-", name).is_some()
        || after("[cancellable]", name).is_some()
        || name == "[backpressure-set]"
}
