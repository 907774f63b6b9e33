//! The built-in functions without operands, by roles.

ghost use Rattle.std.specs.Prelude.{◌≡◌, None, if◌then◌else◌, option_map};
ghost use Rattle.comp_bytes.specs.declared.canon.Intrinsic.TheVariants as intrinsics;
ghost use Rattle.built_ins.specs.BuiltIns.{context_type, plain_intrinsic};

use comp_bytes::{ContextType, Intrinsic};
use comp_roles::Import;
use core_types::ValType;

/// The type of a slot of a task's context, which holds 32 or 64 bits.
fn context_type(ty: ValType) -> Option<ContextType>
    ensures { result ≡ context_type ty }
{
    match ty {
        ValType::I32 => Some(ContextType::I32),
        ValType::I64 => Some(ContextType::I64),
        _ => None,
    }
}

/// What reads a slot of a task's context.
fn get_of_slot(ty: ValType, slot: u32) -> Option<Intrinsic>
    ensures { result ≡ option_map (λ t. intrinsics.ContextGet t slot) (context_type ty) }
{
    let ty = context_type(ty)?;
    Some(Intrinsic::ContextGet { ty, slot })
}

/// What sets a slot of a task's context.
fn set_of_slot(ty: ValType, slot: u32) -> Option<Intrinsic>
    ensures { result ≡ option_map (λ t. intrinsics.ContextSet t slot) (context_type ty) }
{
    let ty = context_type(ty)?;
    Some(Intrinsic::ContextSet { ty, slot })
}

/// The function, where the slot that it is for can be used.
fn where_usable(usable: bool, intrinsic: Option<Intrinsic>) -> Option<Intrinsic>
    ensures { result ≡ (if usable then intrinsic else None) }
{
    if usable { intrinsic } else { None }
}

/// The built-in function that an import of this role is given, if it is one without operands and
/// options (Canonical ABI: `canon task.cancel` and its neighbours). A slot has to hold 32 or 64
/// bits. The base of thread-local storage is in slot 1, where that can be used.
pub fn plain_intrinsic(slot_1: bool, role: &Import) -> Option<Intrinsic>
    ensures { result ≡ plain_intrinsic slot_1 role.now }
{
    match role {
        Import::ExportedTaskCancel => Some(Intrinsic::TaskCancel),
        Import::BackpressureInc => Some(Intrinsic::BackpressureInc),
        Import::BackpressureDec => Some(Intrinsic::BackpressureDec),
        Import::WaitableSetNew => Some(Intrinsic::WaitableSetNew),
        Import::WaitableSetDrop => Some(Intrinsic::WaitableSetDrop),
        Import::WaitableJoin => Some(Intrinsic::WaitableJoin),
        Import::SubtaskDrop => Some(Intrinsic::SubtaskDrop),
        Import::SubtaskCancel { async_ } => Some(Intrinsic::SubtaskCancel { async_: *async_ }),
        Import::ErrorContextDrop => Some(Intrinsic::ErrorContextDrop),
        Import::ContextGet { ty, slot } => get_of_slot(*ty, *slot),
        Import::ContextSet { ty, slot } => set_of_slot(*ty, *slot),
        Import::TlsBaseGet { ty } => where_usable(slot_1, get_of_slot(*ty, 1)),
        Import::TlsBaseSet { ty } => where_usable(slot_1, set_of_slot(*ty, 1)),
        _ => None,
    }
}
