//! The types of built-in functions, and of exports that have the same type in every world.
//!
//! Canonical ABI: `canon` built-ins, `realloc`, `callback`, destructors. Handles, ends of streams and
//! futures, and addresses are i32.

ghost use Rattle.std.specs.Prelude.{◌≡◌, Some, option_map};
ghost use Rattle.record_core_types.specs.Asked.{function, getter, setter, built_in, payload_function, intrinsic, plain_export};
ghost use Rattle.record_core_types.specs.Fitting.{is_same, is_asked};
ghost use Rattle.record_core_types.specs.Shapes.{shape_type};

use comp_roles::{Export, Import};
use core_sections::FuncType;
use core_sections::ValType::{self, I32, I64};

/// The type of a function: its parameters and its results.
#[derive(Clone, Copy)]
pub(crate) struct Shape {
    pub params: &'static [ValType],
    pub results: &'static [ValType],
}

impl Shape {
    /// Whether a function has this type.
    pub(crate) fn is_of(&self, ty: &FuncType) -> bool
        ensures { result ≡ is_same ty.now (shape_type self.now) }
    {
        ty.params.as_slice() == self.params && ty.results.as_slice() == self.results
    }
}

/// The type of a function with these parameters and these results.
fn asks(params: &'static [ValType], results: &'static [ValType]) -> Option<Shape>
    ensures { option_map shape_type result ≡ Some (function params.now results.now) }
{
    Some(Shape { params, results })
}

/// The type of a function that returns a number of 32 or 64 bits of this type.
fn getter(value: core_types::ValType) -> Option<Shape>
    ensures { option_map shape_type result ≡ getter value }
{
    match value {
        core_types::ValType::I32 => asks(&[], &[I32]),
        core_types::ValType::I64 => asks(&[], &[I64]),
        _ => None,
    }
}

/// The type of a function that takes a number of 32 or 64 bits of this type.
fn setter(value: core_types::ValType) -> Option<Shape>
    ensures { option_map shape_type result ≡ setter value }
{
    match value {
        core_types::ValType::I32 => asks(&[I32], &[]),
        core_types::ValType::I64 => asks(&[I64], &[]),
        _ => None,
    }
}

/// The built-in functions on streams and futures.
fn payload_function(import: &Import) -> Option<Shape>
    ensures { option_map shape_type result ≡ payload_function import.now }
{
    match import {
        Import::StreamNew(_) | Import::FutureNew(_) => asks(&[], &[I64]),
        Import::StreamRead { .. } | Import::StreamWrite { .. } => asks(&[I32, I32, I32], &[I32]),
        Import::FutureRead { .. } | Import::FutureWrite { .. } => asks(&[I32, I32], &[I32]),
        Import::StreamCancelRead { .. }
        | Import::StreamCancelWrite { .. }
        | Import::FutureCancelRead { .. }
        | Import::FutureCancelWrite { .. } => asks(&[I32], &[I32]),
        Import::StreamDropReadable(_)
        | Import::StreamDropWritable(_)
        | Import::FutureDropReadable(_)
        | Import::FutureDropWritable(_) => asks(&[I32], &[]),
        _ => None,
    }
}

/// The built-in functions on resources, tasks, waitables, error contexts and the slots of a task's context.
fn built_in(import: &Import) -> Option<Shape>
    ensures { option_map shape_type result ≡ built_in import.now }
{
    match import {
        Import::ImportedResourceDrop(..)
        | Import::ExportedResourceDrop(..)
        | Import::WaitableSetDrop
        | Import::SubtaskDrop
        | Import::ErrorContextDrop => asks(&[I32], &[]),
        Import::ExportedResourceRep(..)
        | Import::ExportedResourceNew(..)
        | Import::SubtaskCancel { .. } => asks(&[I32], &[I32]),
        Import::ExportedTaskCancel | Import::BackpressureInc | Import::BackpressureDec => {
            asks(&[], &[])
        }
        Import::WaitableSetNew => asks(&[], &[I32]),
        Import::WaitableSetWait | Import::WaitableSetPoll | Import::ErrorContextNew { .. } => {
            asks(&[I32, I32], &[I32])
        }
        Import::WaitableJoin | Import::ErrorContextDebugMessage { .. } => asks(&[I32, I32], &[]),
        Import::ContextGet { ty, .. } | Import::TlsBaseGet { ty } => getter(*ty),
        Import::ContextSet { ty, .. } | Import::TlsBaseSet { ty } => setter(*ty),
        _ => None,
    }
}

/// The type of the built-in function of an import's role.
pub(crate) fn intrinsic(import: &Import) -> Option<Shape>
    ensures { option_map shape_type result ≡ intrinsic import.now }
{
    match built_in(import) {
        Some(shape) => Some(shape),
        None => payload_function(import),
    }
}

/// The type of a role that has the same type in every world.
pub(crate) fn plain_export(export: &Export) -> Option<Shape>
    ensures { option_map shape_type result ≡ plain_export export.now }
{
    match export {
        Export::WorldFuncCallback(_) | Export::InterfaceFuncCallback(..) => {
            asks(&[I32, I32, I32], &[I32])
        }
        Export::ResourceDtor(_) | Export::WasmTaskHook => asks(&[I32], &[]),
        Export::GeneralPurposeRealloc
        | Export::GeneralPurposeImportRealloc
        | Export::GeneralPurposeExportRealloc
        | Export::ReallocForAdapter => asks(&[I32, I32, I32, I32], &[I32]),
        Export::Initialize => asks(&[], &[]),
        _ => None,
    }
}
