//! Functions, and the forms in which they are called.

ghost use Rattle.std.specs.Prelude.{◌≡◌, IfOk};
ghost use Rattle.wit_data.specs.Signatures.{returning};

use crate::ids::TypeId;
use crate::types::Type;
use comp_lists::{Seq, Text};
use std::alloc::{AllocError, Global};

/// What a function is to a resource, and whether it is asynchronous (component model, WIT: `func`).
#[derive(Clone, Copy, Debug, PartialEq, Eq)]
pub enum FunctionKind {
    Freestanding,
    AsyncFreestanding,
    /// A function whose first parameter is a value of the resource.
    Method(TypeId),
    AsyncMethod(TypeId),
    /// A function that belongs to the resource.
    Static(TypeId),
    AsyncStatic(TypeId),
    /// A function that makes a value of the resource.
    Constructor(TypeId),
}

/// A parameter: its name and its type.
#[derive(Debug, Drop, PartialEq, Eq)]
pub struct Param {
    pub name: Text,
    pub ty: Type,
}

/// A function.
#[derive(Debug, PartialEq, Eq)]
pub struct Function {
    pub name: Text,
    pub kind: FunctionKind,
    pub params: Seq<Param>,
    pub result: Option<Type>,
}

impl Drop for Function {
    fn drop(self) {
        let Function {
            name: _,
            kind: _,
            params: _,
            result: _,
        } = self;
    }
}

/// The forms in which the Canonical ABI calls a function: who is the caller, and whether the caller waits.
#[derive(Clone, Copy, Debug, PartialEq, Eq, Hash)]
pub enum AbiVariant {
    GuestImport,
    GuestExport,
    GuestImportAsync,
    GuestExportAsync,
    /// An export that is asynchronous without a callback: it keeps its stack while it waits.
    GuestExportAsyncStackful,
}

/// The function that `task.return` of a function is called as: its one parameter is the result of
/// that (Canonical ABI: `canon task.return`).
pub fn returning(alloc: Global, function: &Function) -> Result<Function, AllocError>
    ensures { IfOk result (λ f. f ≡ returning function.now) }
{
    let mut params = Seq::new(alloc);
    if let Some(ty) = function.result {
        let name = Text::new(alloc);
        params.push(Param { name, ty })?;
    }
    Ok(Function {
        name: Text::new(alloc),
        kind: FunctionKind::Freestanding,
        params,
        result: None,
    })
}
