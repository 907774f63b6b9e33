//! The parts of a module of shims in the table form, and the segment that fills its table.
//!
//! Core standard, structure: tables, element segments.

ghost use Rattle.std.specs.Prelude.{◌≡◌, ◌≤◌, ◌^◌, ◌∷◌, ◌++◌, [], length, IfOk, OnOk};
ghost use Rattle.core_runs.specs.Bodies as bodies;

use crate::bodies::table_shim_body;
use comp_lists::Seq;
use core_bytes::{Code, ElementSegment};
use core_types::{RefType, TableType};
use std::alloc::{AllocError, Global};

/// A shim, as far as its code needs it: how many parameters it has, and the index of its type.
#[derive(Clone, Copy, PartialEq, Eq, Debug)]
pub struct Shim {
    pub params: u32,
    pub type_index: u32,
}

/// The bodies of shims, in order: each calls through the slot of its own number, from 0 on.
pub fn table_shim_bodies(alloc: Global, shims: &[Shim]) -> Result<Code, AllocError>
    requires count { length shims.now ≤ 2 ^ 32 }
    ensures { IfOk result (λ made. made ≡ bodies.table_shims 0 shims.now) }
{
    let mut code = Code::new(alloc);
    for (slot_index, shim) in shims.iter().enumerate() {
        put_shim(&mut code, alloc, slot_index as u32, *shim)?;
    }
    Ok(code)
}

/// The body of one more shim.
fn put_shim(code: &mut Code, alloc: Global, slot_index: u32, shim: Shim) -> Result<(), AllocError>
    ensures { OnOk result
        (code.new ≡ code.old ++ bodies.table_shim shim.params slot_index shim.type_index ∷ []) }
{
    let body = table_shim_body(alloc, shim.params, slot_index, shim.type_index)?;
    code.body(body.locals.as_slice(), body.instructions.as_slice())
}

/// The table of so many shims: a slot for each, and no more.
pub fn table_of_shims(count: u32) -> TableType
    ensures { result ≡ bodies.table_of_shims count }
{
    TableType {
        element_type: RefType::FuncRef,
        minimum: count,
        maximum: Some(count),
    }
}

/// The segment that fills table 0 from slot 0 on, by the indices of functions, in the order of slots.
pub fn table_fill(alloc: Global, functions: &[u32]) -> Result<ElementSegment, AllocError>
    ensures { IfOk result (λ made. made ≡ bodies.table_fill functions.now) }
{
    let functions = Seq::from_vec(Vec::from_slice(alloc, functions)?);
    Ok(ElementSegment::Active {
        table: None,
        offset: 0,
        functions,
    })
}
