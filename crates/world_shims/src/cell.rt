//! The cell of the thread-local base: the type of what it holds, and the types of its functions.

ghost use Rattle.std.specs.Prelude.{◌≡◌, ◌+◌, ◌<◌, ◌≤◌, ◌^◌, length, Some, IfOk, OnOk, IfErr, IsSome};
ghost use Rattle.comp_roles.specs.CoreImports.{fields_of};
ghost use Rattle.comp_worlds.specs.Bases.{base_of_role, cell_type, AreBasesAlike, HasUnlikeBases};
ghost use Rattle.core_runs.specs.Cells as cells;
ghost use Rattle.world_shims.specs.Cells.{is_base, unless_base, other_base, base_in_fields, base_in_groups, base_in_adapters, base_in_world};
ghost use Rattle.world_shims.specs.Refusals.{IsFullOrMemory, HasTooMany, cell_count};
ghost use Rattle.world_shims.specs.WorldShims.{with_cell_types, cell_of};

use byte_encoding::{BuildFault, next_count};
use comp_lists::{Keyed, Seq, Text};
use comp_roles::{Import, ImportInstance};
use comp_worlds::{ComponentWorld, WorldAdapter};
use core_types::{FuncType, ValType};
use interned_types::CoreTypes;
use shim_modules::ThreadCell;
use std::alloc::{AllocError, Global};
use thiserror::Error;

/// Why one cell can't hold the base of thread-local data of all modules.
#[derive(Clone, Copy, Debug, PartialEq, Eq, Error)]
pub enum CellFault {
    /// Two core imports read or set bases of different types.
    #[error("S6 TlsTypes")]
    TlsTypes,
}

// ---- the type of what the cell holds

/// The type of the base that an import reads or sets, if it is one that does.
fn base_of_role(role: &Import) -> Option<ValType>
    ensures { result ≡ base_of_role role.now }
{
    match role {
        Import::TlsBaseGet { ty } | Import::TlsBaseSet { ty } => Some(*ty),
        _ => None,
    }
}

/// Whether a base has this type, where there is one to compare with.
fn is_base(known: Option<ValType>, ty: ValType) -> bool
    ensures { result ≡ is_base known ty }
{
    match known {
        None => false,
        Some(known) => known == ty,
    }
}

/// The type of a base, unless it is this one.
fn unless_base(known: Option<ValType>, ty: ValType) -> Option<ValType>
    ensures { result ≡ unless_base known ty }
{
    if is_base(known, ty) { None } else { Some(ty) }
}

/// The type of the base that an import reads or sets, unless it is this one.
fn other_base(known: Option<ValType>, role: &Import) -> Option<ValType>
    ensures { result ≡ other_base known role.now }
{
    match base_of_role(role) {
        None => None,
        Some(ty) => unless_base(known, ty),
    }
}

/// The first such type among the fields that are imported from one module.
fn base_in_fields(known: Option<ValType>, fields: &Keyed<Text, Import>) -> Option<ValType>
    ensures { result ≡ base_in_fields known fields.now }
{
    for (_, role) in fields.iter() {
        if let Some(ty) = other_base(known, role) {
            return Some(ty);
        }
    }
    None
}

/// The same among the imports from one module.
fn base_in_group(known: Option<ValType>, instance: &ImportInstance) -> Option<ValType>
    ensures { result ≡ base_in_fields known (fields_of instance.now) }
{
    match instance {
        ImportInstance::Names(fields) => base_in_fields(known, fields),
        ImportInstance::Whole(_) => None,
    }
}

/// The same among all imports of a module.
fn base_in_groups(known: Option<ValType>, groups: &Keyed<Text, ImportInstance>) -> Option<ValType>
    ensures { result ≡ base_in_groups known groups.now }
{
    for (_, instance) in groups.iter() {
        if let Some(ty) = base_in_group(known, instance) {
            return Some(ty);
        }
    }
    None
}

/// The same among the imports of the adapters.
fn base_in_adapters(known: Option<ValType>, adapters: &Keyed<Text, WorldAdapter>) -> Option<ValType>
    ensures { result ≡ base_in_adapters known adapters.now }
{
    for (_, adapter) in adapters.iter() {
        if let Some(ty) = base_in_groups(known, &adapter.info.imports.modules) {
            return Some(ty);
        }
    }
    None
}

/// The same among the imports of all modules.
fn base_in_world(known: Option<ValType>, world: &ComponentWorld) -> Option<ValType>
    ensures { result ≡ base_in_world known world.now }
{
    match base_in_groups(known, &world.main.imports.modules) {
        Some(ty) => Some(ty),
        None => base_in_adapters(known, &world.adapters),
    }
}

/// The type of what the cell of the thread-local base holds, where some module uses one: none does
/// where slot 1 of a task's context can be used. It is refused exactly where two modules name
/// different types.
#[tactic(auto, using(crate::proofs::Bases::none_needed, crate::proofs::Bases::first_is, crate::proofs::Bases::all_alike, crate::proofs::Bases::none_alike, crate::proofs::Bases::two_unlike))]
pub fn type_of_cell(world: &ComponentWorld) -> Result<Option<ValType>, CellFault>
    ensures ok { IfOk result (λ ty. ty ≡ cell_type world.now) }
    ensures alike { OnOk result (AreBasesAlike world.now) }
    ensures unlike { IfErr result (λ e. HasUnlikeBases world.now) }
{
    if world.can_use_context_slot_1 {
        return Ok(None);
    }
    let found = base_in_world(None, world);
    match base_in_world(found, world) {
        None => Ok(found),
        Some(_) => Err(CellFault::TlsTypes),
    }
}

// ---- its functions

/// The type of the function that reads a cell.
fn type_of_getter(alloc: Global, val_type: ValType) -> Result<FuncType, AllocError>
    ensures { IfOk result (λ ty. ty ≡ cells.getter_type val_type) }
{
    let mut results = Seq::new(alloc);
    results.push(val_type)?;
    Ok(FuncType {
        params: Seq::new(alloc),
        results,
    })
}

/// The type of the function that sets it.
fn type_of_setter(alloc: Global, val_type: ValType) -> Result<FuncType, AllocError>
    ensures { IfOk result (λ ty. ty ≡ cells.setter_type val_type) }
{
    let mut params = Seq::new(alloc);
    params.push(val_type)?;
    Ok(FuncType {
        params,
        results: Seq::new(alloc),
    })
}

/// A cell of a type, with the types of its functions interned; so many functions come before these.
/// It is refused where there would be more than 2^32 - 1 functions.
#[tactic(auto, using(crate::proofs::Beyond::getter_beyond, crate::proofs::Beyond::setter_beyond))]
fn cell_of_type(
    alloc: Global,
    types: &mut CoreTypes,
    val_type: ValType,
    count: u32,
) -> Result<ThreadCell, BuildFault>
    requires few { length types.old ≤ count }
    ensures types { OnOk result (types.new ≡ with_cell_types (Some val_type) types.old) }
    ensures ok { IfOk result (λ made. Some made ≡ cell_of (Some val_type) types.old) }
    ensures room { OnOk result (count + 1 < 2 ^ 32) }
    ensures cause { IfErr result IsFullOrMemory }
    ensures many { IfErr result (HasTooMany (count + 2)) }
{
    let last = next_count(count)?;
    next_count(last)?;
    let getter_type = types.intern(type_of_getter(alloc, val_type)?)?;
    let setter_type = types.intern(type_of_setter(alloc, val_type)?)?;
    Ok(ThreadCell {
        val_type,
        getter_type,
        setter_type,
    })
}

/// The same, where there is to be a cell.
pub(crate) fn thread_cell(
    alloc: Global,
    types: &mut CoreTypes,
    cell: Option<ValType>,
    count: u32,
) -> Result<Option<ThreadCell>, BuildFault>
    requires few { length types.old ≤ count }
    ensures types { OnOk result (types.new ≡ with_cell_types cell types.old) }
    ensures ok { IfOk result (λ made. made ≡ cell_of cell types.old) }
    ensures room { IfOk result (λ made. IsSome made → count + 1 < 2 ^ 32) }
    ensures cause { IfErr result IsFullOrMemory }
    ensures many { IfErr result (HasTooMany (count + cell_count cell)) }
{
    match cell {
        None => Ok(None),
        Some(val_type) => Ok(Some(cell_of_type(alloc, types, val_type, count)?)),
    }
}
