//! The module of shims.

ghost use Rattle.std.specs.Prelude.{◌≡◌, ◌+◌, ◌<◌, ◌≤◌, ◌^◌, [], ◌∷◌, ◌++◌, length, IfOk, OnOk, IfErr};
ghost use Rattle.interned_types.specs.Interning.{interned};
ghost use Rattle.world_shims.specs.Refusals.{IsFullOrMemory, HasTooMany, IsBeyond, AreTooMany, if_needed, cell_count};
ghost use Rattle.world_shims.specs.WorldShims.{type_of_shim, types_with, function_of, functions_of, sections_of_shims};

use crate::cell::thread_cell;
use crate::core_type::core_type;
use byte_encoding::{BuildFault, count_of, next_count};
use core_bytes::Module;
use core_types::{FuncType, MemoryType, ValType};
use interned_types::CoreTypes;
use shim_modules::{ShimFunction, shim_module};
use shim_plan::{Shim, Shims};
use std::alloc::Global;

/// How many parameters there are. It is refused where these are more than 2^32 - 1.
fn param_count(ty: &FuncType) -> Result<u32, BuildFault>
    ensures ok { IfOk result (λ count. count ≡ length ty.now.params) }
    ensures cause { IfErr result IsFullOrMemory }
    ensures many { IfErr result (HasTooMany (length ty.now.params)) }
{
    let none: &[ValType] = &[];
    let count = count_of(ty.params.as_slice(), none)?;
    Ok(count)
}

/// A shim as a function of its module, with its type interned.
#[tactic(auto, using(crate::proofs::Beyond::params_beyond, crate::proofs::Beyond::type_beyond))]
fn shim_function(
    alloc: Global,
    types: &mut CoreTypes,
    shim: &Shim,
) -> Result<ShimFunction, BuildFault>
    ensures types { OnOk result (types.new ≡ interned types.old (type_of_shim shim.now)) }
    ensures ok { IfOk result (λ function. function ≡ function_of types.old shim.now) }
    ensures cause { IfErr result IsFullOrMemory }
    ensures many { IfErr result (IsBeyond (length types.old + 1) shim.now) }
{
    let debug_name = shim.debug_name.clone(alloc)?;
    let ty = core_type(alloc, shim)?;
    let params = param_count(&ty)?;
    let type_index = types.intern(ty)?;
    Ok(ShimFunction {
        code: core_runs::Shim { params, type_index },
        debug_name,
    })
}

/// Adds one more function. It is refused where there would be more than 2^32 - 1, or as many types.
#[tactic(auto, using(crate::proofs::Beyond::beyond_more))]
fn add_function(
    alloc: Global,
    types: &mut CoreTypes,
    functions: &mut Vec<ShimFunction>,
    shim: &Shim,
) -> Result<(), BuildFault>
    requires room { length functions.old.items < 2 ^ 32 }
    requires few { length types.old ≤ length functions.old.items }
    ensures types { OnOk result (types.new ≡ interned types.old (type_of_shim shim.now)) }
    ensures functions { OnOk result
        (functions.new.items ≡ functions.old.items ++ function_of types.old shim.now ∷ []) }
    ensures room { OnOk result (length functions.new.items < 2 ^ 32) }
    ensures cause { IfErr result IsFullOrMemory }
    ensures many { IfErr result (IsBeyond (length functions.old.items + 1) shim.now) }
{
    next_count(functions.len() as u32)?;
    let function = shim_function(alloc, types, shim)?;
    functions.push(function)?;
    Ok(())
}

/// The functions of the module, whose types are interned in no types.
#[tactic(auto, using(crate::proofs::Listing::all_listed, crate::proofs::Listing::too_many))]
fn shim_functions(
    alloc: Global,
    types: &mut CoreTypes,
    shims: &Shims,
) -> Result<Vec<ShimFunction>, BuildFault>
    requires { types.old ≡ [] }
    ensures types { OnOk result (types.new ≡ types_with [] shims.now) }
    ensures ok { IfOk result (λ functions. functions.items ≡ functions_of [] shims.now) }
    ensures count { OnOk result (length shims.now < 2 ^ 32) }
    ensures room { IfOk result (λ functions. length functions.items < 2 ^ 32) }
    ensures counted { IfOk result (λ functions. length functions.items ≡ length shims.now) }
    ensures few { IfOk result (λ functions. length types.new ≤ length functions.items) }
    ensures cause { IfErr result IsFullOrMemory }
    ensures many { IfErr result (AreTooMany (length shims.now) shims.now) }
{
    let mut functions = Vec::new(alloc);
    for shim in shims.iter() {
        add_function(alloc, types, &mut functions, shim)?;
    }
    Ok(functions)
}

/// The module of shims, or `None` where there are no shims, no memory and no cell: the types of its
/// functions, each once; a function for each shim, in order, which forwards through the slot of its
/// place; the memory, for the module that imports it; and the cell of the thread-local base, of
/// this type, for all modules that use it, with the two functions that read and set it.
///
/// It is refused with [`BuildFault::TooMany`] only where there are more than 2^32 - 1 functions, or
/// parameters of a shim, and with [`BuildFault::Memory`] when out of memory.
///
/// Core standard, structure: modules.
#[tactic(auto, using(crate::proofs::Listing::made_if_needed, crate::proofs::Listing::shims_too_many, crate::proofs::Listing::cell_too_many))]
pub fn module_of_shims(
    alloc: Global,
    memory: Option<MemoryType>,
    cell: Option<ValType>,
    shims: &Shims,
    debug_names: bool,
) -> Result<Option<Module>, BuildFault>
    ensures ok { IfOk result (λ made. made
        ≡ if_needed memory cell shims.now
        (sections_of_shims memory cell shims.now debug_names)) }
    ensures count { OnOk result (length shims.now < 2 ^ 32) }
    ensures cause { IfErr result IsFullOrMemory }
    ensures many { IfErr result (AreTooMany (length shims.now + cell_count cell) shims.now) }
{
    let mut types = CoreTypes::new(alloc);
    let functions = shim_functions(alloc, &mut types, shims)?;
    let made = thread_cell(alloc, &mut types, cell, functions.len() as u32)?;
    let module = shim_module(
        alloc,
        memory,
        made,
        &types,
        functions.as_slice(),
        debug_names,
    )?;
    Ok(module)
}
