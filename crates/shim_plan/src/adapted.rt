//! The shims of functions that adapters export.

ghost use Rattle.std.specs.Prelude.{◌≡◌, [], ◌∷◌, ◌++◌, None, map, IfOk, IfSome, OnOk};
ghost use Rattle.std.specs.Option.{option_map};
ghost use Rattle.comp_roles.specs.Borrowed.{core_import};
ghost use Rattle.shim_plan.specs.Adapted as specs;
ghost use Rattle.shim_plan.specs.Needed.{call_of, returned_of};

use crate::kinds::ShimKind;
use crate::needs::{NeededShim, append};
use comp_lists::{Seq, Text};
use comp_options::RequiredOptions;
use comp_roles::{Import, NamedImport, has_numbers};
use core_types::{FuncType, ValType};
use std::alloc::{AllocError, Global};
use wit_data::{WasmSignature, WasmType};

/// A function that an adapter exports, as the role of an import.
#[derive(Clone, Copy)]
pub(crate) struct AdaptedFunction<'a> {
    pub adapter: &'a Text,
    pub func: &'a Text,
    pub ty: &'a FuncType,
}

/// The function that the role of an import names, if it is one that an adapter exports. Such a role
/// calls no function of the world, and returns from none.
pub(crate) fn adapted_of(role: &Import) -> Option<AdaptedFunction<'_>>
    ensures same { option_map specs.adapted_function result ≡ specs.adapted_of role.now }
    ensures no_call { IfSome result (λ _. call_of role.now ≡ None) }
    ensures no_return { IfSome result (λ _. returned_of role.now ≡ None) }
{
    match role {
        Import::AdapterExport { adapter, func, ty } => Some(AdaptedFunction { adapter, func, ty }),
        _ => None,
    }
}

/// The type of numbers; of another type, any.
fn number_type(ty: &ValType) -> WasmType
    ensures { result ≡ specs.number_type ty.now }
{
    match ty {
        ValType::I32 | ValType::Ref(_) => WasmType::I32,
        ValType::I64 => WasmType::I64,
        ValType::F32 => WasmType::F32,
        ValType::F64 => WasmType::F64,
    }
}

/// The types of numbers, in order.
fn number_types(alloc: Global, types: &[ValType]) -> Result<Seq<WasmType>, AllocError>
    ensures { IfOk result (λ list. list ≡ map specs.number_type types.now) }
{
    let mut list = Seq::new(alloc);
    for ty in types {
        list.push(number_type(ty))?;
    }
    Ok(list)
}

/// The core signature of a function of numbers, or `None` of one that has others.
fn adapted_sig(alloc: Global, ty: &FuncType) -> Result<Option<WasmSignature>, AllocError>
    ensures { IfOk result (λ sig. sig ≡ specs.adapted_sig ty.now) }
{
    if has_numbers(ty) {
        let params = number_types(alloc, ty.params.as_slice())?;
        let results = number_types(alloc, ty.results.as_slice())?;
        Ok(Some(WasmSignature {
            params,
            results,
            indirect_params: false,
            retptr: false,
        }))
    } else {
        Ok(None)
    }
}

/// The debug name of the shim of a function that an adapter exports.
fn adapted_name(alloc: Global, import: &NamedImport<'_>) -> Result<Text, AllocError>
    ensures { IfOk result (λ name. name ≡ specs.adapted_name (core_import import.now)) }
{
    let (from, field) = (import.from, import.field);
    Ok(Text::from_string(format!(in alloc; "adapt-{from}-{field}")?))
}

/// Adds the shim of a function that an adapter exports, with its signature.
fn add_with_sig(
    needs: &mut Vec<NeededShim>,
    alloc: Global,
    import: &NamedImport<'_>,
    function: &AdaptedFunction<'_>,
    sig: WasmSignature,
) -> Result<(), AllocError>
    ensures { OnOk result (needs.new.items
        ≡ needs.old.items ++ specs.adapted_shim (core_import import.now)
        (specs.adapted_function function.now) sig ∷ []) }
{
    let debug_name = adapted_name(alloc, import)?;
    let adapter = function.adapter.clone(alloc)?;
    let func = function.func.clone(alloc)?;
    append(
        needs,
        NeededShim {
            options: RequiredOptions::MEMORY,
            debug_name,
            kind: ShimKind::Adapter { adapter, func },
            sig,
        },
    )
}

/// Adds the shim of a function of numbers that an adapter exports.
pub(crate) fn add_adapted(
    needs: &mut Vec<NeededShim>,
    alloc: Global,
    import: &NamedImport<'_>,
    function: &AdaptedFunction<'_>,
) -> Result<(), AllocError>
    ensures { OnOk result (needs.new.items
        ≡ needs.old.items ++ specs.adapted_needs (core_import import.now)
        (specs.adapted_function function.now)) }
{
    match adapted_sig(alloc, function.ty)? {
        Some(sig) => add_with_sig(needs, alloc, import, function, sig),
        None => Ok(()),
    }
}
