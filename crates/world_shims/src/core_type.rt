//! The core type of a shim.

ghost use Rattle.std.specs.Prelude.{◌≡◌, map, IfOk};
ghost use Rattle.comp_roles.specs.CoreTypes.{value_type};
ghost use Rattle.world_shims.specs.WorldShims.{type_of_shim};

use comp_lists::Seq;
use core_types::{FuncType, ValType};
use shim_plan::Shim;
use std::alloc::{AllocError, Global};
use wit_data::WasmType;

fn value_type(value: WasmType) -> ValType
    ensures { result ≡ value_type value }
{
    match value {
        WasmType::I32 => ValType::I32,
        WasmType::I64 => ValType::I64,
        WasmType::F32 => ValType::F32,
        WasmType::F64 => ValType::F64,
    }
}

fn value_types(alloc: Global, values: &[WasmType]) -> Result<Seq<ValType>, AllocError>
    ensures { IfOk result (λ types. types ≡ map value_type values.now) }
{
    let mut types = Seq::new(alloc);
    for value in values {
        types.push(value_type(*value))?;
    }
    Ok(types)
}

/// The core type of a shim: that of its signature.
pub(crate) fn core_type(alloc: Global, shim: &Shim) -> Result<FuncType, AllocError>
    ensures { IfOk result (λ ty. ty ≡ type_of_shim shim.now) }
{
    let params = value_types(alloc, shim.sig.params.as_slice())?;
    let results = value_types(alloc, shim.sig.results.as_slice())?;
    Ok(FuncType { params, results })
}
