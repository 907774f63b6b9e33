//! How types become core values (Canonical ABI: `flatten_type`).

ghost use Rattle.std.specs.Prelude.{◌≡◌, ◌<◌, ◌≤◌, ◌++◌, ◌∷◌, length, get_or, min, ◌+◌, [], IfOk, OnOk};
ghost use Rattle.std.specs.List.{flat_map};
ghost use Rattle.wit_data.specs.Values.{values, part_values};
ghost use Rattle.wit_data.specs.Parts.{RefersBack, IsBelow, height};
ghost use Rattle.wit_data.specs.Flat.{flat, flat_primitive, flattening, join, join_lists, joined, shape};
ghost use Rattle.wit_data.specs.declared.signatures.WasmType.TheVariants.{I32};

use crate::parts::{part_count_of, part_of};
use crate::signatures::WasmType;
use crate::types::{Type, TypeDef, TypeDefKind};
use standard_kinds::Primitive;
use std::alloc::{AllocError, Global};

/// How the core values of a type follow from those of the types that it names.
#[derive(Clone, Copy, Debug, PartialEq, Eq)]
pub(crate) enum Shape {
    /// One number, whatever it names.
    Single,
    /// A pointer and a length.
    Pair,
    /// Those of all parts, one after the other.
    Product,
    /// A number for the case, and the core values of the cases, joined index by index.
    Sum,
}

/// How the core values of a type of this kind follow from those of the types that it names.
fn shape_of(kind: &TypeDefKind) -> Shape
    ensures { result ≡ shape kind.now }
{
    match kind {
        TypeDefKind::Record(_) => Shape::Product,
        TypeDefKind::Variant(_) => Shape::Sum,
        TypeDefKind::Enum(_) => Shape::Single,
        TypeDefKind::Flags(_) => Shape::Single,
        TypeDefKind::Tuple(_) => Shape::Product,
        TypeDefKind::Option(_) => Shape::Sum,
        TypeDefKind::Result(_) => Shape::Sum,
        TypeDefKind::List(_) => Shape::Pair,
        TypeDefKind::Own(_) => Shape::Single,
        TypeDefKind::Borrow(_) => Shape::Single,
        TypeDefKind::Resource => Shape::Single,
        TypeDefKind::Stream(_) => Shape::Single,
        TypeDefKind::Future(_) => Shape::Single,
        TypeDefKind::Alias(_) => Shape::Product,
    }
}

/// The least count of core values that no function has parameters for.
pub(crate) const MANY: usize = 17;

/// How many core values a type has, or 17 if there are more.
#[cycle(counting)]
pub(crate) fn flat_count(types: &[TypeDef], part: Option<Type>) -> usize
    requires back { RefersBack types.now }
    requires present { IsBelow (length types.now) part }
    ensures count { result ≡ min (length (flat types.now part)) 17 }
    ensures small { result ≤ 17 }
{
    match part {
        None => 0,
        Some(Type::Primitive(primitive)) => primitive_count(primitive),
        Some(Type::Id(id)) => shape_count(types, id.index),
    }
}

fn primitive_count(primitive: Primitive) -> usize
    ensures { result ≡ length (flat_primitive primitive) }
{
    match primitive {
        Primitive::String => 2,
        _ => 1,
    }
}

#[cycle(counting)]
fn shape_count(types: &[TypeDef], id: usize) -> usize
    requires back { RefersBack types.now }
    requires present { id < length types.now }
    ensures { result ≡ min (length (get_or (values flattening types.now) id [])) 17 }
{
    match shape_of(&types[id].kind) {
        Shape::Single => 1,
        Shape::Pair => 2,
        Shape::Product => count_together(types, id),
        Shape::Sum => tagged_count(count_of_longest(types, id)),
    }
}

/// The count with one more core value, the number of the case.
fn tagged_count(count: usize) -> usize
    requires { count ≤ 17 }
    ensures { result ≡ min (1 + count) 17 }
{
    if count < MANY { 1 + count } else { MANY }
}

/// The core values of all parts together.
#[cycle(counting)]
fn count_together(types: &[TypeDef], id: usize) -> usize
    requires back { RefersBack types.now }
    requires present { id < length types.now }
    ensures { result ≡ min (length (flat_map (λ f. f) (part_values flattening types.now id))) 17 }
{
    let mut total: usize = 0;
    for index in 0..part_count_of(types, id) {
        total += flat_count(types, part_of(types, id, index));
        if total >= MANY {
            return MANY;
        }
    }
    total
}

/// The count of core values of the part that has most.
#[cycle(counting)]
fn count_of_longest(types: &[TypeDef], id: usize) -> usize
    requires back { RefersBack types.now }
    requires present { id < length types.now }
    ensures { result ≡ min (length (joined [] (part_values flattening types.now id))) 17 }
{
    let mut most: usize = 0;
    for index in 0..part_count_of(types, id) {
        let count = flat_count(types, part_of(types, id, index));
        if count >= MANY {
            return MANY;
        }
        most = most.max(count);
    }
    most
}

/// Appends the core values of a type.
#[cycle(listing)]
pub(crate) fn flatten(
    types: &[TypeDef],
    part: Option<Type>,
    alloc: Global,
    out: &mut Vec<WasmType>,
) -> Result<(), AllocError>
    requires back { RefersBack types.now }
    requires present { IsBelow (length types.now) part }
    ensures { OnOk result (out.new.items ≡ out.old.items ++ flat types.now part) }
{
    match part {
        None => Ok(()),
        Some(Type::Primitive(primitive)) => flatten_primitive(primitive, out),
        Some(Type::Id(id)) => flatten_shape(types, id.index, alloc, out),
    }
}

fn flatten_primitive(primitive: Primitive, out: &mut Vec<WasmType>) -> Result<(), AllocError>
    ensures { OnOk result (out.new.items ≡ out.old.items ++ flat_primitive primitive) }
{
    match primitive {
        Primitive::S64 => push_type(out, WasmType::I64),
        Primitive::U64 => push_type(out, WasmType::I64),
        Primitive::F32 => push_type(out, WasmType::F32),
        Primitive::F64 => push_type(out, WasmType::F64),
        Primitive::String => push_pair(out),
        _ => push_type(out, WasmType::I32),
    }
}

fn push_type(out: &mut Vec<WasmType>, ty: WasmType) -> Result<(), AllocError>
    ensures { OnOk result (out.new.items ≡ out.old.items ++ ty ∷ []) }
{
    out.push(ty)?;
    Ok(())
}

/// Appends a pointer and a length.
fn push_pair(out: &mut Vec<WasmType>) -> Result<(), AllocError>
    ensures { OnOk result (out.new.items ≡ out.old.items ++ I32 ∷ I32 ∷ []) }
{
    out.push(WasmType::I32)?;
    out.push(WasmType::I32)?;
    Ok(())
}

#[cycle(listing)]
fn flatten_shape(
    types: &[TypeDef],
    id: usize,
    alloc: Global,
    out: &mut Vec<WasmType>,
) -> Result<(), AllocError>
    requires back { RefersBack types.now }
    requires present { id < length types.now }
    ensures { OnOk result
        (out.new.items ≡ out.old.items ++ get_or (values flattening types.now) id []) }
{
    match shape_of(&types[id].kind) {
        Shape::Single => push_type(out, WasmType::I32),
        Shape::Pair => push_pair(out),
        Shape::Product => flatten_together(types, id, alloc, out),
        Shape::Sum => flatten_cases(types, id, alloc, out),
    }
}

/// Appends the core values of all parts, one after the other.
#[cycle(listing)]
fn flatten_together(
    types: &[TypeDef],
    id: usize,
    alloc: Global,
    out: &mut Vec<WasmType>,
) -> Result<(), AllocError>
    requires back { RefersBack types.now }
    requires present { id < length types.now }
    ensures { OnOk result
        (out.new.items ≡ out.old.items ++ flat_map (λ f. f) (part_values flattening types.now id)) }
{
    for index in 0..part_count_of(types, id) {
        flatten(types, part_of(types, id, index), alloc, out)?;
    }
    Ok(())
}

/// Appends the number of the case, and the core values that hold those of each case.
#[cycle(listing)]
fn flatten_cases(
    types: &[TypeDef],
    id: usize,
    alloc: Global,
    out: &mut Vec<WasmType>,
) -> Result<(), AllocError>
    requires back { RefersBack types.now }
    requires present { id < length types.now }
    ensures { OnOk result
        (out.new.items ≡ out.old.items ++ I32 ∷ joined [] (part_values flattening types.now id)) }
{
    let mut values = joined_cases(types, id, alloc)?;
    out.push(WasmType::I32)?;
    out.append(&mut values)
}

/// The core values that hold those of each case.
#[cycle(listing)]
fn joined_cases(types: &[TypeDef], id: usize, alloc: Global) -> Result<Vec<WasmType>, AllocError>
    requires back { RefersBack types.now }
    requires present { id < length types.now }
    ensures { IfOk result
        (λ values. values.items ≡ joined [] (part_values flattening types.now id)) }
{
    let mut values = Vec::new(alloc);
    for index in 0..part_count_of(types, id) {
        let mut case = Vec::new(alloc);
        flatten(types, part_of(types, id, index), alloc, &mut case)?;
        join_into(&mut values, case.as_slice())?;
    }
    Ok(values)
}

/// Makes each value one that also holds the other list's value at its index, and appends the other list's rest.
fn join_into(values: &mut Vec<WasmType>, others: &[WasmType]) -> Result<(), AllocError>
    ensures { OnOk result (values.new.items ≡ join_lists values.old.items others.now) }
{
    for index in 0..others.len() {
        if index < values.len() {
            values[index] = joined_type(values[index], others[index]);
        } else {
            values.push(others[index])?;
        }
    }
    Ok(())
}

/// The type of a core value that holds either (Canonical ABI: `join`).
fn joined_type(one: WasmType, other: WasmType) -> WasmType
    ensures { result ≡ join one other }
{
    match (one, other) {
        (WasmType::I32, WasmType::I32) => WasmType::I32,
        (WasmType::I32, WasmType::F32) => WasmType::I32,
        (WasmType::F32, WasmType::I32) => WasmType::I32,
        (WasmType::F32, WasmType::F32) => WasmType::F32,
        (WasmType::F64, WasmType::F64) => WasmType::F64,
        _ => WasmType::I64,
    }
}
