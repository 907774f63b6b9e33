//! The sizes of types of values, which say too whether a type is one.
//!
//! Component model, binary format: `valtype`, `defvaltype`.

ghost use Rattle.std.specs.Prelude.{◌≡◌, ℕ, slice_get};
ghost use Rattle.package_types.specs.Sizes.{nothing, absent, combined, above};
ghost use Rattle.package_types.specs.Types.{◌>>>◌, entry_size, size_by, value_size, optional_size, types_size, fields_size, cases_size, resource_entry_size, resource_size_by, above_some, labels_size, flags_size, result_size, defined_size};

use crate::fault::Cause;
use crate::scopes::{Entry, Size};
use crate::sizes::{above, absent, combined, nothing, simple};
use comp_bytes::{Case as TypedCase, ComponentValType, DefinedType, Field};

fn entry_size(entry: &Entry) -> Result<Size, Cause>
    ensures { result ≡ entry_size entry.now }
{
    match entry {
        Entry::Name { name: _, facts } => Ok(facts.size),
        Entry::Type { nodes: _, size } => Ok(*size),
        Entry::Function(_) => Err(Cause::Index),
        Entry::Instance(_) => Err(Cause::Index),
    }
}

pub(crate) fn value_size(scope: &[Entry], ty: ComponentValType) -> Result<Size, Cause>
    ensures { result ≡ value_size scope.now ty }
{
    match ty {
        ComponentValType::Primitive(_) => Ok(simple()),
        ComponentValType::Defined(index) => match scope.get(index as usize) {
            Some(entry) => entry_size(entry),
            None => Err(Cause::Index),
        },
    }
}

pub(crate) fn optional_size(scope: &[Entry], ty: Option<ComponentValType>) -> Result<Size, Cause>
    ensures { result ≡ optional_size scope.now ty }
{
    match ty {
        Some(ty) => value_size(scope, ty),
        None => Ok(absent()),
    }
}

fn types_size(scope: &[Entry], types: &[ComponentValType]) -> Result<Size, Cause>
    ensures { result ≡ types_size scope.now types.now nothing }
{
    let mut size = nothing();
    for ty in types {
        let part = value_size(scope, *ty)?;
        size = combined(size, part);
    }
    Ok(size)
}

fn fields_size(scope: &[Entry], fields: &[Field]) -> Result<Size, Cause>
    ensures { result ≡ fields_size scope.now fields.now nothing }
{
    let mut size = nothing();
    for field in fields {
        let part = value_size(scope, field.ty)?;
        size = combined(size, part);
    }
    Ok(size)
}

fn cases_size(scope: &[Entry], cases: &[TypedCase]) -> Result<Size, Cause>
    ensures { result ≡ cases_size scope.now cases.now nothing }
{
    let mut size = nothing();
    for case in cases {
        let part = optional_size(scope, case.ty)?;
        size = combined(size, part);
    }
    Ok(size)
}

fn resource_entry_size(entry: &Entry) -> Result<Size, Cause>
    ensures { result ≡ resource_entry_size entry.now }
{
    match entry {
        Entry::Name { name: _, facts } => {
            if facts.is_resource {
                Ok(facts.size)
            } else {
                Err(Cause::Handle)
            }
        }
        Entry::Type { nodes: _, size: _ } => Err(Cause::Handle),
        Entry::Function(_) => Err(Cause::Handle),
        Entry::Instance(_) => Err(Cause::Handle),
    }
}

/// The size of a handle.
fn handle_size(scope: &[Entry], index: u32) -> Result<Size, Cause>
    ensures { result ≡ (resource_size_by (slice_get scope.now index) >>> λ size. above size) }
{
    match scope.get(index as usize) {
        Some(entry) => above(resource_entry_size(entry)?),
        None => Err(Cause::Index),
    }
}

/// The size of a type with so many parts, which have this size together.
fn above_some(count: usize, parts: Result<Size, Cause>) -> Result<Size, Cause>
    ensures { result ≡ above_some count parts }
{
    if count == 0 {
        return Err(Cause::Empty);
    }
    above(parts?)
}

fn labels_size(count: usize) -> Result<Size, Cause>
    ensures { result ≡ labels_size count }
{
    if count == 0 {
        return Err(Cause::Empty);
    }
    Ok(simple())
}

fn flags_size(count: usize) -> Result<Size, Cause>
    ensures { result ≡ flags_size count }
{
    if count > 32 {
        return Err(Cause::Flags);
    }
    labels_size(count)
}

#[tactic(auto, unfolding(crate::specs::Types::result_size))]
fn result_size(
    scope: &[Entry],
    ok: Option<ComponentValType>,
    err: Option<ComponentValType>,
) -> Result<Size, Cause>
    ensures { result ≡ result_size scope.now ok err }
{
    let good = optional_size(scope, ok)?;
    let bad = optional_size(scope, err)?;
    above(combined(good, bad))
}

/// The size of a type with one part.
fn list_size(scope: &[Entry], ty: ComponentValType) -> Result<Size, Cause>
    ensures { result ≡ (value_size scope.now ty >>> λ size. above size) }
{
    above(value_size(scope, ty)?)
}

fn option_size(scope: &[Entry], ty: ComponentValType) -> Result<Size, Cause>
    ensures { result ≡ (value_size scope.now ty >>> λ size. above (combined absent size)) }
{
    above(combined(absent(), value_size(scope, ty)?))
}

/// The size of a type with a part that may be absent.
fn carrying_size(scope: &[Entry], ty: Option<ComponentValType>) -> Result<Size, Cause>
    ensures { result ≡ (optional_size scope.now ty >>> λ size. above size) }
{
    above(optional_size(scope, ty)?)
}

/// The size of a type, which says too whether it is one.
pub(crate) fn defined_size(scope: &[Entry], ty: &DefinedType) -> Result<Size, Cause>
    ensures { result ≡ defined_size scope.now ty.now }
{
    match ty {
        DefinedType::Primitive(_) => Ok(simple()),
        DefinedType::Record(fields) => {
            above_some(fields.len(), fields_size(scope, fields.as_slice()))
        }
        DefinedType::Variant(cases) => above_some(cases.len(), cases_size(scope, cases.as_slice())),
        DefinedType::List(ty) => list_size(scope, *ty),
        DefinedType::Tuple(types) => above_some(types.len(), types_size(scope, types.as_slice())),
        DefinedType::Flags(names) => flags_size(names.len()),
        DefinedType::Enum(names) => labels_size(names.len()),
        DefinedType::Option(ty) => option_size(scope, *ty),
        DefinedType::Result { ok, err } => result_size(scope, *ok, *err),
        DefinedType::Own(index) => handle_size(scope, *index),
        DefinedType::Borrow(index) => handle_size(scope, *index),
        DefinedType::Stream(ty) => carrying_size(scope, *ty),
        DefinedType::Future(ty) => carrying_size(scope, *ty),
    }
}
