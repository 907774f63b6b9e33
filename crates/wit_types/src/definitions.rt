//! The definition of a type, from the value types of its parts.

ghost use Rattle.std.specs.Prelude.{◌≡◌, IfOk, Some, option_map};
ghost use Rattle.comp_bytes.specs.declared.types.DefinedType.TheVariants as defined;
ghost use Rattle.wit_types.specs.Definitions.{fields_of, cases_of, members_of, first, second, definition};

use comp_bytes::{Case, ComponentValType, DefinedType, Field};
use comp_lists::{Seq, Text};
use std::alloc::{AllocError, Global};
use wit_data::TypeDefKind;

/// The value type of the first part.
pub(crate) fn first(parts: &[Option<ComponentValType>]) -> Option<ComponentValType>
    ensures { result ≡ first parts.now }
{
    match parts.first() {
        Some(part) => *part,
        None => None,
    }
}

/// The value type of the second part.
fn second(parts: &[Option<ComponentValType>]) -> Option<ComponentValType>
    ensures { result ≡ second parts.now }
{
    match parts.split_first() {
        Some((_, rest)) => first(rest),
        None => None,
    }
}

/// The fields of a record, with the value types of its parts.
fn fields_of(
    alloc: Global,
    fields: &[wit_data::Field],
    parts: &[Option<ComponentValType>],
) -> Result<Seq<Field>, AllocError>
    ensures { IfOk result (λ made. made ≡ fields_of fields.now parts.now) }
{
    let mut made = Seq::new(alloc);
    let mut rest = parts;
    for field in fields {
        let Some((Some(ty), others)) = rest.split_first() else {
            return Ok(made);
        };
        let name = field.name.clone(alloc)?;
        made.push(Field { name, ty: *ty })?;
        rest = others;
    }
    Ok(made)
}

/// The cases of a variant, with the value types of its parts.
fn cases_of(
    alloc: Global,
    cases: &[wit_data::Case],
    parts: &[Option<ComponentValType>],
) -> Result<Seq<Case>, AllocError>
    ensures { IfOk result (λ made. made ≡ cases_of cases.now parts.now) }
{
    let mut made = Seq::new(alloc);
    let mut rest = parts;
    for case in cases {
        let Some((ty, others)) = rest.split_first() else {
            return Ok(made);
        };
        let name = case.name.clone(alloc)?;
        made.push(Case { name, ty: *ty })?;
        rest = others;
    }
    Ok(made)
}

/// The members of a tuple.
fn members_of(
    alloc: Global,
    parts: &[Option<ComponentValType>],
) -> Result<Seq<ComponentValType>, AllocError>
    ensures { IfOk result (λ made. made ≡ members_of parts.now) }
{
    let mut made = Seq::new(alloc);
    for part in parts {
        let Some(ty) = part else {
            return Ok(made);
        };
        made.push(*ty)?;
    }
    Ok(made)
}

fn record_of(
    alloc: Global,
    fields: &[wit_data::Field],
    parts: &[Option<ComponentValType>],
) -> Result<Option<DefinedType>, AllocError>
    ensures { IfOk result (λ made. made ≡ Some (defined.Record (fields_of fields.now parts.now))) }
{
    Ok(Some(DefinedType::Record(fields_of(alloc, fields, parts)?)))
}

fn variant_of(
    alloc: Global,
    cases: &[wit_data::Case],
    parts: &[Option<ComponentValType>],
) -> Result<Option<DefinedType>, AllocError>
    ensures { IfOk result (λ made. made ≡ Some (defined.Variant (cases_of cases.now parts.now))) }
{
    Ok(Some(DefinedType::Variant(cases_of(alloc, cases, parts)?)))
}

fn tuple_of(
    alloc: Global,
    parts: &[Option<ComponentValType>],
) -> Result<Option<DefinedType>, AllocError>
    ensures { IfOk result (λ made. made ≡ Some (defined.Tuple (members_of parts.now))) }
{
    Ok(Some(DefinedType::Tuple(members_of(alloc, parts)?)))
}

fn enum_of(alloc: Global, names: &Seq<Text>) -> Result<Option<DefinedType>, AllocError>
    ensures { IfOk result (λ made. made ≡ Some (defined.Enum names.now)) }
{
    Ok(Some(DefinedType::Enum(names.clone(alloc)?)))
}

fn flags_of(alloc: Global, names: &Seq<Text>) -> Result<Option<DefinedType>, AllocError>
    ensures { IfOk result (λ made. made ≡ Some (defined.Flags names.now)) }
{
    Ok(Some(DefinedType::Flags(names.clone(alloc)?)))
}

fn list_of(part: Option<ComponentValType>) -> Option<DefinedType>
    ensures { result ≡ option_map defined.List part }
{
    match part {
        Some(ty) => Some(DefinedType::List(ty)),
        None => None,
    }
}

fn option_of(part: Option<ComponentValType>) -> Option<DefinedType>
    ensures { result ≡ option_map defined.Option part }
{
    match part {
        Some(ty) => Some(DefinedType::Option(ty)),
        None => None,
    }
}

/// The definition of a type of a kind, where its parts have these value types. Handles, resources and other names for
/// types have none.
pub(crate) fn definition(
    alloc: Global,
    kind: &TypeDefKind,
    parts: &[Option<ComponentValType>],
) -> Result<Option<DefinedType>, AllocError>
    ensures { IfOk result (λ made. made ≡ definition kind.now parts.now) }
{
    match kind {
        TypeDefKind::Record(fields) => record_of(alloc, fields.as_slice(), parts),
        TypeDefKind::Variant(cases) => variant_of(alloc, cases.as_slice(), parts),
        TypeDefKind::Enum(names) => enum_of(alloc, names),
        TypeDefKind::Flags(names) => flags_of(alloc, names),
        TypeDefKind::Tuple(_) => tuple_of(alloc, parts),
        TypeDefKind::Option(_) => Ok(option_of(second(parts))),
        TypeDefKind::Result(_) => Ok(Some(DefinedType::Result {
            ok: first(parts),
            err: second(parts),
        })),
        TypeDefKind::List(_) => Ok(list_of(first(parts))),
        TypeDefKind::Own(_) => Ok(None),
        TypeDefKind::Borrow(_) => Ok(None),
        TypeDefKind::Resource => Ok(None),
        TypeDefKind::Stream(_) => Ok(Some(DefinedType::Stream(first(parts)))),
        TypeDefKind::Future(_) => Ok(Some(DefinedType::Future(first(parts)))),
        TypeDefKind::Alias(_) => Ok(None),
    }
}
