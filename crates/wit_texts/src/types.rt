//! Types as text: how each is made, and of what.

use comp_lists::{Seq, Text};
use std::alloc::{AllocError, Global};
use test_cases::{number, word_and_rest};
use wit_data::{Case, Field, Primitive, ResultType, Type, TypeDef, TypeDefKind, TypeId, TypeOwner};

fn primitive(word: &str) -> Option<Primitive> {
    match word {
        "bool" => Some(Primitive::Bool),
        "s8" => Some(Primitive::S8),
        "u8" => Some(Primitive::U8),
        "s16" => Some(Primitive::S16),
        "u16" => Some(Primitive::U16),
        "s32" => Some(Primitive::S32),
        "u32" => Some(Primitive::U32),
        "s64" => Some(Primitive::S64),
        "u64" => Some(Primitive::U64),
        "f32" => Some(Primitive::F32),
        "f64" => Some(Primitive::F64),
        "char" => Some(Primitive::Char),
        "string" => Some(Primitive::String),
        "error-context" => Some(Primitive::ErrorContext),
        _ => None,
    }
}

/// The type of this index.
pub fn id(text: &str) -> TypeId {
    TypeId {
        index: number(text),
    }
}

/// The type of a word.
pub fn type_of(word: &str) -> Type {
    match primitive(word) {
        Some(primitive) => Type::Primitive(primitive),
        None => Type::Id(id(word)),
    }
}

/// The type of a word, where it isn't `_` or empty.
pub fn part_of(word: &str) -> Option<Type> {
    match word {
        "_" | "" => None,
        _ => Some(type_of(word)),
    }
}

fn push_parts(parts: &mut Vec<Option<Type>>, word: &str) -> Result<(), AllocError> {
    let (name, count) = word.split_once("*").unwrap_or((word, "1"));
    let part = part_of(name);
    for _ in 0..number(count) {
        parts.push(part)?;
    }
    Ok(())
}

/// The parts that a text has.
pub(crate) fn parts_of(alloc: Global, text: &str) -> Result<Vec<Option<Type>>, AllocError> {
    let mut parts = Vec::new(alloc);
    for word in text.split_whitespace() {
        push_parts(&mut parts, word)?;
    }
    Ok(parts)
}

fn push_field(alloc: Global, fields: &mut Seq<Field>, ty: Type) -> Result<(), AllocError> {
    fields.push(Field {
        name: Text::new(alloc),
        ty,
    })?;
    Ok(())
}

fn record(alloc: Global, parts: &[Option<Type>]) -> Result<TypeDefKind, AllocError> {
    let mut fields = Seq::new(alloc);
    for part in parts {
        if let Some(ty) = part {
            push_field(alloc, &mut fields, *ty)?;
        }
    }
    Ok(TypeDefKind::Record(fields))
}

fn push_case(alloc: Global, cases: &mut Seq<Case>, ty: Option<Type>) -> Result<(), AllocError> {
    cases.push(Case {
        name: Text::new(alloc),
        ty,
    })?;
    Ok(())
}

fn variant(alloc: Global, parts: &[Option<Type>]) -> Result<TypeDefKind, AllocError> {
    let mut cases = Seq::new(alloc);
    for part in parts {
        push_case(alloc, &mut cases, *part)?;
    }
    Ok(TypeDefKind::Variant(cases))
}

fn tuple(alloc: Global, parts: &[Option<Type>]) -> Result<TypeDefKind, AllocError> {
    let mut types = Seq::new(alloc);
    for part in parts {
        if let Some(ty) = part {
            types.push(*ty)?;
        }
    }
    Ok(TypeDefKind::Tuple(types))
}

fn labels(alloc: Global, count: usize) -> Result<Seq<Text>, AllocError> {
    let mut labels = Seq::new(alloc);
    for _ in 0..count {
        labels.push(Text::new(alloc))?;
    }
    Ok(labels)
}

fn enumeration(alloc: Global, count: usize) -> Result<TypeDefKind, AllocError> {
    match labels(alloc, count) {
        Ok(labels) => Ok(TypeDefKind::Enum(labels)),
        Err(refused) => Err(refused),
    }
}

fn flags(alloc: Global, count: usize) -> Result<TypeDefKind, AllocError> {
    match labels(alloc, count) {
        Ok(labels) => Ok(TypeDefKind::Flags(labels)),
        Err(refused) => Err(refused),
    }
}

fn result_type(text: &str) -> ResultType {
    let (ok, err) = word_and_rest(text);
    ResultType {
        ok: part_of(ok),
        err: part_of(err),
    }
}

/// A kind that owns nothing.
fn plain_kind(word: &str, rest: &str) -> TypeDefKind {
    match word {
        "option" => TypeDefKind::Option(type_of(rest)),
        "result" => TypeDefKind::Result(result_type(rest)),
        "list" => TypeDefKind::List(type_of(rest)),
        "own" => TypeDefKind::Own(id(rest)),
        "borrow" => TypeDefKind::Borrow(id(rest)),
        "resource" => TypeDefKind::Resource,
        "stream" => TypeDefKind::Stream(part_of(rest)),
        "future" => TypeDefKind::Future(part_of(rest)),
        _ => TypeDefKind::Alias(type_of(rest)),
    }
}

fn kind_of(
    alloc: Global,
    word: &str,
    rest: &str,
    parts: &[Option<Type>],
) -> Result<TypeDefKind, AllocError> {
    match word {
        "record" => record(alloc, parts),
        "variant" => variant(alloc, parts),
        "tuple" => tuple(alloc, parts),
        "enum" => enumeration(alloc, number(rest)),
        "flags" => flags(alloc, number(rest)),
        _ => Ok(plain_kind(word, rest)),
    }
}

/// The kind of a type.
pub fn kind(alloc: Global, text: &str) -> Result<TypeDefKind, AllocError> {
    let (word, rest) = word_and_rest(text);
    if !matches!(word, "record" | "variant" | "tuple") {
        return kind_of(alloc, word, rest, &[]);
    }
    let parts = parts_of(alloc, rest)?;
    kind_of(alloc, word, rest, parts.as_slice())
}

/// A type of this kind, which has no name and no owner.
fn unnamed(kind: TypeDefKind) -> TypeDef {
    TypeDef {
        name: None,
        kind,
        owner: TypeOwner::None,
    }
}

/// Adds a type without a name.
pub fn push_type(alloc: Global, types: &mut Seq<TypeDef>, text: &str) -> Result<(), AllocError> {
    let ty = unnamed(kind(alloc, text)?);
    types.push(ty)?;
    Ok(())
}

/// The types of a text.
pub(crate) fn types_of(alloc: Global, text: &str) -> Result<Seq<TypeDef>, AllocError> {
    let mut types = Seq::new(alloc);
    for part in text.split("; ") {
        if !part.is_empty() {
            push_type(alloc, &mut types, part)?;
        }
    }
    Ok(types)
}
