//! Types.

use crate::ids::{InterfaceId, TypeId, WorldId};
use comp_lists::{Seq, Text, TryClone};
use standard_kinds::Primitive;
use std::alloc::{AllocError, Global};

/// A type as others name it: a primitive one, or one of the resolve's (component model, WIT: `ty`).
#[derive(Clone, Copy, Debug, PartialEq, Eq, Hash)]
pub enum Type {
    Primitive(Primitive),
    Id(TypeId),
}

/// A field of a record.
#[derive(Debug, Drop, PartialEq, Eq, Hash)]
pub struct Field {
    pub name: Text,
    pub ty: Type,
}

/// A case of a variant.
#[derive(Debug, Drop, PartialEq, Eq, Hash)]
pub struct Case {
    pub name: Text,
    pub ty: Option<Type>,
}

/// The types of a result's success and failure values.
#[derive(Clone, Copy, Debug, PartialEq, Eq, Hash)]
pub struct ResultType {
    pub ok: Option<Type>,
    pub err: Option<Type>,
}

/// What a type is (component model, WIT: `typedef-item`, `ty`).
#[derive(Debug, PartialEq, Eq, Hash)]
pub enum TypeDefKind {
    Record(Seq<Field>),
    Variant(Seq<Case>),
    Enum(Seq<Text>),
    Flags(Seq<Text>),
    Tuple(Seq<Type>),
    Option(Type),
    Result(ResultType),
    List(Type),
    Own(TypeId),
    Borrow(TypeId),
    Resource,
    Stream(Option<Type>),
    Future(Option<Type>),
    /// Another name for a type.
    Alias(Type),
}

impl Drop for TypeDefKind {
    fn drop(self) {
        match self {
            TypeDefKind::Record(_) => {}
            TypeDefKind::Variant(_) => {}
            TypeDefKind::Enum(_) => {}
            TypeDefKind::Flags(_) => {}
            TypeDefKind::Tuple(_) => {}
            TypeDefKind::Option(_) => {}
            TypeDefKind::Result(_) => {}
            TypeDefKind::List(_) => {}
            TypeDefKind::Own(_) => {}
            TypeDefKind::Borrow(_) => {}
            TypeDefKind::Resource => {}
            TypeDefKind::Stream(_) => {}
            TypeDefKind::Future(_) => {}
            TypeDefKind::Alias(_) => {}
        }
    }
}

/// The owner of a named type. Types without a name have none.
#[derive(Clone, Copy, Debug, PartialEq, Eq)]
pub enum TypeOwner {
    World(WorldId),
    Interface(InterfaceId),
    None,
}

/// A type of a resolve.
#[derive(Debug, PartialEq, Eq)]
pub struct TypeDef {
    pub name: Option<Text>,
    pub kind: TypeDefKind,
    pub owner: TypeOwner,
}

impl Drop for TypeDef {
    fn drop(self) {
        let TypeDef {
            name: _,
            kind: _,
            owner: _,
        } = self;
    }
}

impl TryClone for Type {
    fn try_clone(&self, _alloc: Global) -> Result<Type, AllocError> {
        Ok(*self)
    }
}

impl TryClone for Field {
    fn try_clone(&self, alloc: Global) -> Result<Field, AllocError> {
        Ok(Field {
            name: self.name.clone(alloc)?,
            ty: self.ty,
        })
    }
}

impl TryClone for Case {
    fn try_clone(&self, alloc: Global) -> Result<Case, AllocError> {
        Ok(Case {
            name: self.name.clone(alloc)?,
            ty: self.ty,
        })
    }
}

impl TryClone for TypeDefKind {
    fn try_clone(&self, alloc: Global) -> Result<TypeDefKind, AllocError> {
        match self {
            TypeDefKind::Record(fields) => Ok(TypeDefKind::Record(fields.clone(alloc)?)),
            TypeDefKind::Variant(cases) => Ok(TypeDefKind::Variant(cases.clone(alloc)?)),
            TypeDefKind::Enum(labels) => Ok(TypeDefKind::Enum(labels.clone(alloc)?)),
            TypeDefKind::Flags(labels) => Ok(TypeDefKind::Flags(labels.clone(alloc)?)),
            TypeDefKind::Tuple(types) => Ok(TypeDefKind::Tuple(types.clone(alloc)?)),
            TypeDefKind::Option(ty) => Ok(TypeDefKind::Option(*ty)),
            TypeDefKind::Result(parts) => Ok(TypeDefKind::Result(*parts)),
            TypeDefKind::List(ty) => Ok(TypeDefKind::List(*ty)),
            TypeDefKind::Own(id) => Ok(TypeDefKind::Own(*id)),
            TypeDefKind::Borrow(id) => Ok(TypeDefKind::Borrow(*id)),
            TypeDefKind::Resource => Ok(TypeDefKind::Resource),
            TypeDefKind::Stream(item) => Ok(TypeDefKind::Stream(*item)),
            TypeDefKind::Future(item) => Ok(TypeDefKind::Future(*item)),
            TypeDefKind::Alias(ty) => Ok(TypeDefKind::Alias(*ty)),
        }
    }
}
