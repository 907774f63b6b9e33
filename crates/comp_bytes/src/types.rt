//! Types of components, and the names and descriptions of what is imported and exported.
//!
//! Component model, binary format: `deftype`, `defvaltype`, `alias`, `externdesc`, `importname'`.

ghost use Rattle.std.specs.Prelude.{◌≡◌};
ghost use Rattle.comp_bytes.specs.Spaces.{description_space};

use crate::space::{ComponentExportKind, Space};
use comp_lists::{Seq, Text};
use standard_kinds::{ExportKind, Primitive};

/// A value type: a primitive one, or one that was defined, by its type index.
#[derive(Clone, Copy, Debug, PartialEq, Eq)]
pub enum ComponentValType {
    Primitive(Primitive),
    Defined(u32),
}

/// A name and a value type: a field of a record, or a parameter of a function.
#[derive(Debug, Drop, PartialEq, Eq)]
pub struct Field {
    pub name: Text,
    pub ty: ComponentValType,
}

/// A case of a variant, with its payload's type where it has one.
#[derive(Debug, Drop, PartialEq, Eq)]
pub struct Case {
    pub name: Text,
    pub ty: Option<ComponentValType>,
}

/// A type of values. Numbers are type indices.
#[derive(Debug, PartialEq, Eq)]
pub enum DefinedType {
    Primitive(Primitive),
    Record(Seq<Field>),
    Variant(Seq<Case>),
    List(ComponentValType),
    Tuple(Seq<ComponentValType>),
    Flags(Seq<Text>),
    Enum(Seq<Text>),
    Option(ComponentValType),
    Result {
        ok: Option<ComponentValType>,
        err: Option<ComponentValType>,
    },
    Own(u32),
    Borrow(u32),
    Stream(Option<ComponentValType>),
    Future(Option<ComponentValType>),
}

impl Drop for DefinedType {
    fn drop(self) {
        match self {
            DefinedType::Primitive(_) => {}
            DefinedType::Record(_) => {}
            DefinedType::Variant(_) => {}
            DefinedType::List(_) => {}
            DefinedType::Tuple(_) => {}
            DefinedType::Flags(_) => {}
            DefinedType::Enum(_) => {}
            DefinedType::Option(_) => {}
            DefinedType::Result { ok: _, err: _ } => {}
            DefinedType::Own(_) => {}
            DefinedType::Borrow(_) => {}
            DefinedType::Stream(_) => {}
            DefinedType::Future(_) => {}
        }
    }
}

/// A type of component functions.
#[derive(Debug, Drop, PartialEq, Eq)]
pub struct FuncTypeDef {
    pub async_: bool,
    pub params: Seq<Field>,
    pub result: Option<ComponentValType>,
}

/// A type that is no instance type. A resource type has the index of its destructor, a core function,
/// where it has one.
#[derive(Debug, Drop, PartialEq, Eq)]
pub enum TypeDef {
    Func(FuncTypeDef),
    Resource(Option<u32>),
    Defined(DefinedType),
}

/// The name of an import or an export. Where there is a version suffix, the name holds the canonical
/// version alone, and the suffix is the rest of the version.
#[derive(Debug, Drop, PartialEq, Eq)]
pub struct ExternName {
    pub name: Text,
    pub version_suffix: Option<Text>,
}

/// What an import is, or what an export is said to be: a function of a type, a type that equals one,
/// a resource type of its own, or an instance of a type.
#[derive(Clone, Copy, Debug, PartialEq, Eq)]
pub enum Description {
    Func(u32),
    TypeEqual(u32),
    SubResource,
    Instance(u32),
}

impl Description {
    /// The space in which what is described is counted.
    pub fn space(self) -> Space
        ensures { result ≡ description_space self }
    {
        match self {
            Description::Func(_) => Space::Func,
            Description::TypeEqual(_) => Space::Type,
            Description::SubResource => Space::Type,
            Description::Instance(_) => Space::Instance,
        }
    }
}

/// An alias of an item elsewhere: an export of an instance, an export of a core
/// instance, or a type of a scope further out. `count` is the number of scopes outward, 0 the own one.
#[derive(Debug, Drop, PartialEq, Eq)]
pub enum Alias {
    Export {
        kind: ComponentExportKind,
        instance: u32,
        name: Text,
    },
    CoreExport {
        kind: ExportKind,
        instance: u32,
        name: Text,
    },
    Outer {
        count: u32,
        index: u32,
    },
}

/// A member of an instance type.
#[derive(Debug, Drop, PartialEq, Eq)]
pub enum Member {
    Type(TypeDef),
    Alias(Alias),
    Export {
        name: ExternName,
        description: Description,
    },
}

/// A type of instances. It holds no instance type.
#[derive(Debug, Drop, PartialEq, Eq)]
pub struct InstanceType {
    pub members: Seq<Member>,
}
