//! Types, functions and interfaces.

use crate::names::TypeName;
use comp_lists::{Keyed, Seq, Text};
use wit_data::Primitive;

/// A case of a variant: its name, and whether it has a type, which is one of the parts then.
#[derive(Debug, Drop, PartialEq, Eq)]
pub struct Case {
    pub name: Text,
    pub has_type: bool,
}

/// A node of a type (component model, WIT: `ty`). A type is the list of its nodes, each after its
/// parts: a list of a tuple of two texts is `String`, `String`, `Tuple { arity: 2 }`, `List`.
#[derive(Debug, PartialEq, Eq)]
pub enum Node {
    Primitive(Primitive),
    List,
    Option,
    /// A result, with its parts in this order where they are present.
    Result { has_ok: bool, has_err: bool },
    Tuple { arity: usize },
    /// A record, with a part for each field.
    Record(Seq<Text>),
    /// A variant, with a part for each case that has a type.
    Variant(Seq<Case>),
    Enum(Seq<Text>),
    Flags(Seq<Text>),
    Own(TypeName),
    Borrow(TypeName),
    Stream { has_item: bool },
    Future { has_item: bool },
    /// A type that has a name.
    Named(TypeName),
    /// A resource. It occurs alone, as the type of a name.
    Resource,
}

impl Drop for Node {
    fn drop(self) {
        match self {
            Node::Primitive(_) => {}
            Node::List => {}
            Node::Option => {}
            Node::Result {
                has_ok: _,
                has_err: _,
            } => {}
            Node::Tuple { arity: _ } => {}
            Node::Record(_) => {}
            Node::Variant(_) => {}
            Node::Enum(_) => {}
            Node::Flags(_) => {}
            Node::Own(_) => {}
            Node::Borrow(_) => {}
            Node::Stream { has_item: _ } => {}
            Node::Future { has_item: _ } => {}
            Node::Named(_) => {}
            Node::Resource => {}
        }
    }
}

/// A name and a type: a parameter.
#[derive(Debug, Drop, PartialEq, Eq)]
pub struct Typed {
    pub name: Text,
    pub nodes: Seq<Node>,
}

/// A function.
#[derive(Debug, PartialEq, Eq)]
pub struct Func {
    pub name: Text,
    pub is_async: bool,
    pub params: Seq<Typed>,
    pub result: Option<Seq<Node>>,
}

impl Drop for Func {
    fn drop(self) {
        let Func {
            name: _,
            is_async: _,
            params: _,
            result: _,
        } = self;
    }
}

/// An interface: its types and its functions by name, in order. No name occurs twice among the types,
/// and none among the functions.
#[derive(Debug, Drop, PartialEq, Eq)]
pub struct Interface {
    pub types: Seq<Typed>,
    pub functions: Seq<Func>,
}
