//! Entries of scopes.

use comp_lists::{Keyed, Seq, Text};
use record_values::{Interface, Node, TypeName, Typed};

/// The size of a type: how many types are nested in it, and how many nodes its tree has. Named
/// types count with all that they are made of.
#[derive(Clone, Copy, Debug, PartialEq, Eq)]
pub struct Size {
    pub levels: usize,
    pub nodes: usize,
}

/// What is known of a named type.
#[derive(Clone, Copy, Debug, PartialEq, Eq)]
pub struct Facts {
    pub size: Size,
    /// Whether it is a resource, or another name for one.
    pub is_resource: bool,
}

/// A type of functions.
#[derive(Drop)]
pub struct Signature {
    pub is_async: bool,
    pub params: Seq<Typed>,
    pub result: Option<Seq<Node>>,
}

/// What an instance type says of an interface, and what is known of its types.
#[derive(Drop)]
pub struct Content {
    pub interface: Interface,
    pub known: Keyed<Text, Facts>,
}

/// What an index of a scope of types means: a name, a definition that has none, a type of functions, or a type of
/// instances.
pub enum Entry {
    Name { name: TypeName, facts: Facts },
    Type { nodes: Seq<Node>, size: Size },
    Function(Signature),
    Instance(Content),
}

impl Drop for Entry {
    fn drop(self) {
        match self {
            Entry::Name { name: _, facts: _ } => {}
            Entry::Type { nodes: _, size: _ } => {}
            Entry::Function(_) => {}
            Entry::Instance(_) => {}
        }
    }
}
