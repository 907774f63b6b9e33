//! What a reader knows of the types that may be named.

use comp_lists::{Keyed, Seq, Text};
use record_values::{Func, Typed};

/// The size of a type: how many types are nested in it, and how many nodes its tree has, counted as
/// `wit_data` counts them.
#[derive(Clone, Copy, Debug, PartialEq, Eq)]
pub struct Size {
    pub levels: usize,
    pub nodes: usize,
}

/// What is known of a named type.
#[derive(Clone, Copy, Debug, PartialEq, Eq)]
pub struct TypeFacts {
    pub size: Size,
    /// Whether it is a resource itself.
    pub is_resource: bool,
    /// Whether it is a resource, or another name for one.
    pub ends_at_resource: bool,
}

/// An interface as it was read: its id, its types and functions in order, and what is known of its
/// types. Interfaces in the references to its types and to those of others are given by their indices
/// in the record.
pub struct ReadInterface {
    pub id: Option<Text>,
    pub types: Seq<Typed>,
    pub functions: Seq<Func>,
    pub known: Keyed<Text, TypeFacts>,
}

impl Drop for ReadInterface {
    fn drop(self) {
        let ReadInterface {
            id: _,
            types: _,
            functions: _,
            known: _,
        } = self;
    }
}

/// The types that may be named in an item: those of the interfaces before, and those of the interface
/// that is being read, or of the world.
#[derive(Drop)]
pub struct Scope<'a> {
    pub done: &'a [ReadInterface],
    pub current: &'a Keyed<Text, TypeFacts>,
    pub is_world: bool,
}
