//! Indices of interfaces, types and worlds.

/// An interface of a [`Resolve`](crate::Resolve), by its index there.
#[derive(Clone, Copy, Debug, PartialEq, Eq, Hash)]
pub struct InterfaceId {
    pub index: usize,
}

/// A type of a [`Resolve`](crate::Resolve), by its index there.
#[derive(Clone, Copy, Debug, PartialEq, Eq, Hash)]
pub struct TypeId {
    pub index: usize,
}

/// A world of a [`Resolve`](crate::Resolve), by its index there.
#[derive(Clone, Copy, Debug, PartialEq, Eq, Hash)]
pub struct WorldId {
    pub index: usize,
}
