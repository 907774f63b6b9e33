//! A resolve of types.

use crate::types::types_of;
use comp_lists::{Keyed, Seq};
use std::alloc::{AllocError, Global};
use wit_data::{IdName, Interface, Resolve};

/// A resolve of these interfaces and types.
pub fn resolve_with(
    alloc: Global,
    interfaces: Seq<Interface>,
    text: &str,
) -> Result<Resolve, AllocError> {
    match types_of(alloc, text) {
        Ok(types) => Ok(Resolve {
            interfaces,
            types,
            worlds: Seq::new(alloc),
        }),
        Err(refused) => Err(refused),
    }
}

/// A resolve of these types alone.
pub fn resolve_of(alloc: Global, text: &str) -> Result<Resolve, AllocError> {
    resolve_with(alloc, Seq::new(alloc), text)
}

/// An interface of this name without types and functions.
pub fn empty_interface(alloc: Global, id: Option<IdName>) -> Interface {
    Interface {
        id,
        types: Keyed::new(alloc),
        functions: Keyed::new(alloc),
    }
}
