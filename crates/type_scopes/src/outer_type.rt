//! Types of other interfaces.

use wit_data::{InterfaceId, TypeId};

/// A type of another interface, which the outer scope may offer.
#[derive(Clone, Copy, Debug, PartialEq, Eq, Hash)]
pub struct OuterType {
    pub interface: InterfaceId,
    pub id: TypeId,
}
