//! What the declarations of a world say so far.

use comp_lists::{Keyed, Seq};
use package_types::Entry;
use record_values::{Interface, InterfaceName, Item, ItemKey};

/// A side of a world.
#[derive(Clone, Copy, Debug, PartialEq, Eq)]
pub(crate) enum Side {
    Import,
    Export,
}

/// An instance: its interface, and the index of its type.
#[derive(Drop)]
pub(crate) struct Instance {
    pub name: InterfaceName,
    pub ty: u32,
}

/// The types and the instances that have indices, the interfaces by name, and the items of both sides.
#[derive(Drop)]
pub(crate) struct State {
    pub scope: Seq<Entry>,
    pub instances: Seq<Instance>,
    pub interfaces: Keyed<InterfaceName, Interface>,
    pub imports: Keyed<ItemKey, Item>,
    pub exports: Keyed<ItemKey, Item>,
}
