//! What records say, as values: interfaces, types and functions by name, the items of a world, and the
//! roles of core imports and core exports.
//!
//! Nothing in these values is a number that only has a meaning in one record. An interface is identified by its
//! id, or by the name under which the world imports or exports it; a type by its owner and its name
//! ([`TypeName`]); so what two records say can be compared directly, and merging them renumbers
//! nothing. A type is the list of its nodes, each after its parts ([`Node`]): equal types are equal
//! lists, and which types it names is read off the list.
//!
//! Upward this crate promises copies that are equal, and how all of this is renamed where interfaces
//! are replaced by others (`specs/Renaming.antt`). It knows nothing of JSON.
//!
//! In reading order: `names` (interfaces, owners, named types), `types` (nodes, functions, interfaces),
//! `world` (the items of a world), `roles` (the roles of core imports and exports), `record` (what one
//! record says), `copies`, `interfaces` (those among the items of a world), `renaming`.
#![tactic(auto)]

mod copies;
mod interfaces;
mod names;
mod record;
mod renaming;
mod roles;
mod types;
mod world;

pub use interfaces::{Interfaces, interfaces_among};
pub use names::{InterfaceName, Owner, TypeName};
pub use record::{Assigned, ImportName, Record};
pub use renaming::{rename_interface, rename_item, rename_name};
pub use roles::{
    ExportRole, ImportRole, Intrinsic, Payload, PayloadKind, PayloadOperation, PlainExport,
};
pub use types::{Case, Func, Interface, Node, Typed};
pub use world::{Item, ItemKey, Wit};
