//! Roles, keys and encodings of a record, resolved in the resolve that was made of its world.
//!
//! A record's roles name interfaces, functions and types; the resolve of its world has them by
//! number. [`ImportTargets`] resolves the roles of the core imports of a module,
//! [`resolved_export`] the role of a core export, [`resolved_key`] and [`resolved_export_key`] a
//! record's key to a key of the world, and [`resolved_metadata`] gives the string encodings of the
//! functions of those keys. Imported names are looked up on the side of the world's imports,
//! exported ones on that of its exports, where an interface has a copy of its own; functions and
//! types of the world itself are the items at its root. A name that refers to nothing there
//! resolves to nothing, and that is a result, not a refusal.
//!
//! Each public call returns exactly what its definition in `specs/` gives, unless it runs out of
//! memory, and what an import names exists in the resolve. Whether a core import has the type that its
//! role requires is not decided here.
//!
//! Roles name streams and futures by their number in a function. They are gathered once for all
//! roles of a module, in one walk through each function and only as many as roles name: so the time
//! of all roles is linear, and so is the memory.
//!
//! In reading order: `sides` (the two sides of a world), `keys`, `positions` (the positions of
//! functions and types), `wanted` (the streams and futures that roles name), `walks` (those that
//! occur in a function), `known` (tables of them), `payloads` (those of one role), `copies`,
//! `imports`, `targets`, `exports`, `metadata`.
#![tactic(auto)]

mod copies;
mod exports;
mod imports;
mod keys;
mod known;
mod metadata;
mod payloads;
mod positions;
mod sides;
mod targets;
mod walks;
mod wanted;

pub use exports::resolved_export;
pub use keys::{resolved_export_key, resolved_key};
pub use metadata::resolved_metadata;
pub use sides::Side;
pub use targets::ImportTargets;
