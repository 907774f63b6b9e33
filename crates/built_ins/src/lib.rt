//! Which built-in function of the component model a core import is given, by its role, and by
//! whether slot 1 of a task's context can be used.
//!
//! The functions here have no options: those on tasks, on sets of waitables, on subtasks and on the
//! slots of a task's context, which take no type either, and those of streams and futures that pass
//! no elements (Canonical ABI: `canon` built-ins). Nothing here depends on a world or its core
//! modules. The guarantee: the tables are those of `specs/BuiltIns.antt` and `specs/Payloads.antt`,
//! where each of these functions has the core type that the standard gives it.
#![tactic(auto)]

mod intrinsics;
mod payloads;

pub use intrinsics::plain_intrinsic;
pub use payloads::{called_payload, is_access, payload_intrinsic};
