//! Which shims a world needs, in order.
//!
//! A shim is a generated core function that a user module imports in the place of a function that
//! can't exist yet, because it needs a memory or an export of an instance that is made later.
//! [`Shims`] lists them: [`Shims::append_indirect`] appends those that a module of the world needs,
//! each kind once, and a shim is named by its place. What is needed is the value of
//! `specs/Needed.antt`, in the words of the world alone; `specs/Plans.antt` says what appending
//! gives, and `specs/Encodings.antt` when it is refused.
//!
//! Planned are functions that the world imports, their reallocs, `task.return` with a memory, waits
//! and functions of error contexts, reads from streams and futures and writes to them, functions of
//! numbers that adapters export, and destructors.
//!
//! In reading order: `kinds` (what a shim stands for), `copies` (copies of kinds), `laws` (what
//! equality of kinds means), `shims` (the list), `fault` (why a plan is refused), `needs` (a shim
//! before it has a place), `modules` (user modules of a world), `calls` (functions of the world as
//! core imports call them), `reallocs`, `returns` (returns from functions that the world exports),
//! `memory_functions` (waits, and functions of error contexts), `payloads` (reads and writes of
//! streams and futures), `adapted` (functions that adapters export), `imports` and `destructors`
//! (what a module needs of each), `plan` (all that it needs).
#![tactic(auto)]

mod adapted;
mod calls;
mod copies;
mod destructors;
mod fault;
mod imports;
mod kinds;
mod laws;
mod memory_functions;
mod modules;
mod needs;
mod payloads;
mod plan;
mod reallocs;
mod returns;
mod shims;

pub use fault::ShimFault;
pub use kinds::ShimKind;
pub use laws::equal_kinds_are_one;
pub use memory_functions::MemoryFunction;
pub use payloads::{PayloadAccess, access_needs_shim, accessed_of};
pub use reallocs::{ReallocSite, realloc_needs_shim};
pub use shims::{Shim, Shims};
