//! The roles of the core imports of a module.
//!
//! A record gives each core import a role, by the import's module and field; the resolve that was made
//! of the record's world has the functions, types and interfaces that the roles name. [`read_imports`]
//! combines the two: each import must have a role, the role must resolve in that world, and the import
//! must have the core type that the resolved role requires. No module and field may be imported twice.
//! Where a main module imports its memory several times, the first import gives it, and the others must
//! accept it: [`check_memories`] looks at that.
//!
//! [`read_imports`] returns exactly what `specs/Importing.antt` gives, unless it runs out of memory;
//! what the imports name exists in the resolve, and no module and no field of one occurs twice. Each
//! refusal has its cause, and where a cause holds the call does not succeed: `specs/Causes.antt` lists
//! the causes, in words that don't follow the code. A role that is an export of another module is
//! refused where the module may not import it, or that module isn't there; the callers of this crate
//! compare the types, and decide how imports are satisfied.
//!
//! A library's import from a module that stands in its arguments has no role in the record: it is an item of
//! the first argument for that module, or, as all others from there, an export of the whole instance that
//! stands there.
//!
//! In reading order: `others` (exports of other modules), `arguments` (those of a library),
//! `meaning` (one import), `grouping` (the imports of each module), `memories`, `importing`.
#![tactic(auto)]

mod arguments;
mod grouping;
mod importing;
mod meaning;
mod memories;
mod others;

pub use arguments::Arguments;
pub use importing::read_imports;
pub use memories::check_memories;
pub use others::OtherModules;
