//! What a component imports: the interfaces of its world of which something is needed, and then the
//! types of its world and the functions at its root that core modules use (`root_imports`).
//!
//! An interface is imported as an instance of a type of its own. Each type of another interface
//! that this type names is an alias of what that interface's instance exports, and comes before it.
//!
//! In reading order: `import_names` (the names of interfaces), `interface_types` (aliases of types
//! of interfaces), `interface_function` (by what a function of an interface is found), `used` (the
//! functions of interfaces that core modules use), `interfaces` (imports of interfaces), `imports`
//! (all imports, in order). In `specs/`: `Names` (the names of interfaces), `Interfaces` (what is
//! known while interfaces are imported).
//!
//! Upward this crate promises: [`import_all`] imports exactly the interfaces, types and functions
//! that the world states, in its order; the instance of an interface exports those of its types
//! that are needed, and those of its functions that core modules use, and nothing else; definitions
//! grow at their end, and each keeps the rule of its kind (`Grows` of `comp_terms`). A refusal is
//! out of memory, or a full index space.
#![tactic(auto)]

mod import_names;
mod imports;
mod interface_function;
mod interface_types;
mod interfaces;
mod used;

pub use import_names::ImportNames;
pub use imports::import_all;
