//! The fixup: the last core instance of a component, which fills the shims.
//!
//! A shim is called in the place of a function that can't be made before the user modules are
//! instantiated: of a function of the world whose lowering names exports of user modules, or of a
//! function that one exports, as a destructor (`world_shims`). [`encode_fixup`] makes these
//! lowerings, and aliases of the exports, gives them to the fixup module under the names of their
//! shims, and instantiates it. Each lowering is the one that the link table names for the import
//! that the shim stands for (`IsFillFor` in `specs/Planned.antt` of `comp_terms`), and its options
//! are those of `core_options`: main's memory, and the realloc of the module whose import it is.
//! What is behind shims, and what that needs, is in `specs/Filling.antt`.
//!
//! In reading order: `sources` (what is given), `modules` (user modules, as shims name them),
//! `functions` (the function of the world that a shim stands for), `exports` (an alias of what a
//! user module exports), `functions_of_memory` (waits, and functions of error contexts), `payloads`
//! (reads and writes of streams and futures), `lowerings` (a lowering, and what is behind a shim of
//! any kind), `fills` (the inline instance with all of them), `arguments` (what the fixup is given), `fixup` (the module and its instance).
#![tactic(auto)]

mod arguments;
mod exports;
mod fills;
mod fixup;
mod functions;
mod functions_of_memory;
mod lowerings;
mod modules;
mod payloads;
mod sources;

pub use fixup::encode_fixup;
pub use sources::FillSources;
