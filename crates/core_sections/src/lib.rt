//! What the bytes of a core WebAssembly module say: its sections, which of them describe a
//! component, and the contents of those that an encoder reads.
//!
//! Upward it promises two calls, and for crates that read sections themselves [`sections_of`] and
//! [`read_bytes`]. [`strip`] splits a module at its section headers alone: what it
//! keeps and what it returns apart are the sections of the module, byte for byte, and its contract has
//! the binary format independent of any way of reading it (`specs/Grammar.antt`). [`read_module`] reads
//! types, imports, functions, tables, memories, globals and exports, and skips every other section.
//! Nothing is reserved by a number that was only read. The contents of component types aren't read here.
//!
//! In reading order: `fault`, `numbers` (numbers and names), `sections` (headers), `stripping`;
//! then `entries` (types, imports, exports), `reading` (lists of anything), `contents` (how types, imports
//! and exports are encoded), `constants` (constant expressions), `definitions` (what a module defines),
//! `items` (its items by kind), `core_module` (a module's entries).
#![tactic(auto)]

mod constants;
mod contents;
mod core_module;
mod definitions;
mod entries;
mod fault;
mod items;
mod numbers;
mod reading;
mod sections;
mod stripping;

pub use core_module::{CoreModule, read_module};
pub use entries::{CoreImport, EntityType, ExportedItem, FuncType, Limits, ValType};
pub use fault::SectionFault;
pub use items::Items;
pub use numbers::read_bytes;
pub use sections::{Content, Section, sections_of};
pub use stripping::{Stripped, strip};
