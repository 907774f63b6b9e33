//! Core WebAssembly modules that an encoder generates, as values, and their bytes.
//!
//! A module is, to this crate, the list of its sections in the order given ([`Module`], of
//! [`Section`]s), and a section the list of its entries: plain values, with one variant or one struct for each
//! form of the binary format. Their bytes are one function of that list, `specs/Grammar.antt` and
//! `specs/Modules.antt`, to be read next to the binary format of the core standard; with the bytes it
//! lists every count and size that is written, so that one definition says what is written and what
//! must be refused.
//!
//! Upward this crate promises: an entry that is appended is at the end of its section, and nothing
//! else has changed; the bytes of a module encode it (`Encodes`), a refusal other than out of memory
//! names a count or a size that exceeds 2^32 - 1 (`Refused`), and bytes encode at most one module
//! ([`one_module`]). Whether a module is valid is not checked: what is given is written.
//!
//! Also, [`set_module_name`] gives any core module, one of a user too, a name in its section of
//! names (`specs/Renaming.antt`), and leaves all else unchanged.
//!
//! In reading order: `entity` (what is imported, and constants), `code` (instructions and bodies), `entry` (other
//! entries of sections), `entries` (lists that grow at their end), `section` (what is appended to each
//! section), `number` (signed numbers, and what has its size in front), `writing` (each value),
//! `module` (modules and their bytes), `laws` (what holds of all encodings); then `part` (the parts of
//! a section of names) and `renaming` (names of modules). Worked examples are in
//! `proofs/Worked.antt` and `proofs/WorkedNames.antt`.
#![tactic(auto)]

mod code;
mod entity;
mod entries;
mod entry;
mod laws;
mod module;
mod number;
mod part;
mod renaming;
mod section;
mod writing;

pub use code::{Body, Instruction, LocalRun};
pub use entity::{ConstExpr, EntityType};
pub use entries::Entries;
pub use entry::{DataSegment, DefinedGlobal, ElementSegment, Export, Import, Naming};
pub use laws::{one_module, other_sections_kept};
pub use module::Module;
pub use renaming::set_module_name;
pub use section::{
    Code, DataSection, ElementSection, ExportSection, FunctionSection, GlobalSection,
    ImportSection, MemorySection, ModuleNames, NameMap, Section, TableSection, TypeSection,
};
