//! The role of each import and export of a core module.
//!
//! Values alone, by the keys and indices of a world, and look-ups in them. Nothing here knows the
//! world itself, which options a call needs, or how an import is satisfied: that belongs to the
//! crates above. Upward this crate promises that its look-ups return what `specs/Lookups.antt`,
//! `specs/Reallocs.antt` and `specs/FunctionExports.antt` say: the first matching entry, in the
//! order of the module.
//!
//! In reading order: `libraries` (the arguments of
//! libraries), `payloads` (streams and futures), `imports` and `exports` (the roles of imports and exports of a
//! core module, and look-ups in them), `roles` (the roles that exports are looked up by),
//! `metadata` (the encodings of functions), `offered` (the types of core imports and exports, and which match).
//!
//! `specs/CoreImports.antt` has a core module's imports one by one, `specs/Functions.antt` the functions that
//! a module names.
#![tactic(auto)]

mod exports;
mod imports;
mod libraries;
mod metadata;
mod offered;
mod payloads;
mod roles;

pub use exports::{Export, ExportMap};
pub use imports::{Import, ImportInstance, ImportMap, NamedImport};
pub use libraries::{Instance, Item, LibraryArgument, LibraryInfo, MainOrAdapter};
pub use metadata::{FunctionKey, ModuleMetadata};
pub use offered::{ExternType, ImportType, has_numbers};
pub use payloads::{PayloadFuncKind, PayloadInfo, PayloadType};
