//! The validated world: what a component is to import and export, with its core modules, and the tables that follow
//! from these.
//!
//! Data alone, and the trait [`Lower`] by which a lower layer makes it; how it is encoded is up to
//! the crates above. What holds of every world that a lower layer returns is `IsEncodable` of
//! `specs/Encodable.antt` and `HasTables` of `specs/WorldTables.antt`. The first contains `IsWorld`
//! of `specs/Worlds.antt`, which says what the world has and what each of its modules, main and the
//! adapters, fits and has to export. Beside that it says what only the steps of the encoder take:
//! that its numbers refer to something, in which places functions and types find the types that
//! they are made of, and that no interface is imported or exported twice. The roles of imports and
//! exports of core modules come from `comp_roles`, the options that a call needs from
//! `comp_options`; this crate re-exports their names, so that its users need no other crate.
//!
//! In reading order: `lowerings` (how imported functions are lowered), `calls` (what core imports
//! use), `world` (the validated world), `modules` (user modules by name, and which module has a
//! module's realloc), `named` (which adapters a module names), `lower` (the trait). The tables that
//! follow from a world are defined here (`specs/Uses.antt`, `specs/Imported.antt`) and in
//! `specs/Mentions.antt` of `world_values`, and made by `world_tables`. The look-ups across modules
//! are defined in `specs/Lookups.antt`, and in `specs/Bases.antt` the type of the base of
//! thread-local data, on which they have to agree where a cell of the component holds it.
#![tactic(auto)]

mod calls;
mod lower;
mod lowerings;
mod modules;
mod named;
mod world;

pub use calls::{Call, Uses};
pub use comp_options::{
    OptionFault, Options, RequiredOptions, count_equals_len, lowering_adds_realloc,
};
pub use comp_roles::{
    Export, ExportMap, ExternType, FunctionKey, Import, ImportInstance, ImportMap, Instance, Item,
    LibraryArgument, LibraryInfo, MainOrAdapter, ModuleMetadata, NamedImport, PayloadFuncKind,
    PayloadInfo, PayloadType,
};
pub use lower::Lower;
pub use lowerings::{ImportedInterface, Lowering, LoweringKey};
pub use modules::CustomModule;
pub use named::{absent_adapter, absent_argument};
pub use world::{ComponentWorld, ValidatedModule, WorldAdapter, WorldParts};
pub use world_values::{EncoderOptions, ExportKey, Gathered, GatheredAdapter, Merged, Part};
