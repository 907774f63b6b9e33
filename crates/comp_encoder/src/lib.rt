//! The encoder: calls that gather core modules, and the one that makes a component of them.
//!
//! ```rust
//! use comp_encoder::ComponentEncoder;
//! use plain_lower::PlainLower;
//!
//! let mut encoder = ComponentEncoder::new(alloc, PlainLower::new());
//! encoder.validate(true).debug_names(true);
//! encoder.module(&main)?.adapter("wasi_snapshot_preview1", &adapter)?;
//! let component: Vec<u8> = encoder.encode()?;
//! ```
//!
//! An encoder is generic in its lower layer, the trait [`Lower`] of `comp_worlds`: that reads a module's
//! metadata, merges the metadata of several modules, and prepares the validated world.
//!
//! The guarantees: the state of an encoder after each call (`specs/Calls.antt`), when a call
//! refuses (`specs/Refusals.antt`), and what the bytes that `encode` returns are to the validated
//! world (`IsComponentOf` in `specs/Component.antt`): they encode a list of definitions that is composed as
//! the world says, and links when it is run (`link_laws`; the machine is in `comp_runs`, over the core code
//! of `core_runs`). A refusal leaves the encoder unchanged.
//!
//! In reading order: `fault` (why a call refuses), `adapters` (the table of adapters, and the names
//! in a library's arguments), `canonical_names` (whether two interfaces have one canonical name),
//! `output` (the component of a world, as bytes), `encoder` (the calls). Nothing here depends on
//! files, nor on how a lower layer gets its results.
#![tactic(auto)]

mod adapters;
mod canonical_names;
mod encoder;
mod fault;
mod output;

pub use canonical_names::check_duplicate_canonical_names;
pub use comp_imports::ImportNames;
pub use comp_roles::{Instance, Item, LibraryArgument, LibraryInfo, MainOrAdapter};
pub use comp_state::{EncodingState, StateFault};
pub use comp_worlds::Lower;
pub use encoder::ComponentEncoder;
pub use fault::EncodeFault;
pub use standard_kinds::StringEncoding;
