//! WIT values: interfaces, types, functions and worlds, and what follows from them alone.
//!
//! A [`Resolve`] owns lists of interfaces, types and worlds, which refer to one another by index. A type
//! names only types before it. A fact of a type (how it is passed to core WebAssembly, what it
//! contains, which types it reaches) is a value that is made of the values of the types that it names:
//! `specs/Values.antt` is the one fold by which all of them are defined.
//!
//! Upward this crate promises what the component model and the Canonical ABI say of such values:
//! whether they are consistent ([`Resolve::is_sound`]), the core signature of a function
//! ([`Resolve::wasm_signature`]), what a type contains ([`Resolve::type_contents`]), the names of
//! interfaces with and without the compatible part of their versions, and the types that others reach
//! ([`Resolve::live_types`]).
//!
//! In reading order: `ids` (indices of interfaces, types and worlds), `types` (types), `functions`
//! (functions and the forms in which they are called), `names` (names of interfaces), `worlds`
//! (worlds and their keys), `resolve` (all of it together); `parts` (what a type names), `sizes`
//! and `soundness` (whether all of it is consistent), `flattening` and `signatures` (core values
//! and core signatures), `versions` (versions of packages, and what compatible ones share),
//! `contents` (what types contain), `liveness` (the types that others reach).
#![tactic(auto)]

mod contents;
mod flattening;
mod functions;
mod ids;
mod liveness;
mod names;
mod parts;
mod resolve;
mod signatures;
mod sizes;
mod soundness;
mod types;
mod versions;
mod worlds;

pub use contents::TypeContents;
pub use functions::{AbiVariant, Function, FunctionKind, Param, returning};
pub use ids::{InterfaceId, TypeId, WorldId};
pub use liveness::{live_marks, marked_of};
pub use names::IdName;
pub use parts::{kind_of, part_count_of, part_of};
pub use resolve::{Interface, Resolve};
pub use signatures::{WasmSignature, WasmType};
pub use standard_kinds::Primitive;
pub use types::{Case, Field, ResultType, Type, TypeDef, TypeDefKind, TypeOwner};
pub use versions::{CanonicalVersion, PackageVersion, canonical_version};
pub use worlds::{World, WorldItem, WorldKey};
