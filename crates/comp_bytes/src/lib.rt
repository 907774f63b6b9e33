//! Components as lists of definitions, and their bytes.
//!
//! A component of the component model is, to this crate, a list of definitions ([`Defs`]): plain
//! values, with one variant for each form of the binary format. Their bytes are one function of that list,
//! `specs/Grammar.antt`, to be read next to the binary format of the component model; with the bytes it
//! lists every count and size that is written, so that one definition says what is written and what
//! must be refused.
//!
//! Upward this crate promises: the bytes that [`component_bytes`] returns encode the definitions
//! that were given (`Encodes`), a refusal other than out of memory names a count or a size that
//! exceeds 2^32 - 1 (`Refused`), [`component_size`] answers how many these bytes are, and takes no
//! memory (`IsSize`), and bytes encode at most one list of definitions ([`one_list`]). How numbers,
//! names, lists and bytes are written is in `measured_bytes`: the calls that write a value both
//! measure it and fill a buffer.
//!
//! For crates above that are about indices and names: `specs/References.antt` (what a definition names by
//! index), `specs/Scopes.antt` (that all of it comes before it), `specs/ScopeNames.antt` (the lists of
//! names in each of which names are distinct), `specs/ItemIndices.antt` (which definition made which item, with
//! its laws in `proofs/ItemIndices.antt`), and worked examples in `proofs/Worked.antt`.
//!
//! In reading order: `space` (sorts of items and their index spaces), `types` (types and names),
//! `canon` (canonical functions), `def` (definitions), `name` (debug names), `writing` (each value),
//! `sections` (definitions in sections), `naming` (the custom section of debug names), `laws` (what holds
//! of all encodings).
#![tactic(auto)]

mod canon;
mod def;
mod laws;
mod name;
mod naming;
mod sections;
mod space;
mod types;
mod writing;

pub use canon::{CanonicalOption, ContextType, Intrinsic};
pub use def::{Argument, CoreArgument, CoreInlineExport, CoreModule, Def, Defs, Item};
pub use laws::one_list;
pub use name::Name;
pub use naming::names_bytes;
pub use sections::{component_bytes, component_size};
pub use space::{ComponentExportKind, Sort, Space, space_of_kind};
pub use types::{
    Alias, Case, ComponentValType, DefinedType, Description, ExternName, Field, FuncTypeDef,
    InstanceType, Member, TypeDef,
};
