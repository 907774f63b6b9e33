//! Components read from their bytes: reading is the inverse of encoding.
//!
//! [`read_component`] takes the binary format of a component, and returns the definitions of `comp_bytes`
//! that it encodes. It shares no code with the writer, and allocates nothing by a count that it
//! has only read.
//!
//! It reads the encoding that this repository's encoder writes: one section for a run of one kind
//! of definition, shortest numbers, nesting one deep, no core types, no start section. Other
//! encodings of components, though valid, are refused.
//!
//! Its clauses say three things. The bytes encode the result (`Encodes` of `comp_bytes`). Where it
//! refuses for another reason than out of memory, the bytes encode no list that a program can hold
//! (`specs/Causes.antt`, `specs/Writable.antt`). And the offset that it reports is that of the
//! innermost section that cannot be read (`specs/Stops.antt`): the longest prefix of the bytes that
//! is a component ends there, or the same holds in the component nested in the section there.
//!
//! Each function here has a model, a function on lists that says what it reads (`specs/CanonReaders.antt`,
//! `ItemReaders`, `SectionReaders`, over those of `part_readers`); the laws of these are in `proofs/`.
//!
//! In reading order: `fault` (refusals), `canon` (canonical functions), `items` (the definitions of one
//! section), `sections` (sections of any kind of definition), `component` (a whole component).
#![tactic(auto)]

mod canon;
mod component;
mod fault;
mod items;
mod sections;

pub use component::read_component;
pub use fault::ReadFault;
