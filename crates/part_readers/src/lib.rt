//! Values from the front of bytes, as the binary format of components has them: numbers, names, lists, options, types,
//! descriptions, aliases, arguments and the options of canonical functions. Reading is the inverse of encoding.
//!
//! Each reader takes bytes and returns a value of `comp_bytes` and the bytes after it. It shares no
//! code with the writer, takes shortest numbers alone, and allocates nothing by a count that it has
//! only read.
//!
//! Upward this crate promises that a reader gives what its model gives (`Gives`), a function on
//! lists (`specs/Reading.antt`, `PartReaders.antt`); and by laws on the models (`IsExact` of
//! `proofs/Exact.antt`) that the bytes which are taken encode the value, and that each encoding of
//! a value that a program can hold (`specs/Writable.antt`) is read again.
//!
//! In reading order: `fault` (refusals), `numbers` (numbers, names, lists, options), `values`
//! (sorts, value types, names, descriptions, aliases), `types`, `arguments` (of instantiations, and
//! options of canonical functions).
#![tactic(auto)]

mod arguments;
mod fault;
mod numbers;
mod types;
mod values;

pub use fault::PartFault;
pub use numbers::{Decode, byte, expect_byte, list, name, number, option, sized};
pub use types::{instance_type, type_def};
pub use values::{alias, extern_name, kind, result_of, sort};
