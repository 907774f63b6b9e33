//! Numbers, names, lists and options as bytes, as the binary formats of WebAssembly have them.
//!
//! The encoding of a value is one value itself: its bytes, with each count and size among them
//! (`specs/Encoding.antt`), so that one definition says what is written and what must be refused.
//! [`Encode`] is the trait of values with one encoding; binary formats are made of its
//! implementations.
//!
//! Upward this crate promises: a call that writes appends the bytes of the value (`Writes`), a refusal other than
//! out of memory names a count or a size that passes 2^32 - 1 (`Refused`), and no number, type index or name is the
//! beginning of another ([`one_number`], [`one_type_index`], [`one_name`]).
//!
//! In reading order: `fault` (counts and refusals), `number` (numbers, names, lists, options), `laws` (what holds of
//! all encodings). For proofs above: `proofs/Pieces.antt` (one piece of writing after another) and
//! `proofs/Readers.antt` (readers that give back what was written).
#![tactic(auto)]

mod fault;
mod laws;
mod number;

pub use fault::{BuildFault, Excess, count_of, counted, next_count};
pub use laws::{one_name, one_number, one_type_index};
pub use number::{
    Encode, byte_of_flag, encoded, put_bytes, put_count, put_each, put_index, put_tagged,
    put_type_index,
};
