//! Values as bytes, measured before they are written: one description of a value serves both.
//!
//! An [`Output`] counts all that is written to it, and keeps the bytes that it has room for. So the
//! same call measures a value, in an output without room, and fills a buffer, in an output with
//! room for all of it. Writing never fails: a count or a size that passes 2^32 - 1 is noted, and no
//! room is asked for on the way. [`Emit`] is the trait of values that are written so.
//!
//! Upward this crate promises: a call that writes adds the encoding of the value to what the output
//! has measured, and to the bytes that it keeps (`Puts` of `specs/Outputs.antt`); [`encoded_size`]
//! answers the size of an encoding and takes no memory (`IsSize`); and [`encoded`] answers its
//! bytes, in a buffer that is reserved once, with that size. Both are refused only where a count or
//! a size passes 2^32 - 1, or where the one growth of `encoded` is.
//!
//! In reading order: `output` (what is written, and what is kept of it), `emitting` (numbers,
//! names, lists, what has its size in front), `sizes` (the size of a value, and its bytes). For
//! proofs above: `proofs/Putting.antt` (one value after another: `search puts_then`).
#![tactic(auto)]

mod emitting;
mod output;
mod sizes;

pub use emitting::{
    Emit, put_blob, put_bytes, put_count, put_each, put_index, put_sized, put_tagged,
    put_type_index,
};
pub use output::Output;
pub use sizes::{encoded, encoded_size};
