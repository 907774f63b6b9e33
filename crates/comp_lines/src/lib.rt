//! Components as text: a line for each definition.
//!
//! [`describe`] returns for each definition of `comp_bytes` a line that says in which index space and at
//! which index it makes an item, and what that is made of; what has no words of its own is shown as the bytes
//! that encode it. It checks nothing: an index may name no item, and a list may have no encoding.
//!
//! The lines are one function of the list, `specs/Lines.antt`, with a clause for each form; how bytes and
//! names are printed is in `specs/Texts.antt`. [`describe`] returns exactly these lines, and its only error
//! except out of memory is a count or a size in the bytes that are shown that passes 2^32 - 1 (`Refused` of
//! `comp_bytes`). Worked examples are in `proofs/Worked.antt`.
//!
//! [`put_number`], [`put_hex`], [`put_quoted`] and [`put_item`] write these forms for other crates that
//! show components; [`space_of_item`] says in which space an item is.
//!
//! In reading order: `texts` (numbers, bytes, names), `parts` (words, options, arguments), `items`
//! (what an item is made of, and its line), `listing` (the lines of a scope).
#![tactic(auto)]

mod items;
mod listing;
mod parts;
mod texts;

pub use items::space_of_item;
pub use listing::describe;
pub use parts::put_item;
pub use texts::{put_hex, put_number, put_quoted};
