//! Owned lists and texts that contracts see as lists, without the memory that holds them.
//!
//! Every crate of this repository depends on this one. A struct or an enum whose fields are [`Seq`],
//! [`Text`] and [`Bytes`] is itself the value that definitions speak of: equality of values is
//! equality of lists, and no second copy of a type is needed in `specs/`.
//!
//! In reading order: `try_clone` (copies that may fail with out of memory), `seq` (lists),
//! `shared_bytes` (bytes that are held once), `text` (texts), `shared_text` (texts that are held
//! once), `splits` (texts split at a character), `keyed` (tables by key). `specs/Found.antt` has
//! look-ups by name in a list of pairs; `proofs/` has the lemmas on lists that the standard library
//! lacks, for every crate above.
#![tactic(auto)]

mod keyed;
mod seq;
mod shared_bytes;
mod shared_text;
mod splits;
mod text;
mod try_clone;

pub use keyed::Keyed;
pub use seq::{Bytes, Seq};
pub use shared_bytes::SharedBytes;
pub use shared_text::SharedText;
pub use splits::split_once;
pub use text::Text;
pub use try_clone::TryClone;
