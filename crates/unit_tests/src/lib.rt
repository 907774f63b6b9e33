//! Tests of single calls of the libraries of the encoder, for what no clause says of them. They are
//! in a crate of their own, since a crate with tests is proved twice: once without them, and once
//! with them.
//!
//! In reading order: `lists` (lists, texts and tables), `building` (a component), `fixups` (the
//! module that fills shims), `shims` (the modules that are generated for shims).
#![tactic(auto)]

#[cfg(test)]
mod building;
#[cfg(test)]
mod fixups;
#[cfg(test)]
mod lists;
#[cfg(test)]
mod shims;
