//! WIT packages in binary form, read from their bytes: reading is the inverse of encoding.
//!
//! A package is a component that defines one type and exports it under the name of its world. That
//! type is a component type with two declarations: the world, which is a component type itself, and
//! its export under the world's id. Tools write such a component into a custom section of a core
//! module whose name begins `component-type`.
//!
//! [`read_sections`] gives the sections of a package ([`Section`]); the world is a list of
//! declarations ([`Declaration`]). What they mean isn't asked here: no index is looked up, and
//! nothing says which sections a package needs.
//!
//! Its clauses say three things. The bytes spell the result (`Spells` of `specs/Syntax.antt`).
//! Where it refuses for another reason than out of memory, they spell no list that a program can
//! hold. And the place and the reason of the refusal are those of the definition `package_at`
//! (`specs/Sections.antt`): the first section, or the first declaration of the world or of an
//! instance type in it, that can't be read.
//!
//! In reading order: `syntax` (sections and declarations), `fault` (reasons of refusals), `placing`
//! (readers that say where they stop), `declarations`, `sections` (one section, and all of a
//! package).
#![tactic(auto)]

mod declarations;
mod fault;
mod placing;
mod sections;
mod syntax;

pub use fault::{Reason, Refusal, SyntaxFault};
pub use sections::read_sections;
pub use syntax::{Declaration, Section, WorldType};
