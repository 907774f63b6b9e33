//! Warnings of a core module: what it says of its component that this encoder takes and a validator of components refuses,
//! or that has no effect.
//!
//! [`lint_module`] reads what a module says, by a record or a package, and answers its warnings, which
//! `specs/Modules.antt` lists: those of its world (`world_warnings`), and of the roles of its core imports and core
//! exports. It refuses just where what the module says can't be read. [`lint_modules`] answers those of a main module and
//! its adapters, and [`warnings_text`] their text.
//!
//! In reading order: `fault`, `roles` (the roles of core imports and core exports), `modules` (a module), `linting` (several).
#![tactic(auto)]

mod fault;
mod linting;
mod modules;
mod roles;

pub use fault::LintFault;
pub use linting::{lint_modules, warnings_text};
pub use modules::lint_module;
