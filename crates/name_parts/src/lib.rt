//! Parts of the names of core imports and core exports, and what a name means by its text alone.
//!
//! A name that can be read in two ways is refused, and so is one of what isn't encoded; one that means nothing has
//! no role, which is no fault of the name ([`Reading`]). Names of built-in functions say all of their role
//! ([`builtin`]), and those of operations on streams and futures all but what their function has ([`payload_name`])
//! (component model, build targets; the older form is that of the tools that generate bindings).
//!
//! In reading order: `reading` (what a name means), `texts` (prefixes, suffixes and numbers), `builtins` and
//! `payload_names`.
#![tactic(auto)]

mod builtins;
mod payload_names;
mod reading;
mod texts;

pub use builtins::{builtin, is_not_encoded};
pub use payload_names::{PayloadName, may_be_async, payload_name};
pub use reading::{Reading, Refusal, any_of_three, either};
pub use texts::{after, before};
