//! What a world is made from: the modules that were gathered, and what its functions, interfaces and roles name.
//!
//! Data and look-ups in it, so that the crates that read records need not wait for the tables of a
//! validated world. `specs/Items.antt` has the functions of a world; `specs/CoreExports.antt` those
//! of core exports, and `specs/ExportForms.antt` the forms in which core code implements them;
//! `specs/Mentions.antt` has the types that functions, interfaces and core imports name, with the
//! tables that follow from them; `comp_worlds` makes these.
//!
//! In reading order: `options` (the options of the encoder), `gathered` (what was gathered before
//! the world is prepared), `core_exports` (core exports by the functions that they belong to).
#![tactic(auto)]

mod core_exports;
mod gathered;
mod options;

pub use core_exports::{
    callback_function, callbacks, function_key, implementations, lifted_functions,
    post_return_function, post_returns,
};
pub use gathered::{ExportKey, Gathered, GatheredAdapter, Merged, Part};
pub use options::EncoderOptions;
