//! What the code of generated core modules does, and the small bodies that such modules are made of.
//!
//! The code of a module is [`core_bytes`]' values: lists of instructions. `specs/Execution.antt` says
//! what they do, to be read next to the execution part of the core standard. A run works on a store of
//! functions and tables that only grows; a function in it is one of a generated module, or an opaque one,
//! known only by a number, whose calls are events that the outside answers (`specs/Store.antt`).
//!
//! The bodies are those of shims, which forward a call to the function in a slot of a table or in a global; of
//! stubs; of wrappers, which call task hooks round a function ([`Bracket`]); of start functions
//! ([`StartStep`]); and of the two functions of a thread-local cell. There are also the table of
//! shims and its element segment ([`table_of_shims`], [`table_fill`]). Upward this crate promises: a body
//! is the value of `specs/Bodies.antt`, and does what the contract says for all arguments, answers and
//! types, and whatever else is in the store.
//!
//! In reading order: `bracket` (task hooks), `start` (steps of start functions), `bodies` (what is
//! built), `tables` (shims of a module in the table form), `laws` (what the bodies do).
//! `specs/Instances.antt` says what making an instance of a module does. Worked examples are in
//! `proofs/Worked.antt` (bodies) and `proofs/WorkedModules.antt` (whole modules, made and run).
#![tactic(auto)]

mod bodies;
mod bracket;
mod laws;
mod start;
mod tables;

pub use bodies::{
    ref_shim_body, start_body, stub_body, table_shim_body, tls_get_body, tls_set_body, wrapper_body,
};
pub use bracket::{AfterHook, Bracket, Bracketed, TaskHook};
pub use laws::{
    addresses_are_sums, callbacks_act, cells_are_set, deeds_are_not_stuck, deeds_are_traced,
    empty_ref_shims_trap, empty_table_shims_trap, expected_is_not_stuck, expected_shapes,
    filled_ref_shims_forward, filled_shims_forward, filled_throughout, getters_read,
    instances_define, numbers_are_read, ref_shims_are_unfilled, ref_shims_forward,
    ref_shims_trap_at_first, segments_fill, setters_write, shims_trap_at_first, starts_act,
    starts_fill_first, stubs_trap, table_shims_forward, targets_are_met, tls_is_one_cell,
    wrappers_act,
};
pub use start::{GlobalFill, StartStep};
pub use tables::{Shim, table_fill, table_of_shims, table_shim_bodies};
