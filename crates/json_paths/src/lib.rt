//! Values of JSON for a reader of records: members of objects and items of arrays, each with the path
//! of the first value that is wrong.
//!
//! A fault has the JSON pointer (RFC 6901) of the offending value; a member that is missing or unknown
//! has its own path. Each public call returns exactly what its definition in `specs/Reading.antt`
//! gives, unless it runs out of memory. Nothing here knows the contents of a record.
//!
//! In reading order: `fault`, `paths` (JSON pointers), `members` (members of objects), `reading` (lists
//! of anything), `taking` (parts of values, taken out of them), `text` (the JSON value of a text).
#![tactic(auto)]

mod fault;
mod members;
mod paths;
mod reading;
mod taking;
mod text;

pub use fault::{Failure, Refusal};
pub use members::{
    bool_member, check_members, fault_at, fault_here, fault_under, is_one_of, left_out,
    only_member, pair_items, read_bool, read_number, read_text, required, text_member, under,
};
pub use reading::{FromJson, list_member, read_list, under_index};
pub use taking::{found, take_items, take_member};
pub use text::read_value;
