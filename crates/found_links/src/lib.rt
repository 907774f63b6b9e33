//! The links of a component, read from its definitions: what each core module is given, what is behind
//! each shim, and what each export is made of, as text.
//!
//! Upward this crate promises: [`find_links`] answers for any list of definitions the links that the
//! list says (`specs/Links.antt`, over the definition that made each item, `specs/Items.antt`), with
//! each item by the module, the import or the built-in function that it is from (`specs/Ends.antt`);
//! and [`show_links`] their text in one of three forms (`specs/Forms.antt`). It checks nothing: an index
//! may name no item, and is then shown as a number.
//!
//! In reading order: `link` (a link, as texts), `items` (which definition made which item), `ends`
//! (what items are called), `finding` (the links of a list), `forms` (links as text).
#![tactic(auto)]

mod ends;
mod finding;
mod forms;
mod items;
mod link;

pub use finding::find_links;
pub use forms::{Form, show_links};
pub use link::Link;
