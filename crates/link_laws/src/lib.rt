//! A list of definitions that keeps the rules of a world is composed as the world says, and links when it is run.
//!
//! In reading order: `specs/Meeting.antt` (when an item is what a target says), `specs/Linking.antt` (what a list of
//! definitions is to a world, as a list and when it is run), `laws` (the law).
#![tactic(auto)]

mod laws;

pub use laws::built_lists_link;
