//! Files that are written whole or not at all.
//!
//! [`put`] makes bytes the contents of a file: it writes them into a new file in the same folder, and renames this over
//! the old one. So the old file is unchanged until the new one is whole, and wherever the call fails.
//!
//! In reading order: `system` (what is asked of a file system, as a trait), `naming` (names of new files), `putting`
//! (the call).
#![tactic(auto)]

mod naming;
mod putting;
mod system;

pub use putting::{PutFault, put};
pub use system::{CreateFault, FileSystem, Kind, SystemFault};
