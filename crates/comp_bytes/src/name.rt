//! Debug names.

use crate::space::Space;
use comp_lists::Text;

/// The debug name of the item with this index in its space.
#[derive(Debug, Drop, PartialEq, Eq)]
pub struct Name {
    pub space: Space,
    pub index: u32,
    pub text: Text,
}
