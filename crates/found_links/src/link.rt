//! A link, as texts.

use comp_lists::Text;

/// A link of a component: who is given what.
///
/// `user` is a core module, a shim or `exports`; `name` is a space and the names of the import or of
/// the export, or nothing for a shim; `source` is a module's export, an import of the component or a
/// built-in function; and `how` has, behind commas, whether it is lowered or lifted, and the options
/// of that.
#[derive(Debug, Drop)]
pub struct Link {
    pub user: Text,
    pub name: Text,
    pub source: Text,
    pub how: Text,
}
