//! Which exports of other modules a module may import.

ghost use Rattle.std.specs.Prelude.{◌≡◌};
ghost use Rattle.record_imports.specs.Others.{is_unknown};

use comp_lists::{Keyed, Text};
use record_values::ImportRole;

/// The exports of other modules that a module may import: those of main, and functions of the adapters of
/// these names.
#[derive(Drop)]
pub struct OtherModules {
    pub has_main: bool,
    pub adapters: Keyed<Text, ()>,
}

/// Whether a role is an export of another module which the module may not import, or which isn't there.
pub(crate) fn is_unknown(others: &OtherModules, role: &ImportRole) -> bool
    ensures { result ≡ is_unknown others.now role.now }
{
    match role {
        ImportRole::MainExport { .. } => !others.has_main,
        ImportRole::AdapterExport { adapter, .. } => !others.adapters.contains_key(adapter),
        _ => false,
    }
}
