//! Laws of names.

ghost use Rattle.core_import_names.specs.Spelling.{ImportsAreReadBack, ImportNamesDiffer};

/// The name that a role of a world has in the older form is read as that role, or it is refused. It does
/// nothing.
pub fn imports_are_read_back()
    ensures { ImportsAreReadBack }
{}

/// Two roles of a world that have one name in the older form are one role, or the name is refused. It does
/// nothing.
pub fn import_names_differ()
    ensures { ImportNamesDiffer }
{}
