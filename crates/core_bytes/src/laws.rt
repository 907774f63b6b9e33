//! What holds of all encodings: each function's contract is a law, and its body does nothing.

ghost use Rattle.core_bytes.specs.Laws.{OneModule, OtherSectionsKept};

/// Bytes encode at most one module.
pub fn one_module()
    ensures { OneModule }
{}

/// A module that is given a name is a module: all its sections except the first of names are kept, and so are all
/// parts of that one except the names of the module, which the new one replaces.
pub fn other_sections_kept()
    ensures { OtherSectionsKept }
{}
