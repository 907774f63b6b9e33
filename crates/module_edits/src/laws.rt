//! What holds of all modules that get a function: the function's contract is a law, and its body does nothing.

ghost use Rattle.module_edits.specs.Laws.{SectionsEdited};

/// A module that gets a function is a module, of as many sections: those of types, functions, exports and code hold one
/// more entry, and all others are the old ones.
pub fn sections_are_edited()
    ensures { SectionsEdited }
{}
