//! What holds of all trees: each function's contract is a law, and its body does nothing.

ghost use Rattle.comp_trees.specs.Laws.{TreesOfParts, TreesAreKnown, FlatOfTrees, SignaturesOfTrees, TreesAreKept};

/// The tree of a type of a resolve is made of the trees of the types that it names.
pub fn trees_of_parts()
    ensures { TreesOfParts }
{}

/// Nothing in the tree of a type of a resolve is unknown.
pub fn trees_are_known()
    ensures { TreesAreKnown }
{}

/// The core values of a type are those of its tree.
pub fn flat_of_trees()
    ensures { FlatOfTrees }
{}

/// The core signature of a function is that of its tree, in each form of call.
pub fn signatures_of_trees()
    ensures { SignaturesOfTrees }
{}

/// What a type of a component denotes, it denotes in each longer scope.
pub fn trees_are_kept()
    ensures { TreesAreKept }
{}
