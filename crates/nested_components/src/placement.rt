//! What is given for the imports of a nested component.

use std::marker::Brand;

/// What is given for the imports of a nested component. No code knows more of it: a caller that
/// passes `Brand` picks in its proofs what it is.
pub trait Placement {
    ghost use Rattle.std.specs.Prelude.{List, ℕ};
    ghost use Rattle.comp_trees.specs.Trees.{Resource};
    ghost use Rattle.comp_trees.specs.DefinedTrees.{TypeTree};
    ghost use Rattle.wit_data.specs.declared.ids.TypeId.{TypeId};

    /// What the types denote that are given, by the names of the imports.
    ghost given: { List ℕ → TypeTree };

    /// What each resource of the resolve is.
    ghost origin: { TypeId → Resource };
}

impl Placement for Brand {
    ghost use Rattle.comp_trees.specs.Trees.{DefinedAt};
    ghost use Rattle.comp_trees.specs.DefinedTrees.{OfOthers};

    /// No type is given, and a resource is known by its number.
    ghost given = { λ name. OfOthers };

    ghost origin = { λ id. DefinedAt id.index };
}
