//! Where an instance type is defined.

use std::marker::Brand;

/// Where an instance type is defined. No code knows more of it: a caller that passes `Brand` picks
/// in its proofs what the surroundings are.
pub trait Placement {
    ghost use Rattle.comp_trees.specs.Trees.{Resource};
    ghost use Rattle.comp_trees.specs.Members.{Surroundings};
    ghost use Rattle.wit_data.specs.declared.ids.TypeId.{TypeId};

    /// What the outer scope denotes, and what the resources are that are exported.
    ghost surroundings: { Surroundings };

    /// What each resource of the resolve is.
    ghost origin: { TypeId → Resource };
}

impl Placement for Brand {
    ghost use Rattle.std.specs.Prelude.{[]};
    ghost use Rattle.comp_trees.specs.Trees.{DefinedAt};

    /// An empty outer scope, where a resource is known by its number.
    ghost surroundings = { record { outer = []; resource = λ name. DefinedAt 0 } };

    ghost origin = { λ id. DefinedAt id.index };
}
