//! Laws of kinds of shims.

ghost use Rattle.shim_plan.specs.Laws.{EqualKindsAreOne};

/// Kinds that are equal are one and the same. It does nothing.
#[tactic(auto, using(crate::proofs::EqualKinds::are_one))]
pub fn equal_kinds_are_one()
    ensures { EqualKindsAreOne }
{}
