//! What shims do: each function's contract is a law, and its body does nothing.

ghost use Rattle.shim_runs.specs.ShimRuns.{EmptyShimsTrap, FilledShimsForward};

/// A shim whose slot is empty traps, with no event.
pub fn empty_shims_trap()
    ensures { EmptyShimsTrap }
{}

/// A shim whose slot has an opaque function makes one call of that function.
pub fn filled_shims_forward()
    ensures { FilledShimsForward }
{}
