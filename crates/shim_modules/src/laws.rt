//! What modules of shims do.

ghost use Rattle.shim_modules.specs.Laws.{ShimModulesAreShims};

/// The parts of a module of shims are those of which the laws of [`core_runs`] speak.
pub fn shim_modules_are_shims()
    ensures { ShimModulesAreShims }
{}
