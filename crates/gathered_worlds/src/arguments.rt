//! The arguments of an adapter.

ghost use Rattle.std.specs.Prelude.{◌≡◌, IfOk};
ghost use Rattle.gathered_worlds.specs.Arguments.{arguments_of};

use comp_roles::LibraryInfo;
use record_imports::Arguments;
use std::alloc::{AllocError, Global};

/// The arguments of a library; another adapter has none.
pub(crate) fn arguments_of(
    alloc: Global,
    info: &Option<LibraryInfo>,
) -> Result<Arguments<'_>, AllocError>
    ensures { IfOk result (λ a. a ≡ arguments_of info.now) }
{
    match info {
        Some(info) => Arguments::of(alloc, info.arguments.as_slice()),
        None => Arguments::of(alloc, &[]),
    }
}
