//! Laws of the option sets.

ghost use Rattle.std.specs.Prelude.{IsTrue};
ghost use Rattle.comp_options.specs.Laws.{LoweringAddsRealloc};

use crate::required::Options;
use std::iter::ExactSizeIterator;

/// From no options, lowering values needs what lifting them needs, and a realloc exactly where that
/// needs a memory. It does nothing.
pub fn lowering_adds_realloc()
    ensures { LoweringAddsRealloc }
{}

/// Whether the iterator yields as many options as its length. It does.
pub fn count_equals_len(options: Options) -> bool
    ensures { IsTrue result }
{
    let reported = options.len();
    options.count() == reported
}
