//! What a walk through types has met so far.

ghost use Rattle.std.specs.Prelude.{◌≡◌, []};

use comp_lists::Keyed;
use std::alloc::Global;

/// The numbers of the types that were entered, and those of the interfaces to which they belong.
pub(crate) struct Walk {
    pub(crate) entered: Keyed<usize, ()>,
    pub(crate) owners: Keyed<usize, ()>,
}

impl Drop for Walk {
    fn drop(self) {
        let Walk {
            entered: _,
            owners: _,
        } = self;
    }
}

impl Walk {
    /// Nothing was met. It takes no memory.
    pub(crate) fn new(alloc: Global) -> Walk
        ensures entered { result.entered ≡ [] }
        ensures owners { result.owners ≡ [] }
    {
        Walk {
            entered: Keyed::new(alloc),
            owners: Keyed::new(alloc),
        }
    }

    /// The interfaces.
    pub(crate) fn into_owners(self) -> Keyed<usize, ()>
        ensures { result ≡ self.owners }
    {
        let Walk { entered: _, owners } = self;
        owners
    }
}
