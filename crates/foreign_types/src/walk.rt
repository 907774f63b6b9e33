//! What a walk through the types of an interface has met so far.

ghost use Rattle.std.specs.Prelude.{◌≡◌, []};

use comp_lists::{Keyed, Seq};
use std::alloc::Global;
use wit_data::TypeId;

/// The types of other interfaces that were met, each behind those of which it is made, and all types that were entered.
pub(crate) struct Walk {
    pub(crate) listed: Seq<TypeId>,
    pub(crate) entered: Keyed<TypeId, ()>,
}

impl Drop for Walk {
    fn drop(self) {
        let Walk {
            listed: _,
            entered: _,
        } = self;
    }
}

impl Walk {
    /// Nothing was met. It takes no memory.
    pub(crate) fn new(alloc: Global) -> Walk
        ensures listed { result.listed ≡ [] }
        ensures entered { result.entered ≡ [] }
    {
        Walk {
            listed: Seq::new(alloc),
            entered: Keyed::new(alloc),
        }
    }

    /// The types of other interfaces.
    pub(crate) fn into_listed(self) -> Seq<TypeId>
        ensures { result ≡ self.listed }
    {
        let Walk { listed, entered: _ } = self;
        listed
    }
}
