//! Lists of names.

ghost use Rattle.std.specs.Prelude.{◌≡◌, List, ℕ, [], ◌∷◌, IfSome, IfNone};
ghost use Rattle.std.specs.List.{flat_map};
ghost use Rattle.comp_names.specs.Judged.{Judges};

use crate::fault::NameFault;
use crate::met::Met;
use comp_lists::Text;
use std::alloc::Global;

/// The name of an entry in a list of names, if it has one.
pub(crate) trait Listing<T> {
    ghost listed: { T → List (List ℕ) };

    fn name(entry: &T) -> Option<&Text>
        ensures some { IfSome result (λ name. listed entry.now ≡ name.now ∷ []) }
        ensures none { IfNone result (listed entry.now ≡ []) };
}

/// Whether no name of the entries occurs twice. The names so far are in a table, so that the
/// cost is linear.
pub(crate) fn apart<T, L: Listing<T>>(alloc: Global, entries: &[T]) -> Result<(), NameFault>
    ensures { Judges (flat_map L.listed entries.now ∷ []) [] result }
{
    let mut met = Met::new(alloc);
    for entry in entries {
        if let Some(name) = L::name(entry) {
            met.note(alloc, name)?;
        }
    }
    Ok(())
}
