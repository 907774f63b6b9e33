//! The refusals of what modules import from each other.

ghost use Rattle.std.specs.Prelude.{◌≡◌, Err};
ghost use Rattle.record_faults.specs.Faults.{Gives};
ghost use Rattle.linked_modules.specs.Reports.{missing, unfit};

use comp_lists::Text;
use record_faults::{Failure, Refusal};
use std::alloc::Global;

/// The refusal of an import that names what isn't there, or what its module may not import.
pub(crate) fn missing(alloc: Global, from: &str, field: &str) -> Result<(), Failure>
    ensures { Gives (λ x. x) result (Err (missing from.now field.now)) }
{
    Err(Failure::Refused(Refusal::RoleMissing {
        module: Text::from_str(alloc, from)?,
        field: Text::from_str(alloc, field)?,
    }))
}

/// The refusal of an import that may not be given what its role names.
pub(crate) fn unfit(alloc: Global, field: &str) -> Result<(), Failure>
    ensures { Gives (λ x. x) result (Err (unfit field.now)) }
{
    Err(Failure::Refused(Refusal::CoreType {
        name: Text::from_str(alloc, field)?,
    }))
}
