//! Whether a module has active data segments.

ghost use Rattle.std.specs.Prelude.{◌≡◌, Ok, map};
ghost use Rattle.core_sections.specs.Sections.{view, pieces_of};
ghost use Rattle.adapter_fitting.specs.Faults.{Gives, Told};
ghost use Rattle.adapter_fitting.specs.Places.{placed_view, placed};
ghost use Rattle.adapter_fitting.specs.Segments.{has_active, one_has_active, no_data, active_data};

use crate::fault::{FitFault, Refusal, Stop};
use crate::places::{PlacedSection, bytes_in, has_id, placed_sections};
use core_parts::is_active;
use core_sections::{Section, sections_of};
use std::alloc::Global;

/// Whether a section has one.
fn has_active(section: PlacedSection<'_>) -> Result<bool, Stop>
    ensures { Gives (λ b. b) result (has_active (placed_view section.entry)) }
{
    let content = section.section.content;
    if !has_id(11, content) {
        return Ok(false);
    }
    match is_active(bytes_in(content)) {
        Some(found) => Ok(found),
        None => Err(Stop::Refused(Refusal::Data {
            place: section.place,
        })),
    }
}

/// Whether one of these sections has one.
fn one_has_active(sections: &[PlacedSection<'_>]) -> Result<bool, Stop>
    ensures { Gives (λ b. b) result (one_has_active (map placed_view sections.now)) }
{
    for section in sections {
        if has_active(*section)? {
            return Ok(true);
        }
    }
    Ok(false)
}

/// Checks that none of these sections has one.
pub(crate) fn no_data(sections: &[PlacedSection<'_>]) -> Result<(), Stop>
    ensures { Gives (λ u. u) result (no_data (map placed_view sections.now)) }
{
    if one_has_active(sections)? {
        Err(Stop::Refused(Refusal::ActiveData))
    } else {
        Ok(())
    }
}

fn active_in(alloc: Global, bytes: &[u8], sections: &[Section<'_>]) -> Result<bool, FitFault>
    requires { pieces_of bytes.now ≡ Ok (map view sections.now) }
    ensures { Told result (active_data bytes.now) }
{
    let placed = placed_sections(alloc, bytes, sections)?;
    let found = one_has_active(&placed)?;
    Ok(found)
}

/// Whether a module has an active data segment, which is copied into a memory when the module is instantiated.
///
/// What follows the first one is not read. The fault is `NotModule`, `Section`, `Data` for a
/// section of data that is malformed before the first active segment, or out of memory.
pub fn has_active_data(alloc: Global, bytes: &[u8]) -> Result<bool, FitFault>
    ensures { Told result (active_data bytes.now) }
{
    let sections = sections_of(alloc, bytes)?;
    active_in(alloc, bytes, &sections)
}
