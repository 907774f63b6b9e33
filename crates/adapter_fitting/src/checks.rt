//! What has to hold of a module that gets a function.

ghost use Rattle.std.specs.Prelude.{◌≡◌, ◌-◌, ◌≤◌, ◌^◌, List, ℕ, [], ◌∷◌, map, option_map, is_some};
ghost use Rattle.std.specs.Prelude.{MatchResult};
ghost use Rattle.std.specs.List.{list_all};
ghost use Rattle.byte_encoding.specs.Encoding.{Fits};
ghost use Rattle.byte_encoding.specs.Written.{Refused};
ghost use Rattle.core_parts.specs.Functions.{instructions_of, bodies_of};
ghost use Rattle.adapter_fitting.specs.Faults.{Gives};
ghost use Rattle.adapter_fitting.specs.Places.{placed_view, first};
ghost use Rattle.adapter_fitting.specs.Fitting.{limits_of, added_at, in_order, are_bodies, has_bodies, exports_in, exports_of};

use crate::fault::{Refusal, Stop};
use crate::indices::Indices;
use crate::places::{PlacedSection, bytes_in, first, misplaced};
use byte_encoding::{BuildFault, counted};
use core_parts::{ExportedIndex, exported_indices, function_bodies, instructions_of};
use std::alloc::Global;

/// The indices of a function that is added: of its type, of itself, and of the first function that isn't imported.
#[derive(Clone, Copy)]
pub(crate) struct NewIndices {
    pub(crate) type_index: u32,
    pub(crate) index: u32,
    pub(crate) first: u32,
}

/// An index, if it has no more than 32 bits.
pub(crate) fn limited(index: usize) -> Result<u32, BuildFault>
    ensures { MatchResult result
        (λ n. (n ≡ index) × Fits (index ∷ [])) (λ e. Refused (index ∷ []) e) }
{
    let index = counted(index as u128)?;
    Ok(index)
}

/// The indices of a function that is added to a module, if they have no more than 32 bits.
pub(crate) fn new_indices(indices: Indices) -> Result<NewIndices, BuildFault>
    ensures { MatchResult result
        (λ n. (n ≡ added_at indices) × Fits (limits_of indices)) (λ e. Refused (limits_of indices) e) }
{
    let type_index = limited(indices.types)?;
    let index = limited(indices.functions)?;
    let first = limited(indices.imported)?;
    Ok(NewIndices {
        type_index,
        index,
        first,
    })
}

fn in_order(sections: &[PlacedSection<'_>]) -> Result<(), Stop>
    ensures { Gives (λ u. u) result (in_order (map placed_view sections.now)) }
{
    match misplaced(sections) {
        None => Ok(()),
        Some(place) => Err(Stop::Refused(Refusal::Order { place })),
    }
}

/// Whether the locals of each body can be read.
fn have_code(bodies: &[&[u8]]) -> bool
    ensures { result ≡ list_all (λ b. is_some (instructions_of b)) (map (λ b. b.now) bodies.now) }
{
    for body in bodies {
        if instructions_of(body).is_none() {
            return false;
        }
    }
    true
}

/// Whether these contents are so many bodies, each of whose locals can be read.
fn are_bodies(alloc: Global, count: usize, contents: &[u8]) -> Result<bool, Stop>
    ensures { Gives (λ b. b) result (Ok (are_bodies count (bodies_of contents.now))) }
{
    match function_bodies(alloc, contents)? {
        None => Ok(false),
        Some(bodies) => Ok(bodies.len() == count && have_code(&bodies)),
    }
}

/// Checks the section of code; `end` is where the module ends.
fn has_bodies(
    alloc: Global,
    end: usize,
    count: usize,
    code: Option<PlacedSection<'_>>,
) -> Result<(), Stop>
    ensures { Gives (λ u. u) result (has_bodies end count (option_map placed_view code.entry)) }
{
    let Some(section) = code else {
        return Err(Stop::Refused(Refusal::Code { place: end }));
    };
    if are_bodies(alloc, count, bytes_in(section.section.content))? {
        Ok(())
    } else {
        Err(Stop::Refused(Refusal::Code {
            place: section.place,
        }))
    }
}

fn exports_in(alloc: Global, exports: Option<PlacedSection<'_>>) -> Result<Vec<ExportedIndex>, Stop>
    ensures { Gives (λ v. v.items) result (exports_in (option_map placed_view exports.entry)) }
{
    let Some(section) = exports else {
        return Ok(Vec::new(alloc));
    };
    match exported_indices(alloc, bytes_in(section.section.content))? {
        Some(indices) => Ok(indices),
        None => Err(Stop::Refused(Refusal::Section {
            place: section.place,
        })),
    }
}

/// The exports of a module, where its sections are in order and have a body for each function that
/// isn't imported; `end` is where it ends.
pub(crate) fn exports_of(
    alloc: Global,
    end: usize,
    indices: Indices,
    sections: &[PlacedSection<'_>],
) -> Result<Vec<ExportedIndex>, Stop>
    ensures { Gives (λ v. v.items) result
        (exports_of end indices (map placed_view sections.now)) }
{
    in_order(sections)?;
    let count = indices.functions.saturating_sub(indices.imported);
    has_bodies(alloc, end, count, first(10, sections))?;
    exports_in(alloc, first(7, sections))
}
